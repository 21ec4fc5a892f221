//! Which levels may follow one another in the columns of a leaf.

ghost use Rattle.std.specs.Prelude.{◌≡◌, ◌≤◌, ◌<◌, length, get_or};

use crate::shallow::Shallow;
use dr_levels::Levels;
use dr_memory::NoMemory;
use dr_nested::{Rep, Step};
use std::alloc::Global;

/// A leaf with few repeated fields has at most so many.
const SHALLOW: usize = 3;

/// What is found of levels that follow a triplet: whether each may, and how many begin a row.
#[derive(Clone, Copy)]
pub(crate) struct Following {
    pub(crate) fits: bool,
    pub(crate) begun: usize,
}

/// For each repeated field on a leaf's path, outermost first, the definition level that its instances have at least;
/// and the leaf's greatest definition level.
#[derive(Drop)]
pub(crate) struct Floors {
    levels: Vec<u8>,
    greatest: u8,
    ghost few: { length levels.items ≤ 32 },
    ghost within: { greatest ≤ 32 },
}

impl Floors {
    ghost use Rattle.std.specs.Prelude.{List, map, None, IfOk, IfSome, IfNone};
    ghost use Rattle.dr_meaning.specs.Column.{triplet};
    ghost use Rattle.dr_meaning.specs.Path.{Step as MeantStep, max_repetition, max_definition};
    ghost use Rattle.dr_meaning.specs.OneColumn.{starts, all_follow};
    ghost use Rattle.dr_nested.specs.PathView.{step_view};
    ghost use Rattle.dr_file.specs.Floors.{AreFloorsOf, AreLeastOf, AreShallowOf, least_of, bare};

    /// Those of a path of at most 32 steps.
    ///
    /// Errors: want of memory alone.
    pub(crate) fn new(alloc: Global, steps: &[Step]) -> Result<Floors, NoMemory>
        requires { length steps.now ≤ 32 }
        ensures { IfOk result (AreFloorsOf (map step_view steps.now)) }
    {
        let mut levels = Vec::new(alloc);
        let mut greatest = 0;
        'steps: for step in steps {
            match step.rep {
                Rep::Required => {}
                Rep::Optional => greatest += 1,
                Rep::Repeated => {
                    greatest += 1;
                    levels.push(greatest)?;
                }
            }
        }
        Ok(Floors { levels, greatest })
    }

    /// The leaf's greatest repetition level.
    pub(crate) fn max_repetition(&self) -> u8
        ensures level { (p : List MeantStep) → AreFloorsOf p self.now → result ≡ max_repetition p }
        ensures within { result ≤ 32 }
    {
        self.levels.len() as u8
    }

    /// The leaf's greatest definition level.
    pub(crate) fn max_definition(&self) -> u8
        ensures level { (p : List MeantStep) → AreFloorsOf p self.now → result ≡ max_definition p }
        ensures within { result ≤ 32 }
    {
        self.greatest
    }

    /// For each repetition level, the definition level that the triplets have at least that it stands between.
    fn least_levels(&self) -> [u8; 256]
        ensures { (p : List MeantStep) → AreFloorsOf p self.now → AreLeastOf p result }
    {
        let mut least = [self.greatest; 256];
        least[0] = 0;
        'levels: for index in 0..self.levels.len() {
            least[index + 1] = self.levels[index];
        }
        least
    }

    /// The one of a repetition level.
    #[inline(always)]
    fn least_at(least: &[u8; 256], repetition: u8) -> u8
        ensures { (p : List MeantStep) → AreLeastOf p least.now → result ≡ least_of p repetition }
    {
        least[usize::from(repetition)]
    }

    /// The one of a repeated field, by its place among them; of a later place the greatest definition level.
    fn floor_at(&self, index: usize) -> u8
        ensures { result ≡ get_or (self.now).levels.items index (self.now).greatest }
    {
        match self.levels.get(index) {
            Some(level) => *level,
            None => self.greatest,
        }
    }

    /// Those of a leaf that has few repeated fields; none where it has more.
    fn shallow(&self) -> Option<Shallow>
        ensures some { IfSome result (λ s. (p : List MeantStep) → AreFloorsOf p self.now → AreShallowOf p s) }
        ensures none { IfNone result (3 < length (self.now).levels.items) }
    {
        if self.levels.len() > SHALLOW {
            return None;
        }
        Some(Shallow {
            first: self.floor_at(0),
            second: self.floor_at(1),
            third: self.floor_at(2),
            others: self.greatest,
        })
    }

    /// Whether each of these levels may follow the one before it, the first a triplet of this definition level, and how
    /// many begin a row. All are looked at.
    pub(crate) fn follow(&self, before: u8, levels: &[Levels]) -> Following
        ensures fits { (p : List MeantStep) → AreFloorsOf p self.now → result.fits
            ≡ all_follow p (triplet 0 before None) (map bare levels.now) }
        ensures begun { result.begun ≡ starts (map bare levels.now) }
    {
        match self.shallow() {
            Some(shallow) => shallow.follow(before, levels),
            None => self.follow_by_table(before, levels),
        }
    }

    /// The same, of any leaf.
    fn follow_by_table(&self, before: u8, levels: &[Levels]) -> Following
        ensures fits { (p : List MeantStep) → AreFloorsOf p self.now → result.fits
            ≡ all_follow p (triplet 0 before None) (map bare levels.now) }
        ensures begun { result.begun ≡ starts (map bare levels.now) }
    {
        let least = self.least_levels();
        let mut last = before;
        let mut fits = true;
        let mut begun = 0;
        'levels: for at in 0..levels.len() {
            let next = levels[at];
            let floor = Floors::least_at(&least, next.repetition);
            fits = fits & ((floor <= last) & (floor <= next.definition));
            begun += usize::from(next.repetition == 0);
            last = next.definition;
        }
        Following { fits, begun }
    }
}
