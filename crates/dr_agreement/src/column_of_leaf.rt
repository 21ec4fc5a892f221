//! Whether triplets alone are the column of a leaf.

ghost use Rattle.std.specs.Prelude.{◌≡◌, ◌∷◌, ◌≤◌, ◌<◌, length, map, get_or, true, IfOk, IfSome, IfNone};
ghost use Rattle.std.specs.List.{list_all};
ghost use Rattle.dr_meaning.specs.Path.{Leaf, max_definition};
ghost use Rattle.dr_meaning.specs.OneColumn.{is_column};
ghost use Rattle.dr_meaning.specs.Record.{int_value, is_of_kind};
ghost use Rattle.dr_meaning.specs.Schema.{greatest_depth};
ghost use Rattle.dr_nested.specs.PathView.{path_view, step_view};
ghost use Rattle.dr_nested.specs.Views.{kind_view};
ghost use Rattle.dr_levels.specs.Lent.{lends_kind, lent_values};
ghost use Rattle.dr_agreement.specs.Alone.{least_levels};
ghost use Rattle.dr_levels.specs.Views.{levels_pair, triplets_form, triplets_view};

use crate::cuts::{begin_record, count_begun};
use crate::shallow::Shallow;
use dr_levels::{Levels, Triplets, ValuesRef};
use dr_memory::NoMemory;
use dr_nested::{Kind, Path, Rep, Step};
use std::alloc::Global;

/// A leaf with few repeated fields has at most so many repetition levels.
const SHALLOW: usize = 4;

/// Whether whole numbers of a kind include this one.
#[inline(always)]
fn is_number_of(kind: Kind, number: i64) -> bool
    ensures { result ≡ is_of_kind (kind_view kind) (int_value number) }
{
    match kind {
        Kind::I32 => i32::try_from(number).is_ok(),
        Kind::I64 => true,
        Kind::Bool | Kind::Text => false,
    }
}

/// Whether whole numbers of a kind include each of these.
fn are_numbers_of(kind: Kind, numbers: &[i64]) -> bool
    ensures { result ≡ list_all (λ z. is_of_kind (kind_view kind) (int_value z)) numbers.now }
{
    numbers.iter().all(|number| is_number_of(kind, *number))
}

/// Whether values that are lent as those of a kind are of it.
fn are_of_kind(kind: Kind, values: ValuesRef<'_>) -> bool
    requires { lends_kind (kind_view kind) values ≡ true }
    ensures { result ≡ list_all (is_of_kind (kind_view kind)) (lent_values values.entry) }
{
    match values {
        ValuesRef::Integers(numbers) => are_numbers_of(kind, numbers),
        ValuesRef::Bools(_) => true,
        ValuesRef::Texts { .. } => true,
    }
}

/// A path's greatest definition level, and the definition levels of its repetition levels.
///
/// Errors: want of memory alone.
fn least_of(alloc: Global, steps: &[Step]) -> Result<(u8, Vec<u8>), NoMemory>
    requires { length steps.now ≤ greatest_depth }
    ensures greatest { IfOk result (λ x. x.0 ≡ max_definition (map step_view steps.now)) }
    ensures least { IfOk result (λ x. (x.1).items ≡ 0 ∷ least_levels 0 (map step_view steps.now)) }
{
    let mut least = vec![in alloc; 0u8]?;
    let mut greatest = 0u8;
    'steps: for step in steps {
        match step.rep {
            Rep::Required => {}
            Rep::Optional => greatest += 1,
            Rep::Repeated => {
                greatest += 1;
                least.push(greatest)?;
            }
        }
    }
    Ok((greatest, least))
}

/// What triplets have to be to be a leaf's: its kind, its greatest definition level, and for each of its repetition
/// levels the definition level that the triplets have at least that it stands between.
#[derive(Drop)]
pub struct LeafTest {
    kind: Kind,
    greatest: u8,
    least: Vec<u8>,
}

impl LeafTest {
    ghost use Rattle.dr_agreement.specs.Alone.{each_may_stand, may_stand, test_form, IsTestOf, IsShallowOf};

    /// Of a leaf.
    ///
    /// Errors: want of memory alone.
    pub fn of(alloc: Global, leaf: &Path) -> Result<LeafTest, NoMemory>
        ensures { IfOk result (IsTestOf (path_view leaf.now)) }
    {
        let (greatest, least) = least_of(alloc, &leaf.steps)?;
        Ok(LeafTest {
            kind: leaf.kind,
            greatest,
            least,
        })
    }

    /// Whether these levels may stand behind a triplet of this definition level.
    #[inline(always)]
    fn may_stand(&self, before: u8, next: Levels) -> bool
        ensures { (l : Leaf) → IsTestOf l self.now → result ≡ may_stand l.path before (levels_pair next) }
    {
        match self.least.get(usize::from(next.repetition)) {
            Some(least) => {
                (*least <= before)
                    & (*least <= next.definition)
                    & (next.definition <= self.greatest)
            }
            None => false,
        }
    }

    /// The least level of a repetition level; 0 where there is none.
    fn least_at(&self, repetition: usize) -> u8
        ensures { result ≡ get_or (self.now).least.items repetition 0 }
    {
        match self.least.get(repetition) {
            Some(least) => *least,
            None => 0,
        }
    }

    /// The test of a leaf that has few repeated fields; none where it has more.
    fn shallow(&self) -> Option<Shallow>
        ensures some { IfSome result (λ s. (l : Leaf) → IsTestOf l self.now → IsShallowOf l.path s) }
        ensures none { IfNone result (4 < length (self.now).least.items) }
    {
        if self.least.len() > SHALLOW {
            return None;
        }
        Some(Shallow {
            greatest: self.greatest,
            most: self.least.len().saturating_sub(1) as u8,
            first: self.least_at(1),
            second: self.least_at(2),
            third: self.least_at(3),
        })
    }

    /// Whether each of these levels may stand behind the one before it. Those of a leaf with few repeated fields are
    /// looked at many at once.
    fn each_may_stand(&self, levels: &[Levels]) -> bool
        ensures { (l : Leaf) → IsTestOf l self.now → result ≡ each_may_stand l.path 0 (map levels_pair levels.now) }
    {
        match self.shallow() {
            Some(shallow) => shallow.each_may_stand(levels),
            None => self.each_by_table(levels),
        }
    }

    /// The same, of any leaf.
    fn each_by_table(&self, levels: &[Levels]) -> bool
        ensures { (l : Leaf) → IsTestOf l self.now → result ≡ each_may_stand l.path 0 (map levels_pair levels.now) }
    {
        let mut before = 0;
        let mut fits = true;
        'levels: for at in 0..levels.len() {
            let next = levels[at];
            fits = fits & self.may_stand(before, next);
            before = next.definition;
        }
        fits
    }

    /// Whether triplets are of columns that are made for the leaf.
    pub fn is_made_for(&self, triplets: Triplets<'_>) -> bool
        ensures { result ≡ true → triplets_form triplets.entry ≡ test_form self.now }
    {
        triplets.kind() == self.kind && triplets.greatest_definition() == self.greatest
    }

    /// Whether triplets are the column of the leaf of so many records.
    pub fn is_column(&self, triplets: Triplets<'_>, records: usize) -> bool
        requires { triplets_form triplets ≡ test_form self.now }
        ensures { (l : Leaf) → IsTestOf l self.now → result ≡ is_column l records (triplets_view triplets.entry) }
    {
        let levels = triplets.levels();
        begin_record(levels)
            & self.each_may_stand(levels)
            & (count_begun(levels) == records)
            & are_of_kind(self.kind, triplets.values())
    }
}
