//! Hybrid data, run by run.

ghost use Rattle.std.specs.Prelude.{◌≡◌, ◌≤◌, ◌*◌, length, IfOk, OnErr};
ghost use Rattle.dr_formats.specs.Reading.{got};
ghost use Rattle.dr_formats.specs.LittleEndian.{bytes_for};
ghost use Rattle.dr_formats.specs.Hybrid.{short};
ghost use Rattle.dr_bytes.specs.Numbers.{IsFault};

use crate::packable::Packable;
use crate::reading::next_run;
use crate::unpacking::unpack;
use dr_bytes::Cut;

/// The greatest width of a value, in bits.
pub const GREATEST_WIDTH: u32 = 32;

/// The bytes begin with no runs for the wanted values: they end before, or a run's header is no number below 2^64.
#[derive(Clone, Copy, PartialEq, Eq)]
pub struct Short;

/// Values packed into bits, the lowest first: so many of a width, in as many bytes as they need.
#[derive(Clone, Copy)]
pub struct Packed<'a> {
    pub(crate) bytes: &'a [u8],
    pub(crate) width: u32,
    pub(crate) count: usize,
    ghost narrow: { width ≤ 32 },
    ghost whole: { length bytes.now ≡ bytes_for (count * width) },
}

/// The values of a run that are wanted.
#[derive(Clone, Copy)]
pub enum Run<'a> {
    /// One value, so many times.
    Repeat { value: u32, count: usize },
    /// Values packed into bits.
    Packed(Packed<'a>),
}

/// Bytes of hybrid data of a width, read run by run.
#[derive(Clone, Copy)]
pub struct Runs<'a> {
    cut: Cut<'a>,
    width: u32,
    ghost narrow: { width ≤ 32 },
}

impl Run<'_> {
    ghost use Rattle.dr_hybrid.specs.Views.{values_of, IsWithin};

    /// How many values it has.
    pub fn count(&self) -> usize
        ensures { result ≡ length (values_of self.now) }
    {
        match self {
            Run::Repeat { count, .. } => *count,
            Run::Packed(packed) => packed.count,
        }
    }

    /// Writes its values, which fit what they are held in, as many as there is room for.
    pub fn write<T: Packable>(&self, out: &mut [T])
        requires room { length out.old ≡ length (values_of self.now) }
        requires narrow { IsWithin T.greatest_width self.now }
        ensures { T.numbers out.new ≡ values_of self.now }
    {
        match self {
            Run::Repeat { value, .. } => T::fill(out, *value),
            Run::Packed(packed) => unpack(packed.bytes, packed.width, 0, out),
        }
    }
}

impl<'a> Runs<'a> {
    ghost use Rattle.dr_hybrid.specs.Views.{left_of, width_of, run_ahead, values_of, IsOfWidth};

    /// The runs with which bytes begin, of a width of at most 32 bits.
    pub fn new(bytes: &'a [u8], width: u32) -> Runs<'a>
        requires { width ≤ 32 }
        ensures left { left_of result ≡ bytes.now }
        ensures width { width_of result ≡ width }
    {
        Runs {
            cut: Cut::new(bytes),
            width,
        }
    }

    /// The next run, where so many values are wanted: those of its values that are wanted, and as few bytes as they
    /// need. It may have none.
    ///
    /// Errors: the bytes begin with no run for them; the place is then as it was.
    pub fn next(&mut self, wanted: usize) -> Result<Run<'a>, Short>
        ensures read { IfOk result (λ r. run_ahead (width_of self.old) wanted (left_of self.old)
            ≡ got (values_of r) (left_of self.new)) }
        ensures kind { IfOk result (λ r. IsOfWidth (width_of self.old) r) }
        ensures short { OnErr result (IsFault short (run_ahead (width_of self.old) wanted (left_of self.old))) }
        ensures wanted { IfOk result (λ r. length (values_of r) ≤ wanted) }
        ensures stays { OnErr result (left_of self.new ≡ left_of self.old) }
        ensures width { width_of self.new ≡ width_of self.old }
    {
        let mut cut = self.cut;
        let run = next_run(&mut cut, self.width, wanted)?;
        self.cut = cut;
        Ok(run)
    }
}
