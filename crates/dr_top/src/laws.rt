//! Laws of what commands mean.

ghost use Rattle.dr_commands.specs.Gen.{GenWords, gen_meaning};
ghost use Rattle.dr_top.specs.World.{World};
ghost use Rattle.dr_top.specs.Ends.{IsAccepted};
ghost use Rattle.dr_top.specs.ServedLaws.{ServedPrintsMeaning};

/// `gen` refuses nothing: so where no count rises, `run` ends with 0, or for want of memory.
pub fn gen_refuses_nothing()
    ensures { (w : GenWords) (before : World) → IsAccepted before (gen_meaning w) }
{}

/// Where all links tell what they hold, the same at each path, and each copy of a tablet holds a file of the tablet's
/// records, or none of any records, or nothing, a query that links serve prints what it means on the records of the
/// tablets that aren't left, each counted once.
pub fn served_prints_meaning()
    ensures { ServedPrintsMeaning }
{}
