//! A fault of records as that of a file.

ghost use Rattle.std.specs.Prelude.{◌≡◌};
ghost use Rattle.dr_scan.specs.FileRecords.{assemble_fault};

use dr_file::FileFault;
use dr_outside::Cause;
use dr_walk::AssembleFault;

/// A fault of putting records together as that of a file.
pub fn file_fault(fault: AssembleFault) -> FileFault
    ensures { result ≡ assemble_fault fault }
{
    match fault {
        AssembleFault::NoMemory => FileFault::NoMemory,
        AssembleFault::BadData => FileFault::Why(Cause::BadData),
    }
}
