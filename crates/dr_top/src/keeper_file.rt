//! Whole files that the keeper holds.

ghost use Rattle.std.specs.Prelude.{◌≡◌, ◌≢◌, ◌<◌, ◌^◌, Err, IfOk, IfSome, IfNone, IsTrue};
ghost use Rattle.dr_outside.specs.Faults.{raised};
ghost use Rattle.dr_outside.specs.Link.{Holds};
ghost use Rattle.dr_top.specs.KeeperFile.{IsFile, IsLongFile};
ghost use Rattle.dr_top.specs.Keeping.{IsUnput, AsksForFile};

use dr_outside::{Fault, Keeper};
use std::alloc::Global;

/// The bytes of the file at a path; none where it has more than so many. The keeper is asked for the file's length and
/// then for its bytes, each once.
///
/// Errors: the keeper failed; want of memory.
pub fn read_file<K: Keeper>(
    alloc: Global,
    keeper: &mut K,
    path: &str,
    longest: usize,
) -> Result<Option<Vec<u8>>, Fault>
    requires { longest < 2 ^ 32 }
    ensures file { IfOk result (λ o. IfSome o (λ v. IsFile (K.shows keeper.old).held path.now v.items)) }
    ensures long { IfOk result (λ o. IfNone o (IsLongFile (K.shows keeper.old).held path.now longest)) }
    ensures calm { result ≢ Err Fault.Failed → (K.shows keeper.new).faults ≡ (K.shows keeper.old).faults }
    ensures cause { result ≡ Err Fault.Failed → (K.shows keeper.new).faults ≡ raised (K.shows keeper.old).faults }
    ensures kept { IsUnput (K.shows keeper.old) (K.shows keeper.new) }
    ensures steady { IsTrue (K.shows keeper.old).is_steady → Holds (K.shows keeper.old).held path.now → result
        ≢ Err Fault.Failed }
    ensures stays_steady { IsTrue (K.shows keeper.old).is_steady → IsTrue (K.shows keeper.new).is_steady }
    ensures asks { AsksForFile path.now (K.shows keeper.old) (K.shows keeper.new) }
{
    let size = keeper.size(path)?;
    if size > longest as u64 {
        return Ok(None);
    }
    let mut bytes = vec![in alloc; 0u8; size as usize]?;
    keeper.read_at(path, 0, &mut bytes)?;
    Ok(Some(bytes))
}
