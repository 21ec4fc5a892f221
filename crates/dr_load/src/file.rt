//! Putting one file.

ghost use Rattle.std.specs.Prelude.{◌≡◌, ◌≢◌, ◌∷◌, [], IsTrue, IfErr, OnOk, Err, None};
ghost use Rattle.dr_outside.specs.Faults.{raised};
ghost use Rattle.dr_load.specs.Faults.{refusal_of, is_told};
ghost use Rattle.dr_load.specs.Puts.{HasPut, HasFailed};

use crate::fault::LoadFault;
use dr_outside::Keeper;

/// Puts a file at a path.
///
/// Errors: the keeper failed; want of memory. In both the path may hold any bytes, or none.
pub(crate) fn put_file<K: Keeper>(keeper: &mut K, path: &str, bytes: &[u8]) -> Result<(), LoadFault>
    ensures put { OnOk result (HasPut (record { path = path.now; bytes = bytes.now } ∷ []) (K.shows keeper.old)
        (K.shows keeper.new)) }
    ensures failed { IfErr result (λ e. HasFailed (is_told e) [] (record { path = path.now; bytes = bytes.now })
        (K.shows keeper.old) (K.shows keeper.new)) }
    ensures cause { result ≡ Err LoadFault.KeepFault → (K.shows keeper.new).faults
        ≡ raised (K.shows keeper.old).faults }
    ensures calm { result ≢ Err LoadFault.KeepFault → (K.shows keeper.new).faults ≡ (K.shows keeper.old).faults }
    ensures read { result ≢ Err LoadFault.ReadFault }
    ensures line { IfErr result (λ e. refusal_of e ≡ None) }
    ensures asked { (K.shows keeper.new).asked ≡ (K.shows keeper.old).asked }
    ensures steady { IsTrue (K.shows keeper.old).is_steady → result ≢ Err LoadFault.KeepFault }
    ensures stays_steady { IsTrue (K.shows keeper.old).is_steady → IsTrue (K.shows keeper.new).is_steady }
{
    match keeper.put(path, bytes) {
        Ok(()) => Ok(()),
        Err(fault) => Err(fault.into()),
    }
}
