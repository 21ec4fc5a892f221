//! Putting a file on the leaves of a tablet's copies.

ghost use Rattle.std.specs.Prelude.{◌≡◌, ◌≢◌, ◌∷◌, [], ◌<◌, ◌≤◌, length, map, string_bytes, IsTrue, IfOk, IfErr, OnOk, Err, None};
ghost use Rattle.dr_outside.specs.Faults.{raised};
ghost use Rattle.dr_load.specs.Faults.{refusal_of, is_told};
ghost use Rattle.dr_load.specs.Puts.{copies_of, copy_path, HasPut, HasFailed, BreaksOff};

use crate::fault::LoadFault;
use crate::file::put_file;
use dr_memory::NoMemory;
use dr_outside::Keeper;
use dr_table::{placement_among, tablet_path};
use std::alloc::Global;

/// Where one copy of a tablet goes.
fn copy_path(alloc: Global, leaves: &[String], tablet: u32, copy: u32) -> Result<String, NoMemory>
    requires has_leaf { 0 < length leaves.now }
    requires few_leaves { length leaves.now ≤ 64 }
    ensures { IfOk result (λ s. string_bytes s ≡ copy_path (map string_bytes leaves.now) tablet copy) }
{
    let leaf = placement_among(leaves.len() as u32, tablet, copy);
    tablet_path(alloc, leaves[leaf as usize].as_str(), tablet)
}

/// Puts one copy of a tablet.
fn put_copy<K: Keeper>(
    alloc: Global,
    keeper: &mut K,
    leaves: &[String],
    tablet: u32,
    copy: u32,
    bytes: &[u8],
) -> Result<(), LoadFault>
    requires has_leaf { 0 < length leaves.now }
    requires few_leaves { length leaves.now ≤ 64 }
    ensures put { OnOk result (HasPut (record {
      path = copy_path
          (map string_bytes leaves.now) tablet copy;
      bytes = bytes.now;
    } ∷ []) (K.shows keeper.old)
        (K.shows keeper.new)) }
    ensures broken { IfErr result (λ e. HasFailed (is_told e) []
        (record { path = copy_path (map string_bytes leaves.now) tablet copy; bytes = bytes.now }) (K.shows keeper.old)
        (K.shows keeper.new)) }
    ensures cause { result ≡ Err LoadFault.KeepFault → (K.shows keeper.new).faults
        ≡ raised (K.shows keeper.old).faults }
    ensures calm { result ≢ Err LoadFault.KeepFault → (K.shows keeper.new).faults ≡ (K.shows keeper.old).faults }
    ensures read { result ≢ Err LoadFault.ReadFault }
    ensures line { IfErr result (λ e. refusal_of e ≡ None) }
    ensures asked { (K.shows keeper.new).asked ≡ (K.shows keeper.old).asked }
    ensures steady { IsTrue (K.shows keeper.old).is_steady → result ≢ Err LoadFault.KeepFault }
    ensures stays_steady { IsTrue (K.shows keeper.old).is_steady → IsTrue (K.shows keeper.new).is_steady }
{
    match copy_path(alloc, leaves, tablet, copy) {
        Err(_) => Err(LoadFault::NoMemory),
        Ok(path) => put_file(keeper, path.as_str(), bytes),
    }
}

/// Puts a tablet on the leaf of each copy, in order.
pub(crate) fn put_copies<K: Keeper>(
    alloc: Global,
    keeper: &mut K,
    leaves: &[String],
    copies: u32,
    tablet: u32,
    bytes: &[u8],
) -> Result<(), LoadFault>
    requires has_leaf { 0 < length leaves.now }
    requires few_leaves { length leaves.now ≤ 64 }
    ensures put { OnOk result (HasPut (copies_of (map string_bytes leaves.now) copies tablet bytes.now)
        (K.shows keeper.old) (K.shows keeper.new)) }
    ensures broken { IfErr result (λ e. BreaksOff (is_told e)
        (copies_of (map string_bytes leaves.now) copies tablet bytes.now) (K.shows keeper.old) (K.shows keeper.new)) }
    ensures cause { result ≡ Err LoadFault.KeepFault → (K.shows keeper.new).faults
        ≡ raised (K.shows keeper.old).faults }
    ensures calm { result ≢ Err LoadFault.KeepFault → (K.shows keeper.new).faults ≡ (K.shows keeper.old).faults }
    ensures read { result ≢ Err LoadFault.ReadFault }
    ensures line { IfErr result (λ e. refusal_of e ≡ None) }
    ensures asked { (K.shows keeper.new).asked ≡ (K.shows keeper.old).asked }
    ensures steady { IsTrue (K.shows keeper.old).is_steady → result ≢ Err LoadFault.KeepFault }
    ensures stays_steady { IsTrue (K.shows keeper.old).is_steady → IsTrue (K.shows keeper.new).is_steady }
{
    'copies: for copy in 0..copies {
        match put_copy(alloc, keeper, leaves, tablet, copy, bytes) {
            Ok(()) => {}
            Err(fault) => return Err(fault),
        }
    }
    Ok(())
}
