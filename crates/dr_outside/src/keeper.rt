ghost use Rattle.std.specs.Prelude.{◌≡◌, ◌≢◌, ◌≤◌, IsTrue, OnOk, Err};
ghost use Rattle.dr_outside.specs.Faults.{raised};
ghost use Rattle.dr_outside.specs.Link.{HasFile, SameElsewhere, with_put};

use crate::{Fault, Link};

/// Files that are read by ranges, and replaced as a whole.
pub trait Keeper: Link {
    /// Replaces the bytes at a path. After a refusal that path may hold any bytes, or none. Where memory is wanting, it
    /// isn't told as a put.
    fn put(&mut self, path: &str, bytes: &[u8]) -> Result<(), Fault>
        ensures placed { OnOk result (HasFile (Self.shows self.old).held
            (Self.shows self.new).held path.now bytes.now) }
        ensures others { SameElsewhere (Self.shows self.old).held (Self.shows self.new).held path.now }
        ensures steady { IsTrue (Self.shows self.old).is_steady → result ≢ Err Fault.Failed }

        ensures put { result ≢ Err Fault.NoMemory → (Self.shows self.new).puts
            ≡ with_put (Self.shows self.old).puts (record { path = path.now; bytes = bytes.now }) }
        ensures not_put { result ≡ Err Fault.NoMemory → (Self.shows self.new).puts ≡ (Self.shows self.old).puts }
        ensures asked { (Self.shows self.new).asked ≡ (Self.shows self.old).asked }
        ensures cause { result ≡ Err Fault.Failed → (Self.shows self.new).faults ≡ raised (Self.shows self.old).faults }
        ensures calm { result ≢ Err Fault.Failed → (Self.shows self.new).faults ≡ (Self.shows self.old).faults }
        ensures never_falls { (Self.shows self.old).faults ≤ (Self.shows self.new).faults }
        ensures stays_steady { IsTrue (Self.shows self.old).is_steady → IsTrue (Self.shows self.new).is_steady };
}
