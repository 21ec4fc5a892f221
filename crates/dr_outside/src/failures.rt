// Which calls of a thing in memory are to fail.
ghost use Rattle.std.specs.Prelude.{◌≡◌, ◌≤◌, ◌==◌, true, false};
ghost use Rattle.std.specs.List.{list_any};
ghost use Rattle.dr_outside.specs.Failing.{unused, is_due, is_quiet, after_call, after_fault};
ghost use Rattle.dr_outside.specs.Faults.{Rose};

use std::marker::Model;

// The numbers of the calls that are to fail, counted from 1, and how many calls and faults there were.
#[derive(Debug, Drop)]
pub(crate) struct Failures {
    listed: Vec<u64>,
    calls: u64,
    faults: u64,
}

impl Model for Failures {
    ghost use Rattle.dr_outside.specs.Failing.{Failing};

    ghost Value = { Failing };

    ghost view = { λ f. record { listed = f.listed.items; calls = f.calls; faults = f.faults } };
}

fn has_call(listed: &[u64], number: u64) -> bool
    ensures { result ≡ list_any (λ n. n == number) listed.now }
{
    listed.iter().any(|call| *call == number)
}

impl Failures {
    pub(crate) fn new(listed: Vec<u64>) -> Self
        ensures { result ≡ unused listed.items }
    {
        Failures {
            listed,
            calls: 0,
            faults: 0,
        }
    }

    pub(crate) fn faults(&self) -> u64
        ensures { result ≡ self.now.faults }
    {
        self.faults
    }

    // Counts a call, and says whether it is to fail, which counts as a fault.
    pub(crate) fn strike(&mut self) -> bool
        ensures due { result ≡ is_due self.old }
        ensures counted { self.new ≡ after_call self.old }

        // What follows from that.
        ensures rose { result ≡ true → Rose self.old.faults self.new.faults }
        ensures calm { result ≡ false → self.new.faults ≡ self.old.faults }
        ensures never_falls { self.old.faults ≤ self.new.faults }
        ensures quiet { is_quiet self.old ≡ true → result ≡ false }
        ensures stays_quiet { is_quiet self.old ≡ true → is_quiet self.new ≡ true }
    {
        if self.calls == u64::MAX {
            return false;
        }
        self.calls += 1;
        let due = has_call(&self.listed, self.calls);
        if due {
            self.faults = self.faults.saturating_add(1);
        }
        due
    }

    // Counts a fault.
    pub(crate) fn raise(&mut self)
        ensures counted { self.new ≡ after_fault self.old }

        // What follows from that.
        ensures rose { Rose self.old.faults self.new.faults }
        ensures never_falls { self.old.faults ≤ self.new.faults }
        ensures stays_quiet { is_quiet self.old ≡ true → is_quiet self.new ≡ true }
    {
        self.faults = self.faults.saturating_add(1);
    }
}
