ghost use Rattle.std.specs.Prelude.{◌≡◌};
ghost use Rattle.rr_base.specs.Faults.{Rose};
ghost use Rattle.rr_base.specs.Memory.{new_plan, is_due, after_call, after_fault};

use crate::list::List;

/// Which calls on an object in memory are to fail, by their numbers from 0.
#[derive(Debug, Drop)]
pub(crate) struct Plan {
    fails: List<u64>,
    calls: u64,
    faults: u64,
}

impl Plan {
    pub(crate) fn new(fails: List<u64>) -> Plan
        ensures { result ≡ new_plan fails }
    {
        Plan {
            fails,
            calls: 0,
            faults: 0,
        }
    }

    /// Whether the next call is to fail.
    pub(crate) fn is_due(&self) -> bool
        ensures { result ≡ is_due self.now }
    {
        self.fails.as_slice().contains(&self.calls)
    }

    /// Counts a call that went well.
    pub(crate) fn count_call(&mut self)
        ensures { self.new ≡ after_call self.old }
    {
        self.calls = self.calls.saturating_add(1);
    }

    /// Counts a call that failed.
    pub(crate) fn count_fault(&mut self)
        ensures plan { self.new ≡ after_fault self.old }
        ensures rose { Rose self.old.faults self.new.faults }
    {
        self.calls = self.calls.saturating_add(1);
        self.faults = self.faults.saturating_add(1);
    }
}
