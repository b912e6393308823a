// Which calls fail.
ghost use Rattle.std.specs.Prelude.{◌≡◌, ◌↔◌, ◌+◌, ◌-◌, ◌^◌, ◌≤◌, min, IsErr};
ghost use Rattle.std.specs.List.{Contains};
ghost use Rattle.lp_base.specs.Causes.{Rose, HasCause};

use crate::Failed;

// Numbers calls, from 1, and says which of them fail.
#[derive(Drop)]
pub(crate) struct Calls {
    fails: Vec<u64>,
    // The number of the next call, which stays at the end of its type.
    next: u64,
    faults: u64,
}

impl Calls {
    // The counter before any call. The calls with these numbers, counted from 1, will fail.
    pub(crate) fn new(fails: Vec<u64>) -> Self
        ensures { result ≡ record { fails = fails; next = 1; faults = 0 } }
    {
        Calls {
            fails,
            next: 1,
            faults: 0,
        }
    }

    // Counts the next call. Where its number is listed, the call fails and counts as a fault too.
    pub(crate) fn begin(&mut self) -> Result<(), Failed>
        ensures fails { self.new.fails ≡ self.old.fails }
        ensures next { self.new.next ≡ min (self.old.next + 1) (2 ^ 64 - 1) }
        ensures listed { IsErr result ↔ Contains self.old.fails.items self.old.next }
        ensures cause { HasCause self.old.faults self.new.faults result }
    {
        let is_listed = self.fails.contains(&self.next);
        self.next = self.next.saturating_add(1);
        if is_listed {
            return Err(self.fail());
        }
        Ok(())
    }

    // Counts one more failed call, and gives the error that stands for it.
    pub(crate) fn fail(&mut self) -> Failed
        ensures fails { self.new.fails ≡ self.old.fails }
        ensures next { self.new.next ≡ self.old.next }
        ensures later { self.old.faults ≤ self.new.faults }
        ensures rose { Rose self.old.faults self.new.faults }
    {
        self.faults = self.faults.saturating_add(1);
        Failed
    }
}
