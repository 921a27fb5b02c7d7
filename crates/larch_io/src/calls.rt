ghost use Rattle.std.specs.Prelude.{◌≡◌, ◌↔◌, ◌<◌, Contains, IsTrue, IsErr, IfOk, OnOk, OnErr};
ghost use Rattle.larch_io.specs.Faults.{one_more};
ghost use Rattle.larch_io.specs.Calls.{IsNextCall, no_calls};

use crate::refusal::Failed;
use larch_base::Memory;
use std::alloc::Global;
use std::marker::Model;

/// The calls of an object in memory: how many there were, how many of them failed, which are to fail, and how
/// many bytes one moves at most.
#[derive(Drop)]
pub(crate) struct Calls {
    failing: Vec<u64>,
    most: usize,
    made: u64,
    faults: u64,
}

impl Model for Calls {
    ghost use Rattle.std.specs.Prelude.{◌<◌};
    ghost use Rattle.larch_io.specs.Faults.{one_more};
    ghost use Rattle.larch_io.specs.Calls.{CallCounts};

    ghost Value = { CallCounts };

    ghost view = { λ calls. record {
      failing = calls.failing.items;
      most = calls.most;
      made = calls.made;
      faults = calls.faults;
    } };

    ghost invariant = { λ calls. 0 < calls.most };
}

impl Calls {
    /// No calls yet.
    pub(crate) fn new(alloc: Global, failing: &[u64], most: usize) -> Result<Calls, Memory>
        requires { 0 < most }
        ensures { IfOk result (λ calls. calls ≡ no_calls failing.now most) }
    {
        let failing = Vec::from_slice(alloc, failing)?;
        Ok(Calls {
            failing,
            most,
            made: 0,
            faults: 0,
        })
    }

    /// How many bytes a call moves at most.
    pub(crate) fn most(&self) -> usize
        ensures value { result ≡ self.now.most }
        ensures some { 0 < result }
    {
        self.most
    }

    /// One call more, which fails where it is to fail.
    pub(crate) fn begin(&mut self) -> Result<(), Failed>
        ensures next { IsNextCall self.old self.new }
        ensures fails { IsErr result ↔ Contains self.new.failing self.new.made }
        ensures fine { OnOk result (self.new.faults ≡ self.old.faults) }
        ensures failed { OnErr result (self.new.faults ≡ one_more self.old.faults) }
    {
        self.made = self.made.saturating_add(1);
        if is_listed(&self.failing, self.made) {
            self.faults = self.faults.saturating_add(1);
            return Err(Failed);
        }
        Ok(())
    }
}

fn is_listed(numbers: &[u64], number: u64) -> bool
    ensures { IsTrue result ↔ Contains numbers.now number }
{
    numbers.contains(&number)
}
