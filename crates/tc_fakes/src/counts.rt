//! The calls of an object in memory, those of them that are to fail, and its counts of faults.
ghost use Rattle.std.specs.Prelude.{◌≡◌, ◌≤◌, nat_eq, true, false, OnOk, OnErr};
ghost use Rattle.std.specs.List.{list_any};
ghost use Rattle.tc_fakes.specs.Counted.{Begun, Faulted, IsFresh, Refused, Starved, one_more, refuses};

use std::alloc::Global;
use tc_base::Fault;

/// Counts a call. Answers whether it is listed to fail.
pub fn is_listed(calls: &mut u64, fails: &[u64]) -> bool
    ensures counted { calls.new ≡ one_more calls.old }
    ensures listed { result ≡ list_any (λ n. nat_eq n calls.new) fails.now }
{
    *calls = calls.saturating_add(1);
    fails.contains(calls)
}

/// Counts a fault.
pub fn fault(faults: &mut u64) -> Fault
    ensures faults { faults.new ≡ one_more faults.old }
    ensures later { faults.old ≤ faults.new }
{
    *faults = faults.saturating_add(1);
    Fault
}

/// Counts a call that found no memory, which is a fault too.
pub fn starve(starved: &mut u64, faults: &mut u64) -> Fault
    ensures starved { starved.new ≡ one_more starved.old }
    ensures faults { faults.new ≡ one_more faults.old }
    ensures later { faults.old ≤ faults.new }
{
    *starved = starved.saturating_add(1);
    fault(faults)
}

/// What is counted of the calls of an object, and which of them are to fail.
#[derive(Drop)]
pub struct Counts {
    pub fails: Vec<u64>,
    // the last call that is answered
    pub stop: Option<u64>,
    pub calls: u64,
    pub faults: u64,
    pub starved: u64,
}

impl Counts {
    /// Nothing was called, and nothing is to fail.
    pub fn new(alloc: Global) -> Counts
        ensures { IsFresh result }
    {
        Counts {
            fails: Vec::new(alloc),
            stop: None,
            calls: 0,
            faults: 0,
            starved: 0,
        }
    }

    /// Counts a call. Answers whether it is to fail.
    pub fn begin(&mut self) -> bool
        ensures refused { result ≡ refuses self.old }
        ensures counted { Begun self.old self.new }
    {
        let is_listed = is_listed(&mut self.calls, &self.fails);
        match self.stop {
            Some(stop) => stop < self.calls || is_listed,
            None => is_listed,
        }
    }

    /// Counts a call. The `Err` is a fault that was counted, and comes exactly where the call is to fail.
    pub fn refuse(&mut self) -> Result<(), Fault>
        ensures ok { OnOk result (refuses self.old ≡ false) }
        ensures err { OnErr result (refuses self.old ≡ true) }
        ensures counted_ok { OnOk result (Begun self.old self.new) }
        ensures counted_err { OnErr result (Refused self.old self.new) }
    {
        if self.begin() {
            return Err(fault(&mut self.faults));
        }
        Ok(())
    }

    /// Counts a fault.
    pub fn fault(&mut self) -> Fault
        ensures { Faulted self.old self.new }
    {
        fault(&mut self.faults)
    }

    /// Counts a call that found no memory, which is a fault too.
    pub fn starve(&mut self) -> Fault
        ensures { Starved self.old self.new }
    {
        starve(&mut self.starved, &mut self.faults)
    }
}
