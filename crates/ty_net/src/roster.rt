//! The numbers of connections: which are open, and of which more may come.
ghost use Rattle.std.specs.Prelude.{◌≡◌, ◌<◌, ◌+◌, ◌++◌, [], ◌∷◌, ℕ, true, false, not, nat_eq, IfSome, OnOk, OnErr};
ghost use Rattle.std.specs.List.{filter};
ghost use Rattle.tc_io.specs.Lines.{has, without};

use std::alloc::{AllocError, Global};

/// The open connections in the order of their opening. Numbers ascend, and none comes again.
#[derive(Drop)]
pub struct Roster {
    conns: Vec<u32>,
    // those of them of which no more input comes, the latest first
    ended: Vec<u32>,
    given: u64,
    ghost below: { (c : ℕ) → has conns.items c ≡ true → c < given },
}

impl Roster {
    pub fn new(alloc: Global) -> Roster
        ensures conns { result.conns.items ≡ [] }
        ensures ended { result.ended.items ≡ [] }
        ensures given { result.given ≡ 0 }
    {
        Roster {
            conns: Vec::new(alloc),
            ended: Vec::new(alloc),
            given: 0,
        }
    }

    /// The number that the next connection gets, where one is left.
    pub fn next_number(&self) -> Option<u32>
        ensures { IfSome result (λ number. number ≡ self.now.given) }
    {
        u32::try_from(self.given).ok()
    }

    /// A connection opened under the next number. An `Err` changes nothing.
    pub fn add(&mut self, number: u32) -> Result<(), AllocError>
        requires { number ≡ self.old.given }
        ensures conns { OnOk result (self.new.conns.items ≡ self.old.conns.items ++ number ∷ []) }
        ensures given { OnOk result (self.new.given ≡ number + 1) }
        ensures ended { self.new.ended.items ≡ self.old.ended.items }
        ensures conns_err { OnErr result (self.new.conns.items ≡ self.old.conns.items) }
        ensures given_err { OnErr result (self.new.given ≡ self.old.given) }
    {
        self.conns.push(number)?;
        self.given = u64::from(number) + 1;
        Ok(())
    }

    // Whether it is open. It is looked for at that place first.
    fn is_open(&self, at: usize, number: u32) -> bool
        ensures { result ≡ true → has self.now.conns.items number ≡ true }
    {
        if at < self.conns.len() && self.conns[at] == number {
            return true;
        }
        self.conns.contains(&number)
    }

    // Whether no more input comes of it.
    fn has_ended(&self, number: u32) -> bool
        ensures { result ≡ false → has self.now.ended.items number ≡ false }
    {
        !self.ended.is_empty() && self.ended.contains(&number)
    }

    /// Whether more may come of it. It is looked for at that place first.
    pub fn hears(&self, at: usize, number: u32) -> bool
        ensures open { result ≡ true → has self.now.conns.items number ≡ true }
        ensures goes_on { result ≡ true → has self.now.ended.items number ≡ false }
    {
        self.is_open(at, number) && !self.has_ended(number)
    }

    /// No more input comes of it. An `Err` changes nothing.
    pub fn end(&mut self, number: u32) -> Result<(), AllocError>
        ensures conns { self.new.conns.items ≡ self.old.conns.items }
        ensures given { self.new.given ≡ self.old.given }
        ensures ended { OnOk result (self.new.ended.items ≡ number ∷ self.old.ended.items) }
        ensures ended_err { OnErr result (self.new.ended.items ≡ self.old.ended.items) }
    {
        self.ended.insert(0, number)?;
        Ok(())
    }

    /// It is open no more.
    pub fn remove(&mut self, number: u32)
        ensures conns { self.new.conns.items ≡ without number self.old.conns.items }
        ensures ended { self.new.ended.items ≡ without number self.old.ended.items }
        ensures given { self.new.given ≡ self.old.given }
    {
        drop_number(&mut self.conns, number);
        drop_number(&mut self.ended, number);
    }
}

fn drop_number(numbers: &mut Vec<u32>, number: u32)
    ensures { numbers.new.items ≡ without number numbers.old.items }
{
    numbers.retain(
        |c: &u32| -> bool
            ensures { result ≡ not (nat_eq c.now number) }
        { *c != number },
    );
}
