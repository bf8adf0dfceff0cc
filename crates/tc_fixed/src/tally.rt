//! What is counted of the ids and values held.
ghost use Rattle.std.specs.Prelude.{◌≡◌, ℕ, ◌≤◌, List, length, max, option_map};
ghost use Rattle.std.specs.FinMap.{empty, get, insert, len};
ghost use Rattle.std.specs.Fmt.{decimal};
ghost use Rattle.tc_model.specs.Arrays.{Array};
ghost use Rattle.tc_model.specs.Arrays as Arrays;
ghost use Rattle.tc_fixed.specs.Tallies.{Counts, IsSmall, SizeWith, CountsWith, CountsWithout};

/// What is counted of the ids and values held.
#[derive(Clone, Copy, PartialEq, Eq)]
pub struct Tally {
    /// How many ids are held.
    pub records: u64,
    /// The bytes of all ids as decimal texts, and of all values.
    pub size: u64,
    /// The least id held, or 0.
    pub least: u64,
    /// The greatest id held, or 0.
    pub greatest: u64,
}

// How many decimal digits a number has.
fn digits(n: u64) -> u64
    ensures value { result ≡ length (decimal n) }
    ensures few { result ≤ 20 }
{
    let mut rest = n;
    let mut count = 1;
    while rest >= 10 {
        rest /= 10;
        count += 1;
    }
    count
}

impl Tally {
    /// That of no ids.
    pub fn none() -> Tally
        ensures counts { Counts result empty }
        ensures greatest { result.greatest ≡ 0 }
        ensures none { (result.records ≡ 0) × (result.least ≡ 0) }
    {
        Tally {
            records: 0,
            size: 0,
            least: 0,
            greatest: 0,
        }
    }

    // How many ids are held with this one, whose old value, if it had any, had so many bytes.
    fn records_with(&self, old: Option<u64>) -> u64
        ensures { (m : Array) (id : ℕ) (v : List ℕ) → Counts self.now m → IsSmall m → old ≡ option_map length (get m id) → result ≡ len (insert m id v) }
    {
        match old {
            Some(_) => self.records,
            None => self.records.saturating_add(1),
        }
    }

    // The bytes of all, with a value of so many bytes for an id.
    fn size_with(&self, id: u64, old: Option<u64>, long: u64) -> u64
        ensures { SizeWith self.now id old long result }
    {
        match old {
            Some(was) => self.size.saturating_sub(was).saturating_add(long),
            None => self.size.saturating_add(digits(id)).saturating_add(long),
        }
    }

    // The least id held with this one.
    fn least_with(&self, id: u64) -> u64
        ensures { (m : Array) (v : List ℕ) → Counts self.now m → IsSmall m → result ≡ Arrays.least (insert m id v) }
    {
        if self.least == 0 {
            return id;
        }
        if id < self.least {
            return id;
        }
        self.least
    }

    /// With a value of so many bytes for an id, in place of its old one, if it had any.
    pub fn with(&self, id: u64, old: Option<u64>, long: u64) -> Tally
        requires id { 1 ≤ id }
        ensures counts { CountsWith self.now id old long result }
        ensures greatest { result.greatest ≡ max self.now.greatest id }
    {
        Tally {
            records: self.records_with(old),
            size: self.size_with(id, old, long),
            least: self.least_with(id),
            greatest: self.greatest.max(id),
        }
    }

    /// Without an id, whose value had so many bytes; these are the least and the greatest of the others.
    pub fn without(&self, id: u64, long: u64, least: u64, greatest: u64) -> Tally
        ensures counts { CountsWithout self.now id long least greatest result }
        ensures greatest { result.greatest ≡ greatest }
    {
        Tally {
            records: self.records.saturating_sub(1),
            size: self.size.saturating_sub(digits(id)).saturating_sub(long),
            least,
            greatest,
        }
    }
}
