//! A file opened: its rules, checked one after the other.
ghost use Rattle.std.specs.Prelude.{◌≡◌, ℕ, ◌≤◌, ◌^◌, List, IfOk, IfErr, IfSome, IfNone, OnOk, IsErrOf};
ghost use Rattle.hf_head.specs.FixedHeads.{HasFixedNumbers, SpellsFixed};
ghost use Rattle.tc_model.specs.Arrays.{Array};
ghost use Rattle.tc_space.specs.Frames.{OnlyReads};
ghost use Rattle.tc_space.specs.Refusals.{Blamed};
ghost use Rattle.tc_fixed.specs.Holding.{max_id_of};
ghost use Rattle.tc_fixed.specs.Opening.{Breaks, NamesFile, WasCounted, broken_at, CountsOn, IsOpenOf};
ghost use Rattle.tc_fixed.specs.Standing.{HasHead, IsLong, Stands};

use crate::cells::Look;
use crate::fixed::{FILE, Fixed};
use crate::looking::look;
use crate::tally::Tally;
use hf_head::FixedHead;
use std::alloc::Global;
use std::marker::PhantomData;
use tc_base::Rule;
use tc_reach::{Window, read_into};
use tc_space::{OpenErr, Space};

// A rule of this layout that doesn't hold.
fn broken(number: u8) -> OpenErr
    ensures { result ≡ broken_at number }
{
    OpenErr::Broken {
        file: FILE,
        rule: Rule {
            letter: b'F',
            number,
        },
    }
}

// The head that the bytes at the front are.
fn head_of(bytes: &[u8; 256]) -> Option<FixedHead>
    ensures some { IfSome result (λ h. HasFixedNumbers h × SpellsFixed h bytes.now) }
    ensures none { IfNone result ((h : FixedHead) → HasFixedNumbers h → SpellsFixed h bytes.now → ⊥) }
{
    match FixedHead::read(bytes) {
        Ok(head) => Some(head),
        Err(_) => None,
    }
}

// The head of the file: the first rule, and the second.
fn load_head<S: Space>(space: &mut S) -> Result<FixedHead, OpenErr>
    requires sound { S.sound space.old }
    ensures numbers { IfOk result HasFixedNumbers }
    ensures head { IfOk result (λ h. S.tells → HasHead (S.now space.old 0) h × IsLong h (S.now space.old 0)) }
    ensures broken { IfErr result (λ e. Breaks S.tells (S.now space.old 0) e) }
    ensures reads { OnlyReads S.Space space.old space.new }
    ensures cause { Blamed S.Space (IsErrOf result OpenErr.Fault) space.old space.new }
{
    let len = space.len(FILE);
    if len < 256 {
        return Err(broken(1));
    }
    let mut bytes = [0; 256];
    read_into(space, FILE, 0, &mut bytes)?;
    let Some(head) = head_of(&bytes) else {
        return Err(broken(1));
    };
    if len < head.size {
        return Err(broken(2));
    }
    Ok(head)
}

// What is counted with one cell more, or none where it is no cell.
fn count_cell(tally: &Tally, id: u64, found: Look) -> Option<Tally>
    requires id { 1 ≤ id }
    requires id_most { id ≤ 2 ^ 40 }
    ensures some { IfSome result (CountsOn tally.now id found) }
    ensures none { IfNone result (found ≡ Look.Bad) }
{
    match found {
        Look::Value(long) => Some(tally.with(id, None, long)),
        Look::Absent => Some(*tally),
        Look::Bad => None,
    }
}

// What is counted of the cells: the third rule.
fn count_cells<S: Space>(alloc: Global, space: &mut S, head: &FixedHead) -> Result<Tally, OpenErr>
    requires sound { S.sound space.old }
    requires numbers { HasFixedNumbers head.now }
    requires is { S.tells → HasHead (S.now space.old 0) head.now × IsLong head.now (S.now space.old 0) }
    ensures counted { IfOk result (λ t. S.tells → WasCounted head.now t (S.now space.old 0)) }
    ensures broken { IfErr result (λ e. Breaks S.tells (S.now space.old 0) e) }
    ensures reads { OnlyReads S.Space space.old space.new }
    ensures cause { Blamed S.Space (IsErrOf result OpenErr.Fault) space.old space.new }
{
    let mut window = Window::new(alloc);
    let mut tally = Tally::none();
    let mut id = 1;
    while id <= head.greatest {
        let found = look(&mut window, space, head.width, id)?;
        let Some(now) = count_cell(&tally, id, found) else {
            return Err(broken(3));
        };
        tally = now;
        id += 1;
    }
    Ok(tally)
}

// Whether what is counted is as the head says: the fourth rule, and the fifth.
fn judge(head: &FixedHead, tally: &Tally) -> Result<(), OpenErr>
    ensures same { OnOk result ((head.now.records ≡ tally.now.records) × (head.now.least ≡ tally.now.least) × (head.now.greatest ≡ tally.now.greatest)) }
    ensures broken { (bytes : List ℕ) → HasHead bytes head.now → IsLong head.now bytes → WasCounted head.now tally.now bytes → IfErr result (λ e. Breaks (Unit {0}) bytes e) }
    ensures file { IfErr result NamesFile }
    ensures causes { IsErrOf result OpenErr.Fault → ⊥ }
{
    if head.records != tally.records {
        return Err(broken(4));
    }
    if head.least != tally.least {
        return Err(broken(5));
    }
    if head.greatest != tally.greatest {
        return Err(broken(5));
    }
    Ok(())
}

impl<S: Space> Fixed<S> {
    /// Opens the file. It is read once, in pieces, and nothing is written.
    ///
    /// `Broken` comes exactly where a rule of the layout fails, and names the first: the head (1), the length (2), the cells (3), how many of them
    /// have a value (4), and the least and the greatest id held (5).
    pub fn open(alloc: Global, space: &mut S) -> Result<Fixed<S>, OpenErr>
        requires sound { S.sound space.old }
        ensures stands { IfOk result (λ f. S.tells → (m : Array) × Stands (S.now space.old 0) f.width (max_id_of f) m) }
        ensures holds { IfOk result (λ f. S.tells → IsOpenOf S.Space f (S.now space.old 0) space.new) }
        ensures broken { IfErr result (λ e. Breaks S.tells (S.now space.old 0) e) }
        ensures reads { OnlyReads S.Space space.old space.new }
        ensures cause { Blamed S.Space (IsErrOf result OpenErr.Fault) space.old space.new }
    {
        let head = load_head(space)?;
        let tally = count_cells(alloc, space, &head)?;
        judge(&head, &tally)?;
        Ok(Fixed {
            alloc,
            width: head.width,
            limit: head.limit,
            tally,
            buffer: Vec::new(alloc),
            of: PhantomData,
        })
    }
}
