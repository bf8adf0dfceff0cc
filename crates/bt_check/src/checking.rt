//! The rules in their order.
ghost use Rattle.std.specs.Prelude.{◌≡◌, ◌↔◌, ◌≤◌, IsTrue, OnOk, IfOk, IfErr};
ghost use Rattle.bt_page.specs.Limits.{IsLimit};
ghost use Rattle.bt_rows.specs.Orders.{before_by};
ghost use Rattle.bt_rows.specs.Rules.{B1};
ghost use Rattle.bt_check.specs.Looks.{AsksFor, Gives, Looks, MayLook, OnOpenFault};
ghost use Rattle.bt_check.specs.Verdicts.{BreaksFirst, BreaksIn, Gathers, HasFew, KeepsRules, LeavesSome, Measures, StandsPlaced, broken_at, open_of};

use crate::collecting::{Collected, collect};
use crate::leaves::{broken_rule, see_all};
use crate::rows::Walked;
use crate::walking::walk;
use bt_page::{LIMIT_LEAST, LIMIT_MOST};
use bt_rows::TreeHead;
use std::alloc::Global;
use tc_base::{Order, PAGE_END, Rule, Steps};
use tc_space::{OpenErr, RecErr, Records};

fn broken(file: u32, number: u8) -> OpenErr
    ensures { result ≡ broken_at file number }
{
    OpenErr::Broken {
        file,
        rule: Rule {
            letter: b'B',
            number,
        },
    }
}

fn refusal(e: RecErr) -> OpenErr
    ensures { result ≡ open_of e }
{
    match e {
        RecErr::Full => OpenErr::Memory,
        RecErr::Fault => OpenErr::Fault,
        RecErr::Memory => OpenErr::Memory,
    }
}

fn is_limit(n: u32) -> bool
    ensures { IsTrue result ↔ IsLimit n }
{
    n >= LIMIT_LEAST && n <= LIMIT_MOST
}

// Whether the numbers are in their ranges.
fn is_head(head: &TreeHead) -> bool
    ensures { IsTrue result ↔ B1 head.now }
{
    if head.order > 1 {
        return false;
    }
    if !is_limit(head.leaf_limit) {
        return false;
    }
    if !is_limit(head.node_limit) {
        return false;
    }
    head.leaf_ids < PAGE_END && head.node_ids < PAGE_END
}

// Checks the rules of the head and of keys, and gives the pages.
fn gather<R: Records>(
    alloc: Global,
    store: &mut R,
    space: &mut R::S,
    head: &TreeHead,
    index: bool,
) -> Result<Collected, OpenErr>
    requires { MayLook R.S.Space R.Records store.old space.old }
    ensures head { OnOk result (B1 head.now) }
    ensures ok { Gives R.S.Space R.Records result store.old space.old (Gathers head.now index) }
    ensures broken { IfErr result (BreaksFirst R.S.Space R.Records head.now index store.old space.old) }
    ensures looks { Looks R.S.Space R.Records store.old store.new space.old space.new }
    ensures few { Gives R.S.Space R.Records result store.old space.old HasFew }
    ensures asks { AsksFor R.S.Space R.Records 1 store.old store.new space.old }
    ensures cause { OnOpenFault R.S.Space result space.old space.new }
{
    let file = store.file();
    if !is_head(head) {
        return Err(broken(file, 1));
    }
    let mut steps: Steps<R> = Steps::new();
    let keys = store.keys(space, &mut steps).map_err(refusal)?;
    let collected = collect(alloc, store, space, head, index, &keys).map_err(refusal)?;
    let Some(collected) = collected else {
        return Err(broken(file, 2));
    };
    Ok(collected)
}

// Checks the rules of pages, up to that of limits, and gives the rows.
fn check_pages<R: Records>(
    alloc: Global,
    store: &mut R,
    space: &mut R::S,
    head: &TreeHead,
    index: bool,
) -> Result<Walked, OpenErr>
    requires { MayLook R.S.Space R.Records store.old space.old }
    ensures ok { Gives R.S.Space R.Records result store.old space.old (StandsPlaced head.now index) }
    ensures broken { IfErr result (BreaksFirst R.S.Space R.Records head.now index store.old space.old) }
    ensures looks { Looks R.S.Space R.Records store.old store.new space.old space.new }
    ensures asks { AsksFor R.S.Space R.Records 2 store.old store.new space.old }
    ensures few { Gives R.S.Space R.Records result store.old space.old (LeavesSome (R.gets store.old) (R.gets store.new)) }
    ensures cause { OnOpenFault R.S.Space result space.old space.new }
{
    let file = store.file();
    let collected = gather(alloc, store, space, head, index)?;
    let within = collected.within;
    let walked = walk(alloc, store, space, head.root, collected.ids).map_err(refusal)?;
    let Some(walked) = walked else {
        return Err(broken(file, 3));
    };
    if walked.uneven {
        return Err(broken(file, 4));
    }
    if !within {
        return Err(broken(file, 5));
    }
    Ok(walked)
}

/// Checks the rules of a tree in their order, each over the whole map before the next, with the keys in the order O, and answers how many rows of pages there are, at least 1, that of
/// the leaves among them. Where `index` is true the key `column` may be held besides. `Broken` names the store's file and the first rule that doesn't hold. Each page is read twice at
/// most. Nothing is changed.
pub fn measure_tree<R: Records, O: Order>(
    alloc: Global,
    store: &mut R,
    space: &mut R::S,
    index: bool,
) -> Result<u64, OpenErr>
    requires { MayLook R.S.Space R.Records store.old space.old }
    ensures some { IfOk result (λ height. 1 ≤ height) }
    ensures stands { Measures R.S.Space R.Records result (before_by O.cmp) index store.old space.old }
    ensures broken { IfErr result (BreaksIn R.S.Space R.Records (before_by O.cmp) index store.old space.old) }
    ensures looks { Looks R.S.Space R.Records store.old store.new space.old space.new }
    ensures asks { AsksFor R.S.Space R.Records 2 store.old store.new space.old }
    ensures cause { OnOpenFault R.S.Space result space.old space.new }
{
    let file = store.file();
    let head = TreeHead::read(&store.opaque());
    let walked = check_pages(alloc, store, space, &head, index)?;
    let height = walked.height;
    let seen = see_all::<R, O>(alloc, store, space, &head, walked.leaves).map_err(refusal)?;
    match broken_rule(&head, &seen) {
        None => Ok(height),
        Some(number) => Err(broken(file, number)),
    }
}

/// Checks the rules of a tree as `measure_tree` does, and answers nothing else.
pub fn check_tree<R: Records, O: Order>(
    alloc: Global,
    store: &mut R,
    space: &mut R::S,
    index: bool,
) -> Result<(), OpenErr>
    requires { MayLook R.S.Space R.Records store.old space.old }
    ensures stands { OnOk result (KeepsRules R.S.Space R.Records (before_by O.cmp) index store.old space.old) }
    ensures broken { IfErr result (BreaksIn R.S.Space R.Records (before_by O.cmp) index store.old space.old) }
    ensures looks { Looks R.S.Space R.Records store.old store.new space.old space.new }
    ensures asks { AsksFor R.S.Space R.Records 2 store.old store.new space.old }
    ensures cause { OnOpenFault R.S.Space result space.old space.new }
{
    measure_tree::<R, O>(alloc, store, space, index)?;
    Ok(())
}
