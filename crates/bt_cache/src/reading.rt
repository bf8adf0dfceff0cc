//! The page of an id, read from a store.
ghost use Rattle.std.specs.Prelude.{◌≡◌, ◌<◌, ◌≤◌, ◌^◌, IfOk, OnOk};
ghost use Rattle.tc_space.specs.Frames.{Keeps};
ghost use Rattle.tc_space.specs.Refusals.{Blames};
ghost use Rattle.tc_space.specs.Stores.{ReadsIn, ReadyIn};
ghost use Rattle.bt_rows.specs.declared.page.Page.{Page};
ghost use Rattle.bt_rows.specs.Pages.{IsPage};
ghost use Rattle.bt_cache.specs.Effects.{AsksOnce, IsAsked, ReadsOne};
ghost use Rattle.bt_cache.specs.Shared.{page_of};

use crate::shared::{HeldLeaf, SharedPage, empty_page};
use bt_page::{PageErr, page_key};
use bt_slots::{SlottedLeaf, SlottedNode};
use std::alloc::{AllocError, Global};
use std::rc::Rc;
use tc_base::{Blob, PAGE_END, Steps};
use tc_space::{RecErr, Records};

// The leaf that bytes are, an empty one where they are none's.
fn parse_leaf(alloc: Global, id: u64, bytes: Blob) -> Result<SharedPage, AllocError>
    requires { id < 2 ^ 48 }
    ensures { IfOk result (λ s. (p : Page) → IsPage id bytes p → page_of s ≡ p) }
{
    match SlottedLeaf::read(alloc, bytes) {
        Ok(leaf) => Ok(SharedPage::Leaf(HeldLeaf::new(alloc, Rc::new(alloc, leaf)?))),
        Err(PageErr::Bad) => empty_page(alloc, true),
        Err(PageErr::Memory) => Err(AllocError),
    }
}

// The node that bytes are, an empty one where they are none's.
fn parse_node(alloc: Global, id: u64, bytes: Blob) -> Result<SharedPage, AllocError>
    requires { 2 ^ 48 ≤ id }
    ensures { IfOk result (λ s. (p : Page) → IsPage id bytes p → page_of s ≡ p) }
{
    match SlottedNode::read(alloc, bytes) {
        Ok(node) => Ok(SharedPage::Node(Rc::new(alloc, node)?)),
        Err(PageErr::Bad) => empty_page(alloc, false),
        Err(PageErr::Memory) => Err(AllocError),
    }
}

fn parse(alloc: Global, id: u64, bytes: Blob) -> Result<SharedPage, AllocError>
    ensures { IfOk result (λ s. (p : Page) → IsPage id bytes p → page_of s ≡ p) }
{
    if id < PAGE_END {
        parse_leaf(alloc, id, bytes)
    } else {
        parse_node(alloc, id, bytes)
    }
}

/// The page that a store has under an id, an empty one where it has none. `Full` doesn't come.
pub(crate) fn read_page<R: Records>(
    alloc: Global,
    store: &mut R,
    space: &mut R::S,
    id: u64,
) -> Result<SharedPage, RecErr>
    requires { ReadyIn R.S.Space R.file_of R.holds store.old space.old }
    ensures page { IfOk result (λ s. ReadsOne R.S.Space R.Records id store.old space.old (page_of s)) }
    ensures reads { ReadsIn R.S.Space R.file_of R.holds store.old store.new space.old space.new }
    ensures keeps { Keeps R.S.Space space.old space.new }
    ensures asks { AsksOnce R.Records store.old store.new }
    ensures asked { OnOk result (IsAsked R.Records store.old store.new) }
    ensures cause { Blames R.S.Space result space.old space.new }
{
    let mut key = Blob::new(alloc);
    page_key(id, &mut key)?;
    let mut steps: Steps<R> = Steps::new();
    let Some(bytes) = store.get(space, key.as_slice(), &mut steps)? else {
        return Ok(empty_page(alloc, id < PAGE_END)?);
    };
    Ok(parse(alloc, id, bytes)?)
}
