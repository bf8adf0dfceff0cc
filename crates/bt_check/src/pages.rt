//! Pages of a store.
ghost use Rattle.std.specs.Prelude.{◌≡◌, ◌↔◌, ◌<◌, ◌≤◌, ◌+◌, ℕ, IfSome, IfNone, IsTrue};
ghost use Rattle.tc_space.specs.Refusals.{OnFault};
ghost use Rattle.bt_page.specs.Keys.{key_of, node_offset};
ghost use Rattle.bt_rows.specs.Pages.{IsGiven};
ghost use Rattle.bt_rows.specs.Rules.{B1};
ghost use Rattle.bt_check.specs.Looks.{Gives, IsValueOf, Looks, MayLook};
ghost use Rattle.bt_check.specs.ReadPages.{IsReadOf, leaf_or_none, node_or_none};

use bt_page::{page_id, page_key};
use bt_rows::TreeHead;
use bt_slots::{BareLeaf, BareNode};
use std::alloc::Global;
use tc_base::{Blob, PAGE_END, Steps};
use tc_space::{RecErr, Records};

// Whether an id was given to a leaf or a node.
fn is_given(head: &TreeHead, id: u64) -> bool
    ensures { IsTrue result ↔ IsGiven head.now id }
{
    if id <= PAGE_END {
        id >= 1 && id <= head.leaf_ids
    } else {
        id <= head.leaf_ids || id - PAGE_END <= head.node_ids
    }
}

/// The id that was given and whose key this is.
pub(crate) fn given_id(head: &TreeHead, key: &[u8]) -> Option<u64>
    requires head { B1 head.now }
    ensures given { IfSome result (IsGiven head.now) }
    ensures key { IfSome result (λ id. key.now ≡ key_of id) }
    ensures none { IfNone result ((id : ℕ) → IsGiven head.now id → key.now ≡ key_of id → ⊥) }
{
    let Some(id) = page_id(key) else {
        return None;
    };
    if is_given(head, id) { Some(id) } else { None }
}

/// The value of a key.
pub(crate) fn find<R: Records>(
    store: &mut R,
    space: &mut R::S,
    key: &[u8],
) -> Result<Option<Blob>, RecErr>
    requires { MayLook R.S.Space R.Records store.old space.old }
    ensures value { Gives R.S.Space R.Records result store.old space.old (IsValueOf key.now) }
    ensures looks { Looks R.S.Space R.Records store.old store.new space.old space.new }
    ensures asks { R.gets store.new ≤ R.gets store.old + 1 }
    ensures cause { OnFault R.S.Space result space.old space.new }
{
    let mut steps: Steps<R> = Steps::new();
    store.get(space, key, &mut steps)
}

// The bytes of the page of an id.
fn page_bytes<R: Records>(
    alloc: Global,
    store: &mut R,
    space: &mut R::S,
    id: u64,
) -> Result<Option<Blob>, RecErr>
    requires { MayLook R.S.Space R.Records store.old space.old }
    ensures value { Gives R.S.Space R.Records result store.old space.old (IsValueOf (key_of id)) }
    ensures looks { Looks R.S.Space R.Records store.old store.new space.old space.new }
    ensures asks { R.gets store.new ≤ R.gets store.old + 1 }
    ensures cause { OnFault R.S.Space result space.old space.new }
{
    let mut key = Blob::new(alloc);
    page_key(id, &mut key)?;
    find(store, space, key.as_slice())
}

/// The leaf of an id.
pub(crate) fn read_leaf<R: Records>(
    alloc: Global,
    store: &mut R,
    space: &mut R::S,
    id: u64,
) -> Result<Option<BareLeaf>, RecErr>
    requires id { id < node_offset }
    requires ready { MayLook R.S.Space R.Records store.old space.old }
    ensures read { Gives R.S.Space R.Records result store.old space.old (λ l. IsReadOf id (leaf_or_none l)) }
    ensures looks { Looks R.S.Space R.Records store.old store.new space.old space.new }
    ensures asks { R.gets store.new ≤ R.gets store.old + 1 }
    ensures cause { OnFault R.S.Space result space.old space.new }
{
    let Some(bytes) = page_bytes(alloc, store, space, id)? else {
        return Ok(None);
    };
    Ok(BareLeaf::read(bytes))
}

/// The node of an id.
pub(crate) fn read_node<R: Records>(
    alloc: Global,
    store: &mut R,
    space: &mut R::S,
    id: u64,
) -> Result<Option<BareNode>, RecErr>
    requires id { node_offset ≤ id }
    requires ready { MayLook R.S.Space R.Records store.old space.old }
    ensures read { Gives R.S.Space R.Records result store.old space.old (λ n. IsReadOf id (node_or_none n)) }
    ensures looks { Looks R.S.Space R.Records store.old store.new space.old space.new }
    ensures asks { R.gets store.new ≤ R.gets store.old + 1 }
    ensures cause { OnFault R.S.Space result space.old space.new }
{
    let Some(bytes) = page_bytes(alloc, store, space, id)? else {
        return Ok(None);
    };
    Ok(BareNode::read(bytes))
}
