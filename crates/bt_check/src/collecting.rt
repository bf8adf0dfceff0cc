//! The pages of a store, by its keys.
ghost use Rattle.std.specs.Prelude.{◌≡◌, ◌≤◌, ◌+◌, ◌↔◌, length, IfOk, IfSome, IsTrue, OnOk};
ghost use Rattle.std.specs.BTreeSet.{btree_set_len};
ghost use Rattle.tc_space.specs.Refusals.{OnFault};
ghost use Rattle.bt_page.specs.Limits.{NodeWithin};
ghost use Rattle.bt_rows.specs.Rules.{B1, LeafLimits};
ghost use Rattle.bt_check.specs.Collected.{IsFoundAt, IsJudged, IsNoted};
ghost use Rattle.bt_check.specs.Looks.{Gives, Looks, MayLook};
ghost use Rattle.bt_check.specs.Verdicts.{GathersAll};

use crate::ids::add;
use crate::pages::{find, given_id};
use bt_page::LEAF_MOST;
use bt_rows::TreeHead;
use bt_slots::{BareLeaf, BareNode};
use std::alloc::{AllocError, Global};
use std::collections::BTreeSet;
use tc_base::{Blob, Blobs, PAGE_END};
use tc_space::{RecErr, Records};

/// What a key is.
#[derive(Clone, Copy)]
pub(crate) enum Found {
    /// A page's, which is within the limits or not.
    Page(u64, bool),
    /// `column`, where it may be.
    Column,
    Nothing,
}

/// The ids of all pages, and whether all are within the limits.
#[derive(Drop)]
pub(crate) struct Collected {
    pub ids: BTreeSet<u64>,
    pub within: bool,
}

impl Collected {
    // Adds what a key is, and answers whether it may be.
    fn note(&mut self, found: Found) -> Result<bool, AllocError>
        ensures noted { IfOk result (λ b. IsNoted found b self.old self.new) }
        ensures few { OnOk result (btree_set_len self.new.ids ≤ btree_set_len self.old.ids + 1) }
    {
        match found {
            Found::Page(id, within) => {
                add(&mut self.ids, id)?;
                self.within = self.within && within;
                Ok(true)
            }
            Found::Column => Ok(true),
            Found::Nothing => Ok(false),
        }
    }
}

// Whether a leaf is within the limits.
fn leaf_within(head: &TreeHead, id: u64, leaf: &BareLeaf) -> bool
    ensures { IsTrue result ↔ LeafLimits head.now id leaf.now }
{
    let keys = leaf.len();
    if keys > head.leaf_limit as usize {
        return false;
    }
    if keys == 0 {
        return id == head.root;
    }
    if keys == 1 {
        return true;
    }
    leaf.items().len() <= LEAF_MOST
}

// Whether a node is within the limits.
fn node_within(head: &TreeHead, node: &BareNode) -> bool
    ensures { IsTrue result ↔ NodeWithin head.now.node_limit node.now }
{
    node.len() <= head.node_limit as usize
}

// Whether bytes are a page that is within the limits or not; None where they are none.
fn judge(head: &TreeHead, id: u64, bytes: Blob) -> Option<bool>
    ensures { IsJudged head.now id bytes result }
{
    if id < PAGE_END {
        let Some(leaf) = BareLeaf::read(bytes) else {
            return None;
        };
        return Some(leaf_within(head, id, &leaf));
    }
    let Some(node) = BareNode::read(bytes) else {
        return None;
    };
    Some(node_within(head, &node))
}

// What a key that is held is.
fn look<R: Records>(
    store: &mut R,
    space: &mut R::S,
    head: &TreeHead,
    index: bool,
    key: &[u8],
) -> Result<Found, RecErr>
    requires head { B1 head.now }
    requires ready { MayLook R.S.Space R.Records store.old space.old }
    ensures found { Gives R.S.Space R.Records result store.old space.old (IsFoundAt head.now index key.now) }
    ensures looks { Looks R.S.Space R.Records store.old store.new space.old space.new }
    ensures asks { R.gets store.new ≤ R.gets store.old + 1 }
    ensures cause { OnFault R.S.Space result space.old space.new }
{
    let Some(id) = given_id(head, key) else {
        return Ok(if index && key == b"column".as_slice() {
            Found::Column
        } else {
            Found::Nothing
        });
    };
    let Some(bytes) = find(store, space, key)? else {
        return Ok(Found::Nothing);
    };
    let Some(within) = judge(head, id, bytes) else {
        return Ok(Found::Nothing);
    };
    Ok(Found::Page(id, within))
}

/// The pages of a store with these keys, where it holds pages alone, and `column` in an index file.
pub(crate) fn collect<R: Records>(
    alloc: Global,
    store: &mut R,
    space: &mut R::S,
    head: &TreeHead,
    index: bool,
    keys: &Blobs,
) -> Result<Option<Collected>, RecErr>
    requires head { B1 head.now }
    requires ready { MayLook R.S.Space R.Records store.old space.old }
    ensures some { Gives R.S.Space R.Records result store.old space.old (GathersAll head.now index keys.now) }
    ensures looks { Looks R.S.Space R.Records store.old store.new space.old space.new }
    ensures few { IfOk result (λ o. IfSome o (λ c. btree_set_len c.ids ≤ length keys.now)) }
    ensures asks { R.gets store.new ≤ R.gets store.old + length keys.now }
    ensures cause { OnFault R.S.Space result space.old space.new }
{
    let mut collected = Collected {
        ids: BTreeSet::new(alloc),
        within: true,
    };
    for key in keys.as_slice() {
        let found = look(store, space, head, index, key.as_slice())?;
        if !collected.note(found)? {
            return Ok(None);
        }
    }
    Ok(Some(collected))
}
