//! Pages that are held in more than one place.
ghost use Rattle.std.specs.Prelude.{◌≡◌, IfOk, slice_get};
ghost use Rattle.bt_page.specs.declared.page.Leaf.{Leaf as the_leaf};
ghost use Rattle.bt_rows.specs.declared.page.Page.TheVariants.{Leaf as leaf_page};
ghost use Rattle.bt_slots.specs.Slots.{OfItem};
ghost use Rattle.bt_cache.specs.Shared.{IsLeaf, IsNode, page_of};

use crate::marking::Marks;
use bt_page::{Leaf, Node};
use bt_slots::{SlottedLeaf, SlottedNode};
use std::alloc::{AllocError, Global};
use std::marker::Model;
use std::rc::Rc;
use tc_base::{Blob, Seq};

/// A leaf that the cache holds, with where values of it were found. A contract sees the leaf.
#[derive(Drop)]
pub struct HeldLeaf {
    leaf: Rc<SlottedLeaf>,
    marks: Marks,
}

impl Model for HeldLeaf {
    ghost use Rattle.bt_page.specs.declared.page.Leaf.{Leaf};
    ghost use Rattle.bt_cache.specs.Marks.{AreMarks};

    ghost Value = { Leaf };

    ghost view = { λ h. h.leaf.value };

    ghost invariant = { λ h. AreMarks h.leaf.value h.marks };
}

impl HeldLeaf {
    pub(crate) fn new(alloc: Global, leaf: Rc<SlottedLeaf>) -> HeldLeaf
        ensures { result ≡ leaf.value }
    {
        HeldLeaf {
            leaf,
            marks: Marks::new(alloc),
        }
    }

    // Another handle to it.
    fn share(&self) -> Result<Rc<SlottedLeaf>, AllocError>
        ensures { IfOk result (λ l. l.value ≡ self.now) }
    {
        self.leaf.clone()
    }

    fn into_leaf(self) -> Rc<SlottedLeaf>
        ensures { result.value ≡ self }
    {
        self.leaf
    }

    // The value of a number of the item at a place, as a copy, if it has one.
    fn nth(&mut self, alloc: Global, place: usize, n: u64) -> Result<Option<Blob>, AllocError>
        ensures value { IfOk result (λ v. OfItem (λ x. slice_get x.values n) self.old.items place v) }
        ensures same { self.new ≡ self.old }
    {
        if place >= self.leaf.len() {
            return Ok(None);
        }
        self.marks.value(alloc, &self.leaf, place, n)
    }
}

/// A page that the cache holds and whoever asked for it may hold too.
#[derive(Drop)]
pub enum SharedPage {
    Leaf(HeldLeaf),
    Node(Rc<SlottedNode>),
}

pub(crate) fn empty_leaf(alloc: Global) -> Result<Rc<SlottedLeaf>, AllocError> {
    let leaf = Leaf {
        prev: 0,
        next: 0,
        items: Seq::new(alloc),
    };
    Ok(Rc::new(alloc, SlottedLeaf::of(alloc, &leaf)?)?)
}

pub(crate) fn empty_node(alloc: Global) -> Result<Rc<SlottedNode>, AllocError> {
    let node = Node {
        heir: 0,
        entries: Seq::new(alloc),
    };
    Ok(Rc::new(alloc, SlottedNode::of(alloc, &node)?)?)
}

/// The page that is taken where none stands: an empty leaf or node.
pub(crate) fn empty_page(alloc: Global, is_leaf: bool) -> Result<SharedPage, AllocError> {
    if is_leaf {
        Ok(SharedPage::Leaf(HeldLeaf::new(alloc, empty_leaf(alloc)?)))
    } else {
        Ok(SharedPage::Node(empty_node(alloc)?))
    }
}

impl SharedPage {
    /// The leaf that it is; an empty one where it is none.
    pub(crate) fn leaf(&self, alloc: Global) -> Result<Rc<SlottedLeaf>, AllocError>
        ensures { IfOk result (λ l. IsLeaf (page_of self.now) l.value) }
    {
        match self {
            SharedPage::Leaf(leaf) => leaf.share(),
            SharedPage::Node(_) => empty_leaf(alloc),
        }
    }

    /// The leaf that it is, handed on; an empty one where it is none.
    pub(crate) fn into_leaf(self, alloc: Global) -> Result<Rc<SlottedLeaf>, AllocError>
        ensures { IfOk result (λ l. IsLeaf (page_of self) l.value) }
    {
        match self {
            SharedPage::Leaf(leaf) => Ok(leaf.into_leaf()),
            SharedPage::Node(_) => empty_leaf(alloc),
        }
    }

    /// The node that it is; an empty one where it is none.
    pub(crate) fn node(&self, alloc: Global) -> Result<Rc<SlottedNode>, AllocError>
        ensures { IfOk result (λ n. IsNode (page_of self.now) n.value) }
    {
        match self {
            SharedPage::Node(node) => node.clone(),
            SharedPage::Leaf(_) => empty_node(alloc),
        }
    }

    /// The value of a number of the item at a place of the leaf that it is, as a copy, if there is one.
    pub(crate) fn nth(
        &mut self,
        alloc: Global,
        place: usize,
        n: u64,
    ) -> Result<Option<Blob>, AllocError>
        ensures value { IfOk result (λ v. (l : the_leaf) → page_of self.old ≡ leaf_page l → OfItem (λ x. slice_get x.values n) l.items place v) }
        ensures same { self.new ≡ self.old }
    {
        match self {
            SharedPage::Leaf(leaf) => leaf.nth(alloc, place, n),
            SharedPage::Node(_) => Ok(None),
        }
    }
}
