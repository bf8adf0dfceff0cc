//! Pages by their ids.
ghost use Rattle.std.specs.Prelude.{◌≡◌, ◌≤◌, [], IfOk, OnOk, slice_get};
ghost use Rattle.tc_space.specs.Refusals.{Blames};
ghost use Rattle.bt_page.specs.declared.page.Leaf.{Leaf as the_leaf};
ghost use Rattle.bt_rows.specs.declared.page.Page.TheVariants.{Leaf as leaf_page, Node as node_page};
ghost use Rattle.bt_slots.specs.Slots.{OfItem};
ghost use Rattle.bt_cache.specs.Effects.{CountsOne, CountsPage, Looks};
ghost use Rattle.bt_cache.specs.Held.{HoldsLeaf, IsFirst, IsThere, IsUsed, IsWithout, ReadsAs, ReadyBeside};
ghost use Rattle.bt_cache.specs.Shared.{IsAny, IsSomeLeaf, IsSomeNode, page_of};

use crate::reading::read_page;
use crate::shared::{SharedPage, empty_leaf, empty_node};
use bt_slots::{SlottedLeaf, SlottedNode};
use lru::LruCache;
use std::alloc::{AllocError, Global};
use std::marker::PhantomData;
use std::num::NonZeroUsize;
use std::rc::Rc;
use tc_base::{Blob, Steps};
use tc_space::{RecErr, Records};

/// The pages of a store that were used last, each as the store has it.
#[derive(Drop)]
pub struct Cache<R> {
    pub(crate) alloc: Global,
    pub(crate) pages: LruCache<u64, SharedPage>,
    /// Room for the key of a page.
    pub(crate) key: Blob,
    of: PhantomData<R>,
}

impl<R: Records> Cache<R> {
    /// A cache of no pages, with room for so many, at least 1.
    pub fn new(alloc: Global, room: usize) -> Result<Cache<R>, AllocError>
        requires { 1 ≤ room }
        ensures none { IfOk result (λ c. c.pages.entries ≡ []) }
        ensures room { IfOk result (λ c. c.pages.cap ≡ room) }
    {
        let Some(room) = NonZeroUsize::new(room) else {
            return Err(AllocError);
        };
        Ok(Cache {
            alloc,
            pages: LruCache::new(alloc, room)?,
            key: Blob::new(alloc),
            of: PhantomData,
        })
    }

    // Brings the page of an id to the front.
    fn bring<L>(
        &mut self,
        store: &mut R,
        space: &mut R::S,
        id: u64,
        steps: &mut Steps<L>,
    ) -> Result<(), RecErr>
        requires ready { ReadyBeside R.S.Space R.Records self.old store.old space.old }
        requires there { IsThere R.S.Space R.Records IsAny id self.old store.old space.old }
        ensures list { OnOk result (IsUsed id self.old self.new) }
        ensures front { OnOk result (IsFirst id self.new) }
        ensures looks { Looks R.S.Space R.Records self.old self.new store.old store.new space.old space.new }
        ensures counts { CountsPage R.Records id self.old store.old store.new steps.old steps.new }
        ensures asked { OnOk result (CountsOne id self.old (R.gets store.old) (R.gets store.new)) }
        ensures cause { Blames R.S.Space result space.old space.new }
    {
        let _count = self.pages.len();
        if self.pages.promote(&id) {
            return Ok(());
        }
        steps.tick();
        let page = read_page(self.alloc, store, space, id)?;
        let Ok(_) = self.pages.put(id, page) else {
            return Err(RecErr::Memory);
        };
        Ok(())
    }

    /// The leaf of an id, which the store has to have where it tells its records. A leaf that is held is handed out as it is, with no step; for another the store is asked, which
    /// counts one step. It is then the page used last; where it is new and there is no room, the page used first is gone. `Full` doesn't come.
    pub fn leaf<L>(
        &mut self,
        store: &mut R,
        space: &mut R::S,
        id: u64,
        steps: &mut Steps<L>,
    ) -> Result<Rc<SlottedLeaf>, RecErr>
        requires ready { ReadyBeside R.S.Space R.Records self.old store.old space.old }
        requires there { IsThere R.S.Space R.Records IsSomeLeaf id self.old store.old space.old }
        ensures leaf { IfOk result (λ found. ReadsAs R.S.Space R.Records leaf_page id self.old store.old space.old found.value) }
        ensures list { OnOk result (IsUsed id self.old self.new) }
        ensures front { OnOk result (IsFirst id self.new) }
        ensures looks { Looks R.S.Space R.Records self.old self.new store.old store.new space.old space.new }
        ensures counts { CountsPage R.Records id self.old store.old store.new steps.old steps.new }
        ensures asked { OnOk result (CountsOne id self.old (R.gets store.old) (R.gets store.new)) }
        ensures cause { Blames R.S.Space result space.old space.new }
    {
        self.bring(store, space, id, steps)?;
        let Some((_, page)) = self.pages.peek_mru() else {
            return Ok(empty_leaf(self.alloc)?);
        };
        Ok(page.leaf(self.alloc)?)
    }

    /// The value of a number of the item at a place in the leaf of an id, as a copy; None where it has none, or where the leaf isn't held. The leaf as it is held has marks of one item, the
    /// one of which a value was asked for last: of the value that was given last, and of every 64th as far as values were passed over. The values behind the nearest mark are passed over.
    pub fn nth(&mut self, id: u64, place: usize, n: u64) -> Result<Option<Blob>, AllocError>
        ensures value { IfOk result (λ v. (l : the_leaf) → HoldsLeaf id l self.old.pages → OfItem (λ x. slice_get x.values n) l.items place v) }
        ensures same { self.new ≡ self.old }
    {
        let alloc = self.alloc;
        let Some(page) = self.pages.peek_mut(&id) else {
            return Ok(None);
        };
        page.nth(alloc, place, n)
    }

    // The page of an id, which isn't among those that are held then.
    fn take<L>(
        &mut self,
        store: &mut R,
        space: &mut R::S,
        id: u64,
        steps: &mut Steps<L>,
    ) -> Result<SharedPage, RecErr>
        requires { ReadyBeside R.S.Space R.Records self.old store.old space.old }
        ensures page { IfOk result (λ s. ReadsAs R.S.Space R.Records (λ p. p) id self.old store.old space.old (page_of s)) }
        ensures list { IsWithout id self.old self.new }
        ensures looks { Looks R.S.Space R.Records self.old self.new store.old store.new space.old space.new }
        ensures counts { CountsPage R.Records id self.old store.old store.new steps.old steps.new }
        ensures asked { OnOk result (CountsOne id self.old (R.gets store.old) (R.gets store.new)) }
        ensures cause { Blames R.S.Space result space.old space.new }
    {
        let _count = self.pages.len();
        if let Some(page) = self.pages.pop(&id) {
            return Ok(page);
        }
        steps.tick();
        read_page(self.alloc, store, space, id)
    }

    /// The leaf of an id, as `leaf` gives it, taken out of the list: it isn't held then, and who gets it may be the only one that has it, and change it without copying it.
    pub fn take_leaf<L>(
        &mut self,
        store: &mut R,
        space: &mut R::S,
        id: u64,
        steps: &mut Steps<L>,
    ) -> Result<Rc<SlottedLeaf>, RecErr>
        requires { ReadyBeside R.S.Space R.Records self.old store.old space.old }
        ensures leaf { IfOk result (λ found. ReadsAs R.S.Space R.Records leaf_page id self.old store.old space.old found.value) }
        ensures list { IsWithout id self.old self.new }
        ensures looks { Looks R.S.Space R.Records self.old self.new store.old store.new space.old space.new }
        ensures counts { CountsPage R.Records id self.old store.old store.new steps.old steps.new }
        ensures asked { OnOk result (CountsOne id self.old (R.gets store.old) (R.gets store.new)) }
        ensures cause { Blames R.S.Space result space.old space.new }
    {
        let page = self.take(store, space, id, steps)?;
        Ok(page.into_leaf(self.alloc)?)
    }

    /// The node of an id, as `leaf` gives a leaf.
    pub fn node<L>(
        &mut self,
        store: &mut R,
        space: &mut R::S,
        id: u64,
        steps: &mut Steps<L>,
    ) -> Result<Rc<SlottedNode>, RecErr>
        requires ready { ReadyBeside R.S.Space R.Records self.old store.old space.old }
        requires there { IsThere R.S.Space R.Records IsSomeNode id self.old store.old space.old }
        ensures node { IfOk result (λ found. ReadsAs R.S.Space R.Records node_page id self.old store.old space.old found.value) }
        ensures list { OnOk result (IsUsed id self.old self.new) }
        ensures looks { Looks R.S.Space R.Records self.old self.new store.old store.new space.old space.new }
        ensures counts { CountsPage R.Records id self.old store.old store.new steps.old steps.new }
        ensures asked { OnOk result (CountsOne id self.old (R.gets store.old) (R.gets store.new)) }
        ensures cause { Blames R.S.Space result space.old space.new }
    {
        self.bring(store, space, id, steps)?;
        let Some((_, page)) = self.pages.peek_mru() else {
            return Ok(empty_node(self.alloc)?);
        };
        Ok(page.node(self.alloc)?)
    }
}
