//! Pages written to a store, and taken out of it.
ghost use Rattle.std.specs.Prelude.{◌≡◌, ◌<◌, ◌≤◌, ◌^◌, [], OnOk};
ghost use Rattle.tc_base.specs.Maps.{Map};
ghost use Rattle.tc_space.specs.Refusals.{OnFault, OnlyLogIsFull};
ghost use Rattle.bt_page.specs.Pages.{leaf_bytes, node_bytes};
ghost use Rattle.bt_rows.specs.Pages.{IsPage};
ghost use Rattle.bt_cache.specs.Effects.{DropsPage, LacksKey, OnFull, PutsPage, RefusesBeside, Stays, rec_of};
ghost use Rattle.bt_cache.specs.Held.{AreSame, IsUsed, IsWithout, ReadyBeside};
ghost use Rattle.bt_cache.specs.Shared.{page_of};

use crate::cache::Cache;
use crate::shared::{HeldLeaf, SharedPage};
use bt_page::page_key;
use bt_slots::{SlottedLeaf, SlottedNode};
use std::rc::Rc;
use tc_base::{Mode, Steps};
use tc_space::{PutErr, RecErr, Records};

// Why a put that keeps nothing was refused: that a key is held is no cause.
fn refusal(e: PutErr) -> RecErr
    ensures { result ≡ rec_of e }
{
    match e {
        PutErr::Exists => RecErr::Memory,
        PutErr::Full => RecErr::Full,
        PutErr::Fault => RecErr::Fault,
        PutErr::Memory => RecErr::Memory,
    }
}

impl<R: Records> Cache<R> {
    // Writes a page whose bytes these are, and brings it to the front. The room in front is found first.
    fn put_page(
        &mut self,
        store: &mut R,
        space: &mut R::S,
        id: u64,
        page: SharedPage,
        bytes: &[u8],
    ) -> Result<(), RecErr>
        requires ready { ReadyBeside R.S.Space R.Records self.old store.old space.old }
        requires page { IsPage id bytes.now (page_of page) }
        ensures put { OnOk result (PutsPage R.S.Space R.Records id bytes.now self.old self.new store.old store.new space.old space.new) }
        ensures list { OnOk result (IsUsed id self.old self.new) }
        ensures refused { RefusesBeside R.S.Space R.Records result self.old self.new store.old store.new space.old space.new }
        ensures full { OnFull result (LacksKey R.S.Space R.Records id bytes.now store.old space.old space.new) }
        ensures stays { Stays R.S.Space R.Records self.old self.new store.old store.new space.old space.new }
        ensures cause { OnFault R.S.Space result space.old space.new }
    {
        self.key.clear();
        page_key(id, &mut self.key)?;
        let _count = self.pages.len();
        let Ok(_) = self.pages.put(id, page) else {
            return Err(RecErr::Memory);
        };
        let mut steps: Steps<R> = Steps::new();
        if let Err(e) = store.put(space, self.key.as_slice(), bytes, Mode::Over, &mut steps) {
            let _back = self.pages.pop(&id);
            return Err(refusal(e));
        }
        Ok(())
    }

    /// Writes a leaf under an id of leaves. It is then the page used last, as behind `leaf`. Where the cache finds no room for it, which is `Memory`, nothing is
    /// written. After a refusal the space isn't sound, or the store is as it was, and the list of pages may be shorter.
    pub fn put_leaf(
        &mut self,
        store: &mut R,
        space: &mut R::S,
        id: u64,
        leaf: SlottedLeaf,
    ) -> Result<(), RecErr>
        requires ready { ReadyBeside R.S.Space R.Records self.old store.old space.old }
        requires id { id < 2 ^ 48 }
        ensures put { OnOk result (PutsPage R.S.Space R.Records id (leaf_bytes leaf) self.old self.new store.old store.new space.old space.new) }
        ensures list { OnOk result (IsUsed id self.old self.new) }
        ensures refused { RefusesBeside R.S.Space R.Records result self.old self.new store.old store.new space.old space.new }
        ensures full { OnFull result (LacksKey R.S.Space R.Records id (leaf_bytes leaf) store.old space.old space.new) }
        ensures stays { Stays R.S.Space R.Records self.old self.new store.old store.new space.old space.new }
        ensures cause { OnFault R.S.Space result space.old space.new }
    {
        let Ok(leaf) = Rc::new(self.alloc, leaf) else {
            return Err(RecErr::Memory);
        };
        let held = leaf.clone()?;
        let page = SharedPage::Leaf(HeldLeaf::new(self.alloc, leaf));
        self.put_page(store, space, id, page, held.as_slice())
    }

    /// Writes a node under an id of nodes, as `put_leaf` writes a leaf.
    pub fn put_node(
        &mut self,
        store: &mut R,
        space: &mut R::S,
        id: u64,
        node: SlottedNode,
    ) -> Result<(), RecErr>
        requires ready { ReadyBeside R.S.Space R.Records self.old store.old space.old }
        requires id { 2 ^ 48 ≤ id }
        ensures put { OnOk result (PutsPage R.S.Space R.Records id (node_bytes node) self.old self.new store.old store.new space.old space.new) }
        ensures list { OnOk result (IsUsed id self.old self.new) }
        ensures refused { RefusesBeside R.S.Space R.Records result self.old self.new store.old store.new space.old space.new }
        ensures full { OnFull result (LacksKey R.S.Space R.Records id (node_bytes node) store.old space.old space.new) }
        ensures stays { Stays R.S.Space R.Records self.old self.new store.old store.new space.old space.new }
        ensures cause { OnFault R.S.Space result space.old space.new }
    {
        let Ok(node) = Rc::new(self.alloc, node) else {
            return Err(RecErr::Memory);
        };
        let held = node.clone()?;
        let page = SharedPage::Node(node);
        self.put_page(store, space, id, page, held.as_slice())
    }

    /// Takes the page of an id out of the store, if it is there, and out of the list. After a refusal the space isn't sound, or nothing has changed.
    pub fn drop_page(&mut self, store: &mut R, space: &mut R::S, id: u64) -> Result<(), RecErr>
        requires { ReadyBeside R.S.Space R.Records self.old store.old space.old }
        ensures out { OnOk result (DropsPage R.S.Space R.Records id self.old self.new store.old store.new space.old space.new) }
        ensures list { OnOk result (IsWithout id self.old self.new) }
        ensures refused { RefusesBeside R.S.Space R.Records result self.old self.new store.old store.new space.old space.new }
        ensures full { OnlyLogIsFull R.S.Space result space.new }
        ensures stays { Stays R.S.Space R.Records self.old self.new store.old store.new space.old space.new }
        ensures cause { OnFault R.S.Space result space.old space.new }
    {
        self.key.clear();
        page_key(id, &mut self.key)?;
        let mut steps: Steps<R> = Steps::new();
        store.out(space, self.key.as_slice(), &mut steps)?;
        let _count = self.pages.len();
        let _page = self.pages.pop(&id);
        Ok(())
    }

    /// Takes all pages out of the list alone.
    pub fn forget_all(&mut self)
        ensures none { self.new.pages.entries ≡ [] }
        ensures room { self.new.pages.cap ≡ self.old.pages.cap }
    {
        self.pages.clear();
    }

    /// Takes the page of an id out of the list alone. Who holds a handle to it may then be the only one, and change the page without copying it.
    pub fn forget(&mut self, id: u64)
        ensures list { IsWithout id self.old self.new }
        ensures room { self.new.pages.cap ≡ self.old.pages.cap }
        ensures same { (m : Map) → AreSame m self.old.pages.entries → AreSame m self.new.pages.entries }
    {
        let _count = self.pages.len();
        let _ = self.pages.pop(&id);
    }
}
