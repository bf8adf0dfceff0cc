//! All pairs taken out of a tree.
ghost use Rattle.std.specs.Prelude.{◌≡◌, [], OnOk};
ghost use Rattle.tc_space.specs.Frames.{Keeps};
ghost use Rattle.tc_space.specs.Refusals.{OnFault};
ghost use Rattle.bt_cache.specs.Effects.{OnFull};
ghost use Rattle.bt_tree.specs.Clearing.{LacksCleared, Strips, StripsFile, bared};
ghost use Rattle.bt_tree.specs.Inserting.{AddsAnew, StaysMade};
ghost use Rattle.bt_tree.specs.Meaning.{Changes, IsOpen, RefusesPairs};
ghost use Rattle.bt_tree.specs.Paging.{IsShown, RefusesPages, StaysStill};
ghost use Rattle.bt_tree.specs.Removing.{AddsNone};

use crate::column::put_column;
use crate::tree::Tree;
use bt_page::Leaf;
use bt_slots::SlottedLeaf;
use tc_base::{Order, PAGE_END, Seq};
use tc_space::{RecErr, Records, Space};

impl<R: Records, O: Order> Tree<R, O> {
    // Takes all records out of the store but `column`, and all pages out of the list. After a refusal the space isn't sound, or nothing has changed.
    fn strip(&mut self, space: &mut R::S) -> Result<(), RecErr>
        requires { IsShown R.S.Space R.Records self.old space.old }
        ensures stripped { OnOk result (Strips R.S.Space R.Records self.old self.new space.old space.new) }
        ensures fills { OnOk result (StripsFile R.S.Space R.Records self.old self.new) }
        ensures refused { RefusesPages R.S.Space R.Records result self.old self.new space.old space.new }
        ensures full { OnFull result (LacksCleared R.S.Space R.Records self.old space.old space.new) }
        ensures still { StaysStill R.S.Space R.Records self.old self.new space.old space.new }
        ensures cause { OnFault R.S.Space result space.old space.new }
    {
        self.store.clear(space)?;
        self.cache.forget_all();
        if let Err(e) = put_column(&mut self.store, space, &self.column) {
            space.spoil();
            return Err(e);
        }
        Ok(())
    }

    /// Takes all pairs out: the first leaf stays, with no keys, as the root, and the record `column`, if there is one. No id is given. After a refusal the space isn't
    /// sound, or nothing has changed. `Full` is the store's, of one of these two records alone, with nothing else in its file.
    pub fn clear_all(&mut self, space: &mut R::S) -> Result<(), RecErr>
        requires { IsOpen R.S.Space R.Records O.Order self.old space.old }
        ensures cleared { OnOk result (Changes R.S.Space R.Records O.Order (λ ps. []) self.old self.new space.old space.new) }
        ensures head { OnOk result (self.new.head ≡ bared self.old.head) }
        ensures ids { AddsNone self.old self.new }
        ensures anew { OnOk result (AddsAnew R.S.Space R.Records O.Order self.old self.new space.old space.new) }
        ensures refused { RefusesPairs R.S.Space R.Records O.Order result self.old self.new space.old space.new }
        ensures full { OnFull result (LacksCleared R.S.Space R.Records self.old space.old space.new) }
        ensures keeps { Keeps R.S.Space space.old space.new }
        ensures stays { StaysMade R.Records self.old self.new }
        ensures cause { OnFault R.S.Space result space.old space.new }
    {
        let id = self.head.first;
        // it doesn't come where the records are told
        if id >= PAGE_END {
            return Err(RecErr::Memory);
        }
        let leaf = Leaf {
            prev: 0,
            next: 0,
            items: Seq::new(self.alloc),
        };
        let leaf = SlottedLeaf::of(self.alloc, &leaf)?;
        self.strip(space)?;
        if let Err(e) = self.cache.put_leaf(&mut self.store, space, id, leaf) {
            space.spoil();
            return Err(e);
        }
        self.head.root = id;
        self.head.last = id;
        self.head.pairs = 0;
        self.height = 1;
        Ok(())
    }
}
