//! A tree that stands in a store, opened.
ghost use Rattle.std.specs.Prelude.{◌≡◌, true, false, IfOk, IfErr, IsErrOf};
ghost use Rattle.tc_space.specs.Frames.{OnlyReads};
ghost use Rattle.tc_space.specs.Refusals.{Blamed};
ghost use Rattle.tc_space.specs.Stores.{ReadyIn};
ghost use Rattle.bt_tree.specs.Opening.{BreaksIn, IsOpened, IsOrdered};

use crate::column::find_column;
use crate::making::ROOM;
use crate::path::Path;
use crate::tree::Tree;
use bt_cache::Cache;
use bt_check::measure_tree;
use bt_rows::TreeHead;
use std::alloc::Global;
use std::marker::PhantomData;
use tc_base::Order;
use tc_space::{OpenErr, Records};

impl<R: Records + Drop, O: Order> Tree<R, O> {
    // The tree that stands in a store; whether the record `column` may stand beside it is told.
    fn open_as(
        alloc: Global,
        store: R,
        space: &mut R::S,
        index: bool,
    ) -> Result<Tree<R, O>, OpenErr>
        requires ready { ReadyIn R.S.Space R.file_of R.holds store space.old }
        requires order { IsOrdered R.Records O.Order store }
        ensures opened { IfOk result (λ t. IsOpened R.S.Space R.Records O.Order index store t space.old space.new) }
        ensures broken { IfErr result (BreaksIn R.S.Space R.Records O.Order index store space.old) }
        ensures reads { OnlyReads R.S.Space space.old space.new }
        ensures cause { Blamed R.S.Space (IsErrOf result OpenErr.Fault) space.old space.new }
    {
        let mut store = store;
        let height = measure_tree::<R, O>(alloc, &mut store, space, index)?;
        let column = find_column(&mut store, space, index)?;
        let cache = Cache::new(alloc, ROOM)?;
        let head = TreeHead::read(&store.opaque());
        Ok(Tree {
            alloc,
            store,
            cache,
            head,
            height,
            column,
            path: Path::new(alloc),
            of: PhantomData,
        })
    }

    /// The tree that stands in a store. Its rules are checked in their order, and `Broken` names the store's file and the first that doesn't hold; `Memory` is also of
    /// the room for pages in memory. The order that the store's region tells is this one, or none. Nothing is written, and each page is read twice at most. After a
    /// refusal the store is gone.
    pub fn open(alloc: Global, store: R, space: &mut R::S) -> Result<Tree<R, O>, OpenErr>
        requires ready { ReadyIn R.S.Space R.file_of R.holds store space.old }
        requires order { IsOrdered R.Records O.Order store }
        ensures opened { IfOk result (λ t. IsOpened R.S.Space R.Records O.Order false store t space.old space.new) }
        ensures broken { IfErr result (BreaksIn R.S.Space R.Records O.Order false store space.old) }
        ensures reads { OnlyReads R.S.Space space.old space.new }
        ensures cause { Blamed R.S.Space (IsErrOf result OpenErr.Fault) space.old space.new }
    {
        Tree::open_as(alloc, store, space, false)
    }

    /// The same of an index file, where the record `column` may stand beside the pages.
    pub fn open_index(alloc: Global, store: R, space: &mut R::S) -> Result<Tree<R, O>, OpenErr>
        requires ready { ReadyIn R.S.Space R.file_of R.holds store space.old }
        requires order { IsOrdered R.Records O.Order store }
        ensures opened { IfOk result (λ t. IsOpened R.S.Space R.Records O.Order true store t space.old space.new) }
        ensures broken { IfErr result (BreaksIn R.S.Space R.Records O.Order true store space.old) }
        ensures reads { OnlyReads R.S.Space space.old space.new }
        ensures cause { Blamed R.S.Space (IsErrOf result OpenErr.Fault) space.old space.new }
    {
        Tree::open_as(alloc, store, space, true)
    }
}
