//! A tree made anew.
ghost use Rattle.std.specs.Prelude.{◌≡◌, IfOk, OnErr};
ghost use Rattle.tc_space.specs.Frames.{Keeps};
ghost use Rattle.tc_space.specs.Refusals.{OnFault};
ghost use Rattle.tc_space.specs.Stores.{ReadyIn};
ghost use Rattle.bt_cache.specs.Effects.{OnFull};
ghost use Rattle.bt_tree.specs.Making.{HoldsBare, IsNew, IsRefused, LacksFirst, MayBe};
ghost use Rattle.bt_tree.specs.Numbers.{lone_head};

use crate::column::read_column;
use crate::path::Path;
use crate::tree::Tree;
use bt_cache::Cache;
use bt_page::Leaf;
use bt_rows::TreeHead;
use bt_slots::SlottedLeaf;
use std::alloc::Global;
use std::marker::PhantomData;
use tc_base::{Order, Seq};
use tc_space::{RecErr, Records};

/// How many pages a tree holds in memory.
pub const ROOM: usize = 64;

// The numbers of a tree of one leaf with no keys.
fn new_head(order: u8, leaf_limit: u32, node_limit: u32) -> TreeHead
    ensures { result ≡ lone_head order leaf_limit node_limit }
{
    TreeHead {
        order,
        leaf_limit,
        node_limit,
        root: 1,
        first: 1,
        last: 1,
        leaf_ids: 1,
        node_ids: 0,
        pairs: 0,
    }
}

impl<R: Records + Drop, O: Order> Tree<R, O> {
    /// A tree of no pairs in a store that holds nothing, or the record `column` alone, which makes it an index file's: one leaf is written. Both limits are from 4 to 256.
    /// After a refusal the store is gone, and the space isn't sound or nothing is written. The header's numbers come with `settle`.
    pub fn create(
        alloc: Global,
        store: R,
        space: &mut R::S,
        leaf_limit: u32,
        node_limit: u32,
    ) -> Result<Tree<R, O>, RecErr>
        requires ready { ReadyIn R.S.Space R.file_of R.holds store space.old }
        requires bare { HoldsBare R.S.Space R.Records store space.old }
        requires numbers { MayBe leaf_limit node_limit O.CODE }
        ensures made { IfOk result (λ t. IsNew R.S.Space R.Records O.Order store leaf_limit node_limit t space.old space.new) }
        ensures refused { OnErr result (IsRefused R.S.Space space.old space.new) }
        ensures full { OnFull result (LacksFirst R.S.Space R.Records store space.old space.new) }
        ensures keeps { Keeps R.S.Space space.old space.new }
        ensures cause { OnFault R.S.Space result space.old space.new }
    {
        let mut store = store;
        let column = read_column(&mut store, space)?;
        let mut cache = Cache::new(alloc, ROOM)?;
        let leaf = Leaf {
            prev: 0,
            next: 0,
            items: Seq::new(alloc),
        };
        let leaf = SlottedLeaf::of(alloc, &leaf)?;
        cache.put_leaf(&mut store, space, 1, leaf)?;
        Ok(Tree {
            alloc,
            store,
            cache,
            head: new_head(O::CODE, leaf_limit, node_limit),
            height: 1,
            column,
            path: Path::new(alloc),
            of: PhantomData,
        })
    }
}
