//! A key with its values.
ghost use Rattle.std.specs.Prelude.{IfOk, slice_get};
ghost use Rattle.tc_base.specs.Lists.{values};
ghost use Rattle.tc_space.specs.Changes.{first_in};
ghost use Rattle.tc_space.specs.Refusals.{Blames};
ghost use Rattle.bt_ways.specs.Items.{item_in};
ghost use Rattle.bt_tree.specs.Finding.{AnswersAt};
ghost use Rattle.bt_tree.specs.Meaning.{AnswersPairs, IsOpen};
ghost use Rattle.bt_tree.specs.Visits.{Asks};

use crate::searching::spot;
use crate::tree::Tree;
use bt_page::Item;
use bt_slots::SlottedLeaf;
use std::alloc::{AllocError, Global};
use tc_base::{Blob, Order, Steps};
use tc_space::{RecErr, Records};

// A copy of the key and its values, if the leaf where it belongs has it.
fn copy_found<O: Order>(
    alloc: Global,
    leaf: &SlottedLeaf,
    key: &[u8],
) -> Result<Option<Item>, AllocError>
    ensures { IfOk result (AnswersAt O.cmp key.now (item_in key.now) leaf.now) }
{
    let (place, hit) = spot::<O>(leaf, key);
    if !hit {
        return Ok(None);
    }
    Ok(Some(leaf.item(alloc, place)?))
}

// A copy of the key's first value, if the leaf where it belongs has the key.
fn copy_first<O: Order>(
    alloc: Global,
    leaf: &SlottedLeaf,
    key: &[u8],
) -> Result<Option<Blob>, AllocError>
    ensures { IfOk result (AnswersAt O.cmp key.now (first_in key.now) leaf.now) }
{
    let (place, hit) = spot::<O>(leaf, key);
    if !hit {
        return Ok(None);
    }
    Ok(Some(Blob::from_slice(alloc, leaf.first_value(place))?))
}

impl<R: Records, O: Order> Tree<R, O> {
    /// A key with all its values, in order of arrival, as a copy; None where it isn't held. It reads at most `height` pages, each of them a step. `Full` doesn't come.
    pub fn find<L>(
        &mut self,
        space: &mut R::S,
        key: &[u8],
        steps: &mut Steps<L>,
    ) -> Result<Option<Item>, RecErr>
        requires { IsOpen R.S.Space R.Records O.Order self.old space.old }
        ensures value { IfOk result (AnswersPairs R.S.Space R.Records O.Order (item_in key.now) self.old space.old) }
        ensures asks { Asks R.S.Space R.Records O.Order self.old.height self.old self.new steps.old steps.new space.old space.new }
        ensures cause { Blames R.S.Space result space.old space.new }
    {
        let leaf = self.leaf_for(space, key, steps)?;
        Ok(copy_found::<O>(self.alloc, &leaf, key)?)
    }

    /// The first value of a key alone, as a copy; None where the key isn't held. It reads what `find` does.
    pub fn first_value<L>(
        &mut self,
        space: &mut R::S,
        key: &[u8],
        steps: &mut Steps<L>,
    ) -> Result<Option<Blob>, RecErr>
        requires { IsOpen R.S.Space R.Records O.Order self.old space.old }
        ensures value { IfOk result (AnswersPairs R.S.Space R.Records O.Order (first_in key.now) self.old space.old) }
        ensures asks { Asks R.S.Space R.Records O.Order self.old.height self.old self.new steps.old steps.new space.old space.new }
        ensures cause { Blames R.S.Space result space.old space.new }
    {
        let leaf = self.leaf_for(space, key, steps)?;
        Ok(copy_first::<O>(self.alloc, &leaf, key)?)
    }

    /// The value of a number among those of a key, counted from 0, as a copy; None where there is none. It reads what `find` does. While the
    /// leaf is held as it is and no other of its keys is asked so, it passes over values that none passed over before, and over 64 others at most.
    pub fn nth_value<L>(
        &mut self,
        space: &mut R::S,
        key: &[u8],
        number: u64,
        steps: &mut Steps<L>,
    ) -> Result<Option<Blob>, RecErr>
        requires { IsOpen R.S.Space R.Records O.Order self.old space.old }
        ensures value { IfOk result (AnswersPairs R.S.Space R.Records O.Order (λ ps. slice_get (values ps key.now) number) self.old space.old) }
        ensures asks { Asks R.S.Space R.Records O.Order self.old.height self.old self.new steps.old steps.new space.old space.new }
        ensures cause { Blames R.S.Space result space.old space.new }
    {
        let id = self.descend(space, key, steps)?;
        let _counted = steps.count();
        let leaf = self.cache.leaf(&mut self.store, space, id, steps)?;
        let (place, hit) = spot::<O>(&leaf, key);
        if !hit {
            return Ok(None);
        }
        Ok(self.cache.nth(id, place, number)?)
    }
}
