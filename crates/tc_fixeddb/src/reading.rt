//! What is read of a fixed-length database.
#![tactic(auto, using(tc_space::specs::Frames::keeps_refl, tc_space::specs::Frames::reads_refl, crate::specs::Lifting::ready_down, crate::specs::Lifting::reads_up))]

ghost use Rattle.std.specs.Prelude.{◌≡◌, map, IfOk, OnOk};
ghost use Rattle.std.specs.FinMap.{get};
ghost use Rattle.tc_space.specs.Frames.{Keeps, Reads};
ghost use Rattle.tc_space.specs.Refusals.{Blames};
ghost use Rattle.tc_model.specs.Apply.{keys_from};
ghost use Rattle.tc_model.specs.Arrays.{Array};
ghost use Rattle.tc_model.specs.Stores.{all_keys};
ghost use Rattle.ty_base.specs.Holding.{FindsHeld, IsReady, ReadsHeld, OfHeld};
ghost use Rattle.tc_engine.specs.Changes.{first_of};
ghost use Rattle.tc_engine.specs.Rows.{Adds, Extends, item_row};
ghost use Rattle.tc_fixed.specs.Holding.{Means, SameShape};
ghost use Rattle.tc_fixeddb.specs.Changing.{ReadyIds};
ghost use Rattle.tc_fixeddb.specs.Holding.{HoldsIds, IsFound, decimals};

use crate::holding::FixedEngine;
use crate::numbers::id_spelled;
use crate::prefixes::ids_beginning;
use crate::texts::{add_id, id_key};
use std::alloc::{AllocError, Global};
use tc_base::{Blob, Keys};
use tc_engine::Rows;
use tc_fixed::Fixed;
use tc_space::{RecErr, Space};

// Ids as keys.
fn id_keys(alloc: Global, ids: &[u64]) -> Result<Keys, AllocError>
    ensures { IfOk result (λ keys. keys ≡ decimals ids.now) }
{
    let mut keys = Keys::new(alloc);
    for id in ids {
        keys.push(id_key(alloc, *id)?)?;
    }
    Ok(keys)
}

/// Adds ids as rows.
pub(crate) fn add_ids(ids: &[u64], rows: &mut Rows) -> Result<(), AllocError>
    ensures rows { OnOk result (Adds rows.old rows.new (map item_row (decimals ids.now))) }
    ensures front { Extends rows.old rows.new }
{
    for id in ids {
        add_id(*id, rows)?;
    }
    Ok(())
}

/// The value of an id.
pub(crate) fn value_at<S: Space>(
    alloc: Global,
    fixed: &mut Fixed<S>,
    space: &mut S,
    id: u64,
) -> Result<Option<Blob>, RecErr>
    requires { ReadyIds S.Space fixed.old space.old }
    ensures value { IfOk result (λ found. (m : Array) → Means S.Space fixed.old space.old m → found ≡ get m id) }
    ensures reads { Reads S.Space (Means S.Space) fixed.old fixed.new space.old space.new }
    ensures keeps { Keeps S.Space space.old space.new }
    ensures shape { SameShape fixed.old fixed.new }
    ensures cause { Blames S.Space result space.old space.new }
{
    let mut bytes = Vec::new(alloc);
    bytes.resize(fixed.width() as usize, 0)?;
    let Some(long) = fixed.get(space, id, &mut bytes)? else {
        return Ok(None);
    };
    bytes.truncate(long);
    Ok(Some(Blob::from_vec(bytes)))
}

impl<S: Space> FixedEngine<S> {
    /// The id that a key names and its value, where it is held.
    pub(crate) fn find(&mut self, space: &mut S, key: &[u8]) -> Result<Option<(u64, Blob)>, RecErr>
        requires { IsReady S.Space HoldsIds self.old space.old }
        ensures found { IfOk result (λ found. OfHeld S.Space HoldsIds self.old space.old (λ c. IsFound c key.now found)) }
        ensures reads { ReadsHeld S.Space HoldsIds self.old self.new space.old space.new }
        ensures keeps { Keeps S.Space space.old space.new }
        ensures cause { Blames S.Space result space.old space.new }
    {
        let Some(id) = self.id_of(key) else {
            return Ok(None);
        };
        let Some(value) = value_at(self.alloc, &mut self.fixed, space, id)? else {
            return Ok(None);
        };
        Ok(Some((id, value)))
    }

    // The ids held, in order, at most so many.
    fn ids(&mut self, space: &mut S, most: Option<u64>) -> Result<Vec<u64>, RecErr>
        requires { IsReady S.Space HoldsIds self.old space.old }
        ensures value { IfOk result (λ found. OfHeld S.Space HoldsIds self.old space.old (λ c. decimals found.items ≡ first_of most (all_keys c))) }
        ensures reads { ReadsHeld S.Space HoldsIds self.old self.new space.old space.new }
        ensures keeps { Keeps S.Space space.old space.new }
        ensures cause { Blames S.Space result space.old space.new }
    {
        let mut ids = Vec::new(self.alloc);
        self.fixed.ids_in(space, 0, u64::MAX, most, &mut ids)?;
        Ok(ids)
    }

    /// The ids held as keys, in order.
    pub(crate) fn id_texts(&mut self, space: &mut S) -> Result<Keys, RecErr>
        requires { IsReady S.Space HoldsIds self.old space.old }
        ensures value { FindsHeld S.Space HoldsIds result all_keys self.old space.old }
        ensures reads { ReadsHeld S.Space HoldsIds self.old self.new space.old space.new }
        ensures keeps { Keeps S.Space space.old space.new }
        ensures cause { Blames S.Space result space.old space.new }
    {
        let ids = self.ids(space, None)?;
        Ok(id_keys(self.alloc, &ids)?)
    }

    /// The ids whose texts begin with a prefix, in order, at most so many. Only cells of such ids are read.
    pub(crate) fn list_from(
        &mut self,
        space: &mut S,
        prefix: &[u8],
        most: Option<u64>,
    ) -> Result<Vec<u64>, RecErr>
        requires { IsReady S.Space HoldsIds self.old space.old }
        ensures value { IfOk result (λ found. OfHeld S.Space HoldsIds self.old space.old (λ c. decimals found.items ≡ first_of most (keys_from c prefix.now))) }
        ensures reads { ReadsHeld S.Space HoldsIds self.old self.new space.old space.new }
        ensures keeps { Keeps S.Space space.old space.new }
        ensures cause { Blames S.Space result space.old space.new }
    {
        if prefix.is_empty() {
            return self.ids(space, most);
        }
        match id_spelled(prefix) {
            Some(n) => ids_beginning(self.alloc, &mut self.fixed, space, n, most),
            None => Ok(Vec::new(self.alloc)),
        }
    }
}
