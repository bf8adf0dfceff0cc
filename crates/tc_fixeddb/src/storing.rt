//! Values given to ids, and taken from them.
#![tactic(auto, using(tc_space::specs::Frames::keeps_refl, tc_space::specs::Frames::keeps_then, tc_space::specs::Stores::ready_reads, crate::proofs::Stored::over_takes, crate::proofs::Stored::new_takes, crate::proofs::Stored::new_fails, crate::proofs::Stored::behind_takes, crate::proofs::Stored::over_full, crate::proofs::Stored::new_full, crate::proofs::Stored::behind_full, crate::proofs::Stored::out_takes, crate::proofs::Stored::clear_takes))]

ghost use Rattle.std.specs.Prelude.{◌≡◌, ◌≤◌, ◌++◌, [], false, take, IfOk, OnOk, IsErrOf, Some, unwrap_or};
ghost use Rattle.std.specs.FinMap.{empty, insert};
ghost use Rattle.tc_space.specs.Frames.{Keeps};
ghost use Rattle.tc_space.specs.Refusals.{OnFault};
ghost use Rattle.tc_model.specs.Maps.{without};
ghost use Rattle.tc_fixed.specs.Cells.{end_of};
ghost use Rattle.tc_fixed.specs.Holding.{SameShape, max_id_of, width_of};
ghost use Rattle.tc_fixeddb.specs.Changing.{LacksFor, LacksWith, ReadyIds, RefusesIds, SpoiledByLog, TakesBy, WritesIds, stored_for};

use crate::reading::value_at;
use std::alloc::{AllocError, Global};
use tc_base::{Blob, Mode};
use tc_fixed::Fixed;
use tc_space::{RecErr, Space};

/// Gives an id a value, cut to the width. After a refusal the space isn't sound, or nothing has changed; with `Full` it isn't.
pub(crate) fn put_cut<S: Space>(
    fixed: &mut Fixed<S>,
    space: &mut S,
    id: u64,
    value: &[u8],
) -> Result<(), RecErr>
    requires ready { ReadyIds S.Space fixed.old space.old }
    requires id { (1 ≤ id) × (id ≤ max_id_of fixed.old) }
    ensures put { OnOk result (WritesIds S.Space (λ m. insert m id (take (width_of fixed.old) value.now)) fixed.old fixed.new space.old space.new) }
    ensures refused { RefusesIds S.Space result fixed.old fixed.new space.old space.new }
    ensures full { IsErrOf result RecErr.Full → (S.flag space.new ≡ false) × (S.tells → LacksWith S.Space (end_of (width_of fixed.old) id) space.new) }
    ensures keeps { Keeps S.Space space.old space.new }
    ensures shape { SameShape fixed.old fixed.new }
    ensures cause { OnFault S.Space result space.old space.new }
{
    let len = (fixed.width() as usize).min(value.len());
    fixed.put(space, id, &value[..len])
}

/// Gives an id a value in place of its old one.
fn store_over<S: Space>(
    fixed: &mut Fixed<S>,
    space: &mut S,
    id: u64,
    value: &[u8],
) -> Result<bool, RecErr>
    requires ready { ReadyIds S.Space fixed.old space.old }
    requires id { (1 ≤ id) × (id ≤ max_id_of fixed.old) }
    ensures takes { TakesBy S.Space result (stored_for fixed.old Mode.Over id value.now) fixed.old fixed.new space.old space.new }
    ensures refused { RefusesIds S.Space result fixed.old fixed.new space.old space.new }
    ensures full { LacksFor S.Space result (stored_for fixed.old Mode.Over id value.now) fixed.old space.old space.new }
    ensures keeps { Keeps S.Space space.old space.new }
    ensures shape { SameShape fixed.old fixed.new }
    ensures cause { OnFault S.Space result space.old space.new }
{
    put_cut(fixed, space, id, value)?;
    Ok(true)
}

/// Gives an id a value that has none.
fn store_new<S: Space>(
    fixed: &mut Fixed<S>,
    space: &mut S,
    id: u64,
    value: &[u8],
) -> Result<bool, RecErr>
    requires ready { ReadyIds S.Space fixed.old space.old }
    requires id { (1 ≤ id) × (id ≤ max_id_of fixed.old) }
    ensures takes { TakesBy S.Space result (stored_for fixed.old Mode.Keep id value.now) fixed.old fixed.new space.old space.new }
    ensures refused { RefusesIds S.Space result fixed.old fixed.new space.old space.new }
    ensures full { LacksFor S.Space result (stored_for fixed.old Mode.Keep id value.now) fixed.old space.old space.new }
    ensures keeps { Keeps S.Space space.old space.new }
    ensures shape { SameShape fixed.old fixed.new }
    ensures cause { OnFault S.Space result space.old space.new }
{
    if fixed.value_len(space, id)?.is_some() {
        return Ok(false);
    }
    put_cut(fixed, space, id, value)?;
    Ok(true)
}

/// Bytes behind those that were there.
fn joined(old: Option<Blob>, more: Blob) -> Result<Blob, AllocError>
    ensures { IfOk result (λ b. b ≡ unwrap_or old [] ++ more) }
{
    let Some(mut value) = old else {
        return Ok(more);
    };
    value.append(more.as_slice())?;
    Ok(value)
}

/// Joins bytes behind the value of an id.
fn store_behind<S: Space>(
    alloc: Global,
    fixed: &mut Fixed<S>,
    space: &mut S,
    id: u64,
    value: Blob,
) -> Result<bool, RecErr>
    requires ready { ReadyIds S.Space fixed.old space.old }
    requires id { (1 ≤ id) × (id ≤ max_id_of fixed.old) }
    ensures takes { TakesBy S.Space result (stored_for fixed.old Mode.Cat id value) fixed.old fixed.new space.old space.new }
    ensures refused { RefusesIds S.Space result fixed.old fixed.new space.old space.new }
    ensures full { LacksFor S.Space result (stored_for fixed.old Mode.Cat id value) fixed.old space.old space.new }
    ensures keeps { Keeps S.Space space.old space.new }
    ensures shape { SameShape fixed.old fixed.new }
    ensures cause { OnFault S.Space result space.old space.new }
{
    let old = value_at(alloc, fixed, space, id)?;
    let value = joined(old, value)?;
    put_cut(fixed, space, id, value.as_slice())?;
    Ok(true)
}

/// Gives an id a value as a mode says, and answers whether it did.
pub(crate) fn store_at<S: Space>(
    alloc: Global,
    fixed: &mut Fixed<S>,
    space: &mut S,
    mode: Mode,
    id: u64,
    value: Blob,
) -> Result<bool, RecErr>
    requires ready { ReadyIds S.Space fixed.old space.old }
    requires id { (1 ≤ id) × (id ≤ max_id_of fixed.old) }
    ensures takes { TakesBy S.Space result (stored_for fixed.old mode id value) fixed.old fixed.new space.old space.new }
    ensures refused { RefusesIds S.Space result fixed.old fixed.new space.old space.new }
    ensures full { LacksFor S.Space result (stored_for fixed.old mode id value) fixed.old space.old space.new }
    ensures keeps { Keeps S.Space space.old space.new }
    ensures shape { SameShape fixed.old fixed.new }
    ensures cause { OnFault S.Space result space.old space.new }
{
    match mode {
        Mode::Over => store_over(fixed, space, id, value.as_slice()),
        Mode::Keep => store_new(fixed, space, id, value.as_slice()),
        Mode::Cat => store_behind(alloc, fixed, space, id, value),
    }
}

/// Takes an id out, and says whether it was held.
pub(crate) fn out_at<S: Space>(fixed: &mut Fixed<S>, space: &mut S, id: u64) -> Result<bool, RecErr>
    requires ready { ReadyIds S.Space fixed.old space.old }
    ensures takes { TakesBy S.Space result (λ m. without m id) fixed.old fixed.new space.old space.new }
    ensures refused { RefusesIds S.Space result fixed.old fixed.new space.old space.new }
    ensures full { IsErrOf result RecErr.Full → SpoiledByLog S.Space space.new }
    ensures keeps { Keeps S.Space space.old space.new }
    ensures shape { SameShape fixed.old fixed.new }
    ensures cause { OnFault S.Space result space.old space.new }
{
    fixed.out(space, id)
}

/// Takes all ids out.
pub(crate) fn clear<S: Space>(fixed: &mut Fixed<S>, space: &mut S) -> Result<bool, RecErr>
    requires ready { ReadyIds S.Space fixed.old space.old }
    ensures takes { TakesBy S.Space result (λ m. Some empty) fixed.old fixed.new space.old space.new }
    ensures refused { RefusesIds S.Space result fixed.old fixed.new space.old space.new }
    ensures full { IsErrOf result RecErr.Full → SpoiledByLog S.Space space.new }
    ensures keeps { Keeps S.Space space.old space.new }
    ensures shape { SameShape fixed.old fixed.new }
    ensures cause { OnFault S.Space result space.old space.new }
{
    fixed.clear(space)?;
    Ok(true)
}
