//! An index of a column over a tree.
ghost use Rattle.std.specs.Prelude.{◌≡◌, [], OnOk, OnErr, IsErrOf, false};
ghost use Rattle.tc_space.specs.Frames.{In, Keeps, Refuses};
ghost use Rattle.tc_space.specs.Lists.{FullFrom, StaysList};
ghost use Rattle.tc_space.specs.Refusals.{OnFault};
ghost use Rattle.tc_space.specs.Stores.{IsReady, WritesIn};
ghost use Rattle.tc_space.specs.Changes.{first_out, put_last};
ghost use Rattle.td_index.specs.Entries.{AreWhole, FullOuts, FullPuts, FullTurns, Gains, GainsAll, GainsSome, Loses, LosesAll, LosesSome, StopsIn, Turns, TurnsPartly, entry, has_zero};

use crate::entries::entry_of;
use std::alloc::Global;
use tc_base::Blob;
use tc_space::{Multi, RecErr};

/// The parts of a column's values with the primary keys of their rows, in the order of a tree.
#[derive(Drop)]
pub struct Index<M> {
    pub alloc: Global,
    pub tree: M,
    pub name: Blob,
}

/// Adds the tree key of a part and a primary key, with an empty value.
pub fn put_entry<M: Multi>(
    alloc: Global,
    tree: &mut M,
    space: &mut M::S,
    part: &[u8],
    key: &[u8],
) -> Result<(), RecErr>
    requires ready { IsReady M.S.Space (In M.S.Space M.file_of M.holds) tree.old space.old }
    requires whole { has_zero part.now ≡ false }
    ensures put { OnOk result (Gains M.S.Space M.Multi part.now key.now tree.old tree.new space.old space.new) }
    ensures wrote { OnOk result (WritesIn M.S.Space M.file_of M.holds (put_last M.O.cmp (entry part.now key.now) []) tree.old tree.new space.old space.new) }
    ensures ready { OnOk result (IsReady M.S.Space (In M.S.Space M.file_of M.holds) tree.new space.new) }
    ensures refused { OnErr result (Refuses M.S.Space (In M.S.Space M.file_of M.holds) tree.old tree.new space.old space.new) }
    ensures full { IsErrOf result RecErr.Full → FullFrom (In M.S.Space M.file_of M.holds) M.fills (put_last M.O.cmp (entry part.now key.now) []) tree.old space.old space.new }
    ensures keeps { Keeps M.S.Space space.old space.new }
    ensures stays { StaysList M.file_of M.made M.lead tree.old tree.new }
    ensures cause { OnFault M.S.Space result space.old space.new }
{
    let entry = entry_of(alloc, part, key)?;
    tree.putdup(space, entry.as_slice(), &[])?;
    Ok(())
}

/// Takes the tree key of a part and a primary key out, where it is held.
pub fn out_entry<M: Multi>(
    alloc: Global,
    tree: &mut M,
    space: &mut M::S,
    part: &[u8],
    key: &[u8],
) -> Result<(), RecErr>
    requires ready { IsReady M.S.Space (In M.S.Space M.file_of M.holds) tree.old space.old }
    requires whole { has_zero part.now ≡ false }
    ensures out { OnOk result (Loses M.S.Space M.Multi part.now key.now tree.old tree.new space.old space.new) }
    ensures ready { OnOk result (IsReady M.S.Space (In M.S.Space M.file_of M.holds) tree.new space.new) }
    ensures refused { OnErr result (Refuses M.S.Space (In M.S.Space M.file_of M.holds) tree.old tree.new space.old space.new) }
    ensures full { IsErrOf result RecErr.Full → FullFrom (In M.S.Space M.file_of M.holds) M.fills (first_out M.O.cmp (entry part.now key.now)) tree.old space.old space.new }
    ensures keeps { Keeps M.S.Space space.old space.new }
    ensures stays { StaysList M.file_of M.made M.lead tree.old tree.new }
    ensures cause { OnFault M.S.Space result space.old space.new }
{
    let entry = entry_of(alloc, part, key)?;
    tree.out(space, entry.as_slice())?;
    Ok(())
}

/// Adds the tree keys of parts and a primary key. After a refusal those of the first parts may be there.
#[tactic(auto, using(tc_space::specs::Frames::keeps_refl, tc_space::specs::Frames::keeps_then, crate::proofs::Listed::stays_refl, crate::proofs::Listed::stays_then))]
pub fn put_entries<M: Multi>(
    alloc: Global,
    tree: &mut M,
    space: &mut M::S,
    parts: &[Blob],
    key: &[u8],
) -> Result<(), RecErr>
    requires ready { IsReady M.S.Space (In M.S.Space M.file_of M.holds) tree.old space.old }
    requires whole { AreWhole parts.now }
    ensures put { OnOk result (GainsAll M.S.Space M.Multi parts.now key.now tree.old tree.new space.old space.new) }
    ensures ready { OnOk result (IsReady M.S.Space (In M.S.Space M.file_of M.holds) tree.new space.new) }
    ensures refused { OnErr result (StopsIn M.S.Space space.new (GainsSome M.S.Space M.Multi parts.now key.now tree.old tree.new space.old space.new)) }
    ensures full { IsErrOf result RecErr.Full → FullPuts M.S.Space M.Multi M.O.cmp parts.now key.now tree.old space.old space.new }
    ensures keeps { Keeps M.S.Space space.old space.new }
    ensures stays { StaysList M.file_of M.made M.lead tree.old tree.new }
    ensures cause { OnFault M.S.Space result space.old space.new }
{
    for i in 0..parts.len() {
        put_entry(alloc, tree, space, parts[i].as_slice(), key)?;
    }
    Ok(())
}

/// Takes the tree keys of parts and a primary key out, each where it is held. After a refusal those of the first parts may be gone.
#[tactic(auto, using(tc_space::specs::Frames::keeps_refl, tc_space::specs::Frames::keeps_then, crate::proofs::Listed::stays_refl, crate::proofs::Listed::stays_then))]
pub fn out_entries<M: Multi>(
    alloc: Global,
    tree: &mut M,
    space: &mut M::S,
    parts: &[Blob],
    key: &[u8],
) -> Result<(), RecErr>
    requires ready { IsReady M.S.Space (In M.S.Space M.file_of M.holds) tree.old space.old }
    requires whole { AreWhole parts.now }
    ensures out { OnOk result (LosesAll M.S.Space M.Multi parts.now key.now tree.old tree.new space.old space.new) }
    ensures ready { OnOk result (IsReady M.S.Space (In M.S.Space M.file_of M.holds) tree.new space.new) }
    ensures refused { OnErr result (StopsIn M.S.Space space.new (LosesSome M.S.Space M.Multi parts.now key.now tree.old tree.new space.old space.new)) }
    ensures full { IsErrOf result RecErr.Full → FullOuts M.S.Space M.Multi M.O.cmp parts.now key.now tree.old space.old space.new }
    ensures keeps { Keeps M.S.Space space.old space.new }
    ensures stays { StaysList M.file_of M.made M.lead tree.old tree.new }
    ensures cause { OnFault M.S.Space result space.old space.new }
{
    for i in 0..parts.len() {
        out_entry(alloc, tree, space, parts[i].as_slice(), key)?;
    }
    Ok(())
}

impl<M: Multi> Index<M> {
    /// Puts the parts that a key's row gives in the place of those that it gave. A refusal says how far it came.
    #[tactic(auto, using(tc_space::specs::Frames::keeps_then, crate::proofs::Listed::stays_then))]
    pub fn change(
        &mut self,
        space: &mut M::S,
        key: &[u8],
        old: &[Blob],
        new: &[Blob],
    ) -> Result<(), RecErr>
        requires ready { IsReady M.S.Space (In M.S.Space M.file_of M.holds) self.old.tree space.old }
        requires old { AreWhole old.now }
        requires new { AreWhole new.now }
        ensures turns { OnOk result (Turns M.S.Space M.Multi key.now old.now new.now self.old.tree self.new.tree space.old space.new) }
        ensures ready { OnOk result (IsReady M.S.Space (In M.S.Space M.file_of M.holds) self.new.tree space.new) }
        ensures refused { OnErr result (StopsIn M.S.Space space.new (TurnsPartly M.S.Space M.Multi key.now old.now new.now self.old.tree self.new.tree space.old space.new)) }
        ensures full { IsErrOf result RecErr.Full → FullTurns M.S.Space M.Multi M.O.cmp old.now new.now key.now self.old.tree space.old space.new }
        ensures keeps { Keeps M.S.Space space.old space.new }
        ensures stays { StaysList M.file_of M.made M.lead self.old.tree self.new.tree }
        ensures name { self.new.name ≡ self.old.name }
        ensures cause { OnFault M.S.Space result space.old space.new }
    {
        out_entries(self.alloc, &mut self.tree, space, old, key)?;
        put_entries(self.alloc, &mut self.tree, space, new, key)?;
        Ok(())
    }
}
