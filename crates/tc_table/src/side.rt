//! The indexes of a table.
ghost use Rattle.std.specs.Prelude.{◌≡◌, true, Some, IfOk, IfSome, OnOk, IsErrOf};
ghost use Rattle.std.specs.Option.{option_copied};
ghost use Rattle.tc_space.specs.Frames.{Keeps};
ghost use Rattle.tc_space.specs.Refusals.{OnFault};
ghost use Rattle.td_index.specs.Entries.{AreWhole};
ghost use Rattle.tc_table.specs.Full.{AllFull, SideFull, TreeFull};
ghost use Rattle.tc_model.specs.Rows.{is_part};
ghost use Rattle.tc_table.specs.Parts as parts;
ghost use Rattle.tc_table.specs.Parts.{column_in};
ghost use Rattle.tc_table.specs.Sides.{AllReady, AllStay, AllTurn, SideTurns, StaysSide, StaysTree, TreeReady, TreeTurns, name_of};

use std::alloc::{AllocError, Global};
use tc_base::{Blob, Blobs};
use tc_model::IndexKind;
use tc_space::{Multi, RecErr, Space};
use td_index::Index;
use td_row::Row;
use td_token::firsts;

/// An index over a tree in one of the two orders.
#[derive(Drop)]
pub enum Sorted<L, D> {
    /// By bytes.
    Lexical(Index<L>),
    /// By the numbers of texts.
    Decimal(Index<D>),
}

/// An index of a column. One of values is ordered as its type says, one of tokens by bytes.
#[derive(Drop)]
pub struct Side<L, D> {
    pub kind: IndexKind,
    pub tree: Sorted<L, D>,
}

impl<L, D> Sorted<L, D> {
    /// The column's name.
    pub fn name(&self) -> &Blob
        ensures { result.now ≡ name_of self.now }
    {
        match self {
            Sorted::Lexical(index) => &index.name,
            Sorted::Decimal(index) => &index.name,
        }
    }
}

/// The value of a row's column, where there is a row that has it.
pub(crate) fn value_of<'a>(name: &[u8], row: Option<&'a Row>) -> Option<&'a [u8]>
    ensures value { option_copied result ≡ column_in name.now (option_copied row.entry) }
    ensures part { IfSome (option_copied result) (λ value. is_part value ≡ true) }
{
    let Some(row) = row else {
        return None;
    };
    row.get(name)
}

// What an index has of a value.
fn parts_of_some(alloc: Global, kind: IndexKind, value: &[u8]) -> Result<Blobs, AllocError>
    requires { is_part value.now ≡ true }
    ensures parts { IfOk result (λ found. found ≡ parts.parts_of_value kind (Some value.now)) }
    ensures whole { IfOk result (λ found. AreWhole found) }
{
    let found = firsts(alloc, kind, value)?;
    Ok(found)
}

/// The same where there is a value.
#[tactic(auto, using(crate::specs::Wholes::none_whole))]
pub(crate) fn parts_of_value(
    alloc: Global,
    kind: IndexKind,
    value: Option<&[u8]>,
) -> Result<Blobs, AllocError>
    requires { IfSome (option_copied value) (λ value. is_part value ≡ true) }
    ensures parts { IfOk result (λ found. found ≡ parts.parts_of_value kind (option_copied value.entry)) }
    ensures whole { IfOk result (λ found. AreWhole found) }
{
    match value {
        Some(value) => parts_of_some(alloc, kind, value),
        None => Ok(Blobs::new(alloc)),
    }
}

// Whether two values are the same, or both are none.
fn are_same(a: Option<&[u8]>, b: Option<&[u8]>) -> bool
    ensures { result ≡ true → option_copied a.entry ≡ option_copied b.entry }
{
    match (a, b) {
        (Some(a), Some(b)) => a == b,
        (None, None) => true,
        _ => false,
    }
}

// Puts the parts of a key in the place of others in a tree.
fn change_tree<S: Space, L: Multi<S = S>, D: Multi<S = S>>(
    tree: &mut Sorted<L, D>,
    space: &mut S,
    key: &[u8],
    old: &[Blob],
    new: &[Blob],
) -> Result<(), RecErr>
    requires ready { TreeReady S.Space L.Multi D.Multi tree.old space.old }
    requires old { AreWhole old.now }
    requires new { AreWhole new.now }
    ensures turns { OnOk result (TreeTurns S.Space L.Multi D.Multi key.now old.now new.now tree.old tree.new space.old space.new) }
    ensures full { IsErrOf result RecErr.Full → TreeFull S.Space L.Multi D.Multi L.O.cmp D.O.cmp key.now old.now new.now tree.old space.old space.new }
    ensures keeps { Keeps S.Space space.old space.new }
    ensures stays { StaysTree L.Multi D.Multi tree.old tree.new }
    ensures cause { OnFault S.Space result space.old space.new }
{
    match tree {
        Sorted::Lexical(index) => index.change(space, key, old, new),
        Sorted::Decimal(index) => index.change(space, key, old, new),
    }
}

// Puts what a row gives an index in the place of what another gave it. By its code, where that is the same nothing is asked of its tree.
pub(crate) fn change_side<S: Space, L: Multi<S = S>, D: Multi<S = S>>(
    alloc: Global,
    side: &mut Side<L, D>,
    space: &mut S,
    key: &[u8],
    old: Option<&Row>,
    new: Option<&Row>,
) -> Result<(), RecErr>
    requires ready { TreeReady S.Space L.Multi D.Multi side.old.tree space.old }
    ensures turns { OnOk result (SideTurns S.Space L.Multi D.Multi key.now (option_copied old.entry) (option_copied new.entry) side.old side.new space.old space.new) }
    ensures full { IsErrOf result RecErr.Full → SideFull S.Space L.Multi D.Multi L.O.cmp D.O.cmp key.now (option_copied old.entry) (option_copied new.entry) side.old space.old space.new }
    ensures keeps { Keeps S.Space space.old space.new }
    ensures stays { StaysSide L.Multi D.Multi side.old side.new }
    ensures cause { OnFault S.Space result space.old space.new }
{
    let name = side.tree.name().as_slice();
    let had = value_of(name, old);
    let has = value_of(name, new);
    if are_same(had, has) {
        return Ok(());
    }
    let before = parts_of_value(alloc, side.kind, had)?;
    let after = parts_of_value(alloc, side.kind, has)?;
    let gone = before.as_slice();
    let come = after.as_slice();
    change_tree(&mut side.tree, space, key, gone, come)
}

/// Puts what a row gives each index in the place of what another gave it. After a refusal those in front of the one that refused are changed.
pub(crate) fn change_all<S: Space, L: Multi<S = S>, D: Multi<S = S>>(
    alloc: Global,
    sides: &mut [Side<L, D>],
    space: &mut S,
    key: &[u8],
    old: Option<&Row>,
    new: Option<&Row>,
) -> Result<(), RecErr>
    requires ready { AllReady S.Space L.Multi D.Multi sides.old space.old }
    ensures turn { OnOk result (AllTurn S.Space L.Multi D.Multi key.now (option_copied old.entry) (option_copied new.entry) sides.old sides.new space.old space.new) }
    ensures full { IsErrOf result RecErr.Full → AllFull S.Space L.Multi D.Multi L.O.cmp D.O.cmp key.now (option_copied old.entry) (option_copied new.entry) sides.old space.old space.new }
    ensures keeps { Keeps S.Space space.old space.new }
    ensures stays { AllStay L.Multi D.Multi sides.old sides.new }
    ensures cause { OnFault S.Space result space.old space.new }
{
    let Some((first, rest)) = sides.split_first_mut() else {
        return Ok(());
    };
    change_side(alloc, first, space, key, old, new)?;
    change_all(alloc, rest, space, key, old, new)?;
    Ok(())
}
