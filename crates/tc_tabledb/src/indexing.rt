//! Indexes that are set, and taken away.
#![tactic(auto, using(tc_space::specs::Frames::keeps_refl, tc_space::specs::Frames::keeps_then))]

ghost use Rattle.std.specs.Prelude.{◌≡◌, ◌<◌, ◌&&◌, ℕ, true, false, IfOk, IfSome, IsErrOf, None, OnErr, is_none, nat_le};
ghost use Rattle.tc_engine.specs.Changes.{index_set};
ghost use Rattle.tc_engine.specs.Effects.{FullFor, MadeBy, Makes};
ghost use Rattle.tc_hash.specs.Creating.{IsEmptyIn};
ghost use Rattle.tc_model.specs.Meaning.{index_of};
ghost use Rattle.tc_model.specs.Rows.{is_part};
ghost use Rattle.tc_model.specs.Texts.{not_empty};
ghost use Rattle.tc_space.specs.Frames.{Keeps};
ghost use Rattle.tc_space.specs.Refusals.{OnFault, OnlyLogIsFull};
ghost use Rattle.tc_table.specs.Adding.{is_of};
ghost use Rattle.tc_table.specs.Sides.{asks_decimal, tree_file};
ghost use Rattle.ty_base.specs.Holding.{IsReady, OfHeld, RefusesHeld};
ghost use Rattle.tc_tabledb.specs.Files.{IsIndexPlace, IsTableFile, column_bytes, type_code};
ghost use Rattle.tc_tabledb.specs.Filling.{fills_of};
ghost use Rattle.tc_tabledb.specs.Indexing.{EndsNew, IsFreePlace, IsSet, IsSetAs, IsSetBy, LacksSide, MakesSide, given_index, is_kind, kind_at, unindexed};
ghost use Rattle.tc_tabledb.specs.Laying.{layout_of};

use crate::changing::give_up;
use crate::holding::{Decimals, Indexed, Lexicals, TableEngine};
use crate::laws::table_stores;
use std::alloc::{AllocError, Global};
use tc_base::{Blob, COLUMN_MOST, Mode, Steps};
use tc_btree::Btree;
use tc_hash::Hash;
use tc_model::IndexKind;
use tc_reach::cut_to;
use tc_space::{Multi, PutErr, RecErr, Records, Space};
use tc_table::{Side, Sorted};
use td_index::Index;
use ty_base::Storage;

/// The files that may have an index, in ascending number.
pub(crate) const INDEX_FILES: [u32; 16] = [3, 4, 5, 6, 7, 8, 9, 10, 11, 12, 13, 14, 15, 16, 17, 18];

// The type in the head of an index file.
const TREE: u8 = 1;

// Whether a column of that name may have an index.
fn may_have(column: &[u8]) -> bool
    ensures { result ≡ (not_empty column.now && is_part column.now) }
{
    column.len() >= 1 && (column.len() <= COLUMN_MOST && !column.contains(&0))
}

/// What a code asks for: a type, or that the index is taken away.
pub(crate) fn index_of(code: &[u8]) -> Option<Option<IndexKind>>
    ensures { result ≡ index_of code.now }
{
    if code == b"0".as_slice() {
        return Some(Some(IndexKind::Lexical));
    }
    if code == b"1".as_slice() {
        return Some(Some(IndexKind::Decimal));
    }
    if code == b"2".as_slice() {
        return Some(Some(IndexKind::Token));
    }
    if code == b"9999".as_slice() {
        return Some(None);
    }
    None
}

// The byte of a type.
fn type_code(kind: IndexKind) -> u8
    ensures { result ≡ type_code kind }
{
    match kind {
        IndexKind::Lexical => 0,
        IndexKind::Decimal => 1,
        IndexKind::Token => 2,
    }
}

// Whether the tree of a type is ordered by numbers.
fn by_number(kind: IndexKind) -> bool
    ensures { result ≡ asks_decimal kind }
{
    match kind {
        IndexKind::Lexical => false,
        IndexKind::Decimal => true,
        IndexKind::Token => false,
    }
}

// The record `column` of an index.
fn column_record(alloc: Global, kind: IndexKind, name: &Blob) -> Result<Blob, AllocError>
    ensures { IfOk result (λ bytes. bytes ≡ column_bytes kind name.now) }
{
    let mut bytes = Blob::new(alloc);
    bytes.push(type_code(kind))?;
    bytes.append(name.as_slice())?;
    Ok(bytes)
}

/// The file of an index.
pub(crate) fn file_of<L: Multi, D: Multi<S = L::S>>(side: &Side<L, D>) -> u32
    ensures { result ≡ tree_file L.Multi D.Multi side.now.tree }
{
    match &side.tree {
        Sorted::Lexical(index) => index.tree.file(),
        Sorted::Decimal(index) => index.tree.file(),
    }
}

// Whether a file may have an index.
fn is_place(file: u32) -> bool
    ensures place { result ≡ true → IsIndexPlace file }
    ensures other { result ≡ false → IsIndexPlace file → ⊥ }
{
    3 <= file && file <= 18
}

// Whether a file is that of one of these indexes.
fn is_taken<L: Multi, D: Multi<S = L::S>>(sides: &[Side<L, D>], file: u32) -> bool
    ensures free { result ≡ false → IsFreePlace L.Multi D.Multi sides.now file }
    ensures taken { result ≡ true → IsFreePlace L.Multi D.Multi sides.now file → ⊥ }
{
    let Some((first, rest)) = sides.split_first() else {
        return false;
    };
    let here = file_of(first);
    if here == file {
        return true;
    }
    is_taken(rest, file)
}

// The lowest file that no index has.
fn free_place<L: Multi, D: Multi<S = L::S>>(sides: &[Side<L, D>]) -> Option<u32>
    ensures place { IfSome result (λ file. IsIndexPlace file) }
    ensures free { IfSome result (λ file. IsFreePlace L.Multi D.Multi sides.now file) }
    ensures lowest { IfSome result (λ file. (n : ℕ) → IsIndexPlace n → n < file → IsFreePlace L.Multi D.Multi sides.now n → ⊥) }
    ensures none { is_none result ≡ true → (n : ℕ) → IsIndexPlace n → IsFreePlace L.Multi D.Multi sides.now n → ⊥ }
{
    for file in 3..19 {
        if !is_taken(sides, file) {
            return Some(file);
        }
    }
    None
}

/// Whether an index is of a column.
pub(crate) fn has_name<L, D>(side: &Side<L, D>, name: &[u8]) -> bool
    ensures { result ≡ is_of name.now side.now }
{
    side.tree.name().as_slice() == name
}

// The type of the index of a column, if it has one.
fn kind_at<L, D>(sides: &[Side<L, D>], name: &[u8]) -> Option<IndexKind>
    ensures { result ≡ kind_at name.now sides.now }
{
    let Some((first, rest)) = sides.split_first() else {
        return None;
    };
    if has_name(first, name) {
        return Some(first.kind);
    }
    kind_at(rest, name)
}

// Whether an index is there, and of a type.
fn is_kind(had: Option<IndexKind>, kind: IndexKind) -> bool
    ensures { result ≡ is_kind had kind }
{
    let Some(other) = had else {
        return false;
    };
    type_code(other) == type_code(kind)
}

// Whether a column without an index may have none beside so many.
fn has_no_room(had: Option<IndexKind>, count: usize) -> bool
    ensures { result ≡ (is_none had && nat_le 16 count) }
{
    match had {
        Some(_) => false,
        None => 16 <= count,
    }
}

// Gives a hash file without records the record `column`. Behind a refusal the space is to be given up.
fn put_column<S: Space>(hash: &mut Hash<S>, space: &mut S, bytes: &[u8]) -> Result<(), RecErr>
    requires { CanCall S.Space hash.old space.old }
    ensures put { OnOk result (PutsColumn S.Space bytes.now hash.old hash.new space.old space.new) }
    ensures full { IsErrOf result RecErr.Full → LacksFor S.Space Over column_key bytes.now hash.old space.old space.new }
    ensures keeps { Keeps S.Space space.old space.new }
    ensures stays { StaysOpen hash.old hash.new }
    ensures cause { OnFault S.Space result space.old space.new }
{
    let mut steps: Steps<()> = Steps::new();
    match Hash::put(
        hash,
        space,
        b"column".as_slice(),
        bytes,
        Mode::Over,
        &mut steps,
    ) {
        Ok(()) => Ok(()),
        Err(PutErr::Full) => Err(RecErr::Full),
        Err(PutErr::Fault) => Err(RecErr::Fault),
        Err(PutErr::Memory) => Err(RecErr::Memory),
        Err(PutErr::Exists) => Err(RecErr::Memory),
    }
}

// A hash file for an index in an empty file, with its record `column`. Behind a refusal the space is to be given up.
fn make_file<S: Space>(
    alloc: Global,
    space: &mut S,
    file: u32,
    kind: IndexKind,
    name: &Blob,
) -> Result<Hash<S>, RecErr>
    requires { IsEmptyIn S.Space space.old file }
    ensures made { IfOk result (λ h. MakesFile S.Space file kind name.now h space.old space.new) }
    ensures full { IsErrOf result RecErr.Full → S.tells → LacksSide S.Space file kind name.now space.new }
    ensures keeps { Keeps S.Space space.old space.new }
    ensures cause { OnFault S.Space result space.old space.new }
{
    let bytes = column_record(alloc, kind, name)?;
    let mut hash = Hash::create(alloc, space, file, TREE, 8, 10, 8191, false)?;
    put_column(&mut hash, space, bytes.as_slice())?;
    Ok(hash)
}

// The index of nothing in such a file, of a type that is ordered by numbers. Behind a refusal the space is to be given up.
fn make_decimal<S: Space>(
    alloc: Global,
    hash: Hash<S>,
    space: &mut S,
    kind: IndexKind,
    name: Blob,
) -> Result<Indexed<S>, RecErr>
    requires column { HoldsColumn S.Space kind name hash space.old }
    requires place { IsIndexPlace hash.body.file }
    requires named { not_empty name ≡ true }
    requires order { asks_decimal kind ≡ true }
    ensures made { IfOk result (λ x. MakesSide S.Space ⟦<Hash<S> as Records>⟧ ⟦<Lexicals<S> as Multi>⟧ ⟦<Decimals<S> as Multi>⟧ hash.body.file kind name x space.old space.new) }
    ensures full { IsErrOf result RecErr.Full → S.tells → LacksSide S.Space hash.body.file kind name space.new }
    ensures keeps { Keeps S.Space space.old space.new }
    ensures cause { OnFault S.Space result space.old space.new }
{
    table_stores::<S>();
    let tree = Btree::create(alloc, hash, space, 128, 256)?;
    let tree = Sorted::Decimal(Index { alloc, tree, name });
    Ok(Side { kind, tree })
}

// The same of a type that is ordered by bytes.
fn make_lexical<S: Space>(
    alloc: Global,
    hash: Hash<S>,
    space: &mut S,
    kind: IndexKind,
    name: Blob,
) -> Result<Indexed<S>, RecErr>
    requires column { HoldsColumn S.Space kind name hash space.old }
    requires place { IsIndexPlace hash.body.file }
    requires named { not_empty name ≡ true }
    requires order { asks_decimal kind ≡ false }
    ensures made { IfOk result (λ x. MakesSide S.Space ⟦<Hash<S> as Records>⟧ ⟦<Lexicals<S> as Multi>⟧ ⟦<Decimals<S> as Multi>⟧ hash.body.file kind name x space.old space.new) }
    ensures full { IsErrOf result RecErr.Full → S.tells → LacksSide S.Space hash.body.file kind name space.new }
    ensures keeps { Keeps S.Space space.old space.new }
    ensures cause { OnFault S.Space result space.old space.new }
{
    table_stores::<S>();
    let tree = Btree::create(alloc, hash, space, 128, 256)?;
    let tree = Sorted::Lexical(Index { alloc, tree, name });
    Ok(Side { kind, tree })
}

// The same of a type. Behind a refusal the space is to be given up.
fn make_tree<S: Space>(
    alloc: Global,
    hash: Hash<S>,
    space: &mut S,
    kind: IndexKind,
    name: Blob,
) -> Result<Indexed<S>, RecErr>
    requires column { HoldsColumn S.Space kind name hash space.old }
    requires place { IsIndexPlace hash.body.file }
    requires named { not_empty name ≡ true }
    ensures made { IfOk result (λ x. MakesSide S.Space ⟦<Hash<S> as Records>⟧ ⟦<Lexicals<S> as Multi>⟧ ⟦<Decimals<S> as Multi>⟧ hash.body.file kind name x space.old space.new) }
    ensures full { IsErrOf result RecErr.Full → S.tells → LacksSide S.Space hash.body.file kind name space.new }
    ensures keeps { Keeps S.Space space.old space.new }
    ensures cause { OnFault S.Space result space.old space.new }
{
    if by_number(kind) {
        return make_decimal(alloc, hash, space, kind, name);
    }
    make_lexical(alloc, hash, space, kind, name)
}

// An index of nothing in an empty file. Behind a refusal the space is to be given up.
fn make_side<S: Space>(
    alloc: Global,
    space: &mut S,
    file: u32,
    kind: IndexKind,
    name: Blob,
) -> Result<Indexed<S>, RecErr>
    requires empty { IsEmptyIn S.Space space.old file }
    requires place { IsIndexPlace file }
    requires named { not_empty name ≡ true }
    ensures made { IfOk result (λ x. MakesSide S.Space ⟦<Hash<S> as Records>⟧ ⟦<Lexicals<S> as Multi>⟧ ⟦<Decimals<S> as Multi>⟧ file kind name x space.old space.new) }
    ensures full { IsErrOf result RecErr.Full → S.tells → LacksSide S.Space file kind name space.new }
    ensures keeps { Keeps S.Space space.old space.new }
    ensures cause { OnFault S.Space result space.old space.new }
{
    let hash = make_file(alloc, space, file, kind, &name)?;
    make_tree(alloc, hash, space, kind, name)
}

impl<S: Space> TableEngine<S> {
    // Takes the index of a column away, and cuts its file to nothing. It answers whether there was one.
    fn drop_index(&mut self, space: &mut S, name: &[u8]) -> Result<bool, RecErr>
        requires { IsReady S.Space ⟦<TableEngine<S> as Storage>⟧.holds self.old space.old }
        ensures makes { MadeBy S.Space ⟦<TableEngine<S> as Storage>⟧.holds IsTableFile layout_of result (unindexed name.now) self.old self.new space.old space.new }
        ensures refused { RefusesHeld S.Space ⟦<TableEngine<S> as Storage>⟧.holds result self.old self.new space.old space.new }
        ensures full { FullFor S.Space ⟦<TableEngine<S> as Storage>⟧.holds (fills_of S.Space) result (unindexed name.now) self.old space.old space.new }
        ensures log { OnlyLogIsFull S.Space result space.new }
        ensures none { IfOk result (λ done. S.tells → kind_at name.now self.new.table.sides.items ≡ None) }
        ensures keeps { Keeps S.Space space.old space.new }
        ensures cause { OnFault S.Space result space.old space.new }
    {
        table_stores::<S>();
        let Some(side) = self.table.remove_index(name) else {
            return Ok(false);
        };
        let file = file_of(&side);
        drop(side);
        if !is_place(file) {
            return Err(RecErr::Memory);
        }
        cut_to(space, file, 0)?;
        Ok(true)
    }

    // Makes an index of a column in the lowest file that is free. Behind a refusal the space is to be given up.
    fn make_index(&mut self, space: &mut S, name: Blob, kind: IndexKind) -> Result<(), RecErr>
        requires ready { IsReady S.Space ⟦<TableEngine<S> as Storage>⟧.holds self.old space.old }
        requires named { not_empty name ≡ true }
        requires new { S.tells → kind_at name self.old.table.sides.items ≡ None }
        ensures made { OnOk result (Makes S.Space IsTableFile layout_of ⟦<TableEngine<S> as Storage>⟧.holds (added name kind) true self.old self.new space.old space.new) }
        ensures comes { OnOk result (EndsNew ⟦<Lexicals<S> as Multi>⟧ ⟦<Decimals<S> as Multi>⟧ kind name self.new.table.sides.items) }
        ensures full { IsErrOf result RecErr.Full → OfHeld S.Space ⟦<TableEngine<S> as Storage>⟧.holds self.old space.old (FullAdded S.Space name kind space.new) }
        ensures keeps { Keeps S.Space space.old space.new }
        ensures cause { OnFault S.Space result space.old space.new }
    {
        table_stores::<S>();
        let Some(file) = free_place(self.table.sides.as_slice()) else {
            return Err(RecErr::Memory);
        };
        let side = make_side(self.alloc, space, file, kind, name)?;
        self.table.add_index(space, side)
    }

    // The same. After a refusal the space isn't sound.
    fn put_new(&mut self, space: &mut S, name: Blob, kind: IndexKind) -> Result<(), RecErr>
        requires ready { IsReady S.Space ⟦<TableEngine<S> as Storage>⟧.holds self.old space.old }
        requires named { not_empty name ≡ true }
        requires new { S.tells → kind_at name self.old.table.sides.items ≡ None }
        ensures made { OnOk result (Makes S.Space IsTableFile layout_of ⟦<TableEngine<S> as Storage>⟧.holds (added name kind) true self.old self.new space.old space.new) }
        ensures comes { OnOk result (EndsNew ⟦<Lexicals<S> as Multi>⟧ ⟦<Decimals<S> as Multi>⟧ kind name self.new.table.sides.items) }
        ensures spoiled { OnErr result (S.flag space.new ≡ false) }
        ensures full { IsErrOf result RecErr.Full → OfHeld S.Space ⟦<TableEngine<S> as Storage>⟧.holds self.old space.old (FullAdded S.Space name kind space.new) }
        ensures keeps { Keeps S.Space space.old space.new }
        ensures cause { OnFault S.Space result space.old space.new }
    {
        table_stores::<S>();
        match self.make_index(space, name, kind) {
            Ok(()) => Ok(()),
            Err(e) => {
                give_up(space);
                Err(e)
            }
        }
    }

    // Gives a column an index of a type. It answers whether it did: not where it has none and there are sixteen.
    fn put_index(&mut self, space: &mut S, name: Blob, kind: IndexKind) -> Result<bool, RecErr>
        requires ready { IsReady S.Space ⟦<TableEngine<S> as Storage>⟧.holds self.old space.old }
        requires named { not_empty name ≡ true }
        ensures makes { MadeBy S.Space ⟦<TableEngine<S> as Storage>⟧.holds IsTableFile layout_of result (indexed name kind) self.old self.new space.old space.new }
        ensures refused { RefusesHeld S.Space ⟦<TableEngine<S> as Storage>⟧.holds result self.old self.new space.old space.new }
        ensures full { FullFor S.Space ⟦<TableEngine<S> as Storage>⟧.holds (fills_of S.Space) result (indexed name kind) self.old space.old space.new }
        ensures comes { IfOk result (λ done. done ≡ true → IsSet ⟦<Lexicals<S> as Multi>⟧ ⟦<Decimals<S> as Multi>⟧ kind name self.old.table.sides.items self.new.table.sides.items) }
        ensures keeps { Keeps S.Space space.old space.new }
        ensures cause { OnFault S.Space result space.old space.new }
    {
        table_stores::<S>();
        let sides = self.table.sides.as_slice();
        let had = kind_at(sides, name.as_slice());
        if is_kind(had, kind) {
            return Ok(true);
        }
        if has_no_room(had, sides.len()) {
            return Ok(false);
        }
        let _had = self.drop_index(space, name.as_slice())?;
        self.put_new(space, name, kind)?;
        Ok(true)
    }

    // Gives a column an index of a type, or takes the one away that it has.
    fn put_wanted(
        &mut self,
        space: &mut S,
        name: Blob,
        wanted: Option<IndexKind>,
    ) -> Result<bool, RecErr>
        requires ready { IsReady S.Space ⟦<TableEngine<S> as Storage>⟧.holds self.old space.old }
        requires named { not_empty name ≡ true }
        ensures makes { MadeBy S.Space ⟦<TableEngine<S> as Storage>⟧.holds IsTableFile layout_of result (given_index name wanted) self.old self.new space.old space.new }
        ensures refused { RefusesHeld S.Space ⟦<TableEngine<S> as Storage>⟧.holds result self.old self.new space.old space.new }
        ensures full { FullFor S.Space ⟦<TableEngine<S> as Storage>⟧.holds (fills_of S.Space) result (given_index name wanted) self.old space.old space.new }
        ensures comes { IfOk result (λ done. done ≡ true → IsSetAs ⟦<Lexicals<S> as Multi>⟧ ⟦<Decimals<S> as Multi>⟧ name self.old.table.sides.items self.new.table.sides.items wanted) }
        ensures keeps { Keeps S.Space space.old space.new }
        ensures cause { OnFault S.Space result space.old space.new }
    {
        let Some(kind) = wanted else {
            return self.drop_index(space, name.as_slice());
        };
        self.put_index(space, name, kind)
    }

    /// Sets the index of a column to the type of a code, or takes it away. It answers whether it did.
    pub(crate) fn index_by(
        &mut self,
        space: &mut S,
        column: Blob,
        code: &[u8],
    ) -> Result<bool, RecErr>
        requires { IsReady S.Space ⟦<TableEngine<S> as Storage>⟧.holds self.old space.old }
        ensures makes { MadeBy S.Space ⟦<TableEngine<S> as Storage>⟧.holds IsTableFile layout_of result (index_set column code.now) self.old self.new space.old space.new }
        ensures refused { RefusesHeld S.Space ⟦<TableEngine<S> as Storage>⟧.holds result self.old self.new space.old space.new }
        ensures full { FullFor S.Space ⟦<TableEngine<S> as Storage>⟧.holds (fills_of S.Space) result (index_set column code.now) self.old space.old space.new }
        ensures comes { IfOk result (λ done. done ≡ true → IsSetBy ⟦<Lexicals<S> as Multi>⟧ ⟦<Decimals<S> as Multi>⟧ column self.old.table.sides.items self.new.table.sides.items (index_of code.now)) }
        ensures keeps { Keeps S.Space space.old space.new }
        ensures cause { OnFault S.Space result space.old space.new }
    {
        table_stores::<S>();
        if !may_have(column.as_slice()) {
            return Ok(false);
        }
        let Some(wanted) = index_of(code) else {
            return Ok(false);
        };
        self.put_wanted(space, column, wanted)
    }
}

ghost use Rattle.std.specs.Prelude.{OnOk};
ghost use Rattle.bt_rows.specs.Rules.{column as column_key};
ghost use Rattle.tc_base.specs.declared.kind.Mode.TheVariants.{Over};
ghost use Rattle.tc_hash.specs.Keeping.{CanCall, StaysOpen};
ghost use Rattle.tc_hash.specs.Putting.{LacksFor};
ghost use Rattle.tc_tabledb.specs.Indexing.{FullAdded, HoldsColumn, MakesFile, PutsColumn, added, indexed};
