//! A table database opened in its files, or made in its main file.
#![tactic(auto, using(tc_space::specs::Frames::keeps_refl, tc_space::specs::Frames::only_reads_refl, tc_space::specs::Frames::only_reads_then))]

ghost use Rattle.std.specs.Prelude.{◌≡◌, ◌≢◌, ◌∷◌, [], true, false, IfOk, IfErr, IsErrOf, MatchOption, OnOk};
ghost use Rattle.tc_base.specs.Maps.{Map};
ghost use Rattle.bt_rows.specs.Heads.{head_of};
ghost use Rattle.tc_hash.specs.Keeping.{CanCall, Looks, Means};
ghost use Rattle.tc_model.specs.Texts.{is_among};
ghost use Rattle.tc_model.specs.declared.query.IndexKind.{IndexKind};
ghost use Rattle.tc_space.specs.Frames.{Keeps};
ghost use Rattle.tc_space.specs.Frames.{OnlyReads};
ghost use Rattle.tc_space.specs.Refusals.{Blamed, Blames};
ghost use Rattle.ty_base.specs.Holding.{StaysUsable};
ghost use Rattle.ty_base.specs.Opening.{Breaks, CreatesAs, NamesNew, RefusesToOpen};
ghost use Rattle.tc_tabledb.specs.Files.{AreEmpty, IsIndexPlace, IsTableFile, index_files, order_code, type_code};
ghost use Rattle.tc_tabledb.specs.Holding.{names};
ghost use Rattle.tc_tabledb.specs.Indexing.{IsFreePlace};
ghost use Rattle.tc_tabledb.specs.Opened.{AreFree, ArePlaces, BreaksBefore, BreaksHere, BreaksSome, BreaksTree, CanOpenIndex, IsListed, IsNamedBy, IsNewName, NamesBy, NamesNone, OpensFile, OpensMain, OpensSide, OpensSides, OpensTree, TakesSide};
ghost use Rattle.tc_tabledb.specs.Opening.{BreaksAs, BreaksNew, BreaksTable, IsLowest, rule_c, tells_numbers};
ghost use Rattle.tc_tabledb.specs.Shapes.{Lacks, LeavesNone, MayHave, Shaped, anew, usual};
ghost use Rattle.tc_tabledb.specs.Unbroken.{stands_unbroken};

use crate::holding::{Decimals, Indexed, Lexicals, TableEngine, Tables, Trees};
use crate::indexing::{INDEX_FILES, has_name};
use crate::laws::table_stores;
use crate::shape::{TableShape, USUAL};
use std::alloc::{AllocError, Global};
use tc_base::{Blob, Blobs, Kind, Rule, Steps};
use tc_btree::Btree;
use tc_hash::Hash;
use tc_model::IndexKind;
use tc_space::{Multi, OpenErr, RecErr, Records, Space};
use tc_table::{Side, Sorted, Table};
use td_index::Index;
use ty_base::{AnyErr, Opens, Storage};

// The types in the heads of the main file and of an index file.
const TABLE: u8 = 3;

const TREE: u8 = 1;

// A rule of tables that a file breaks.
fn broken(file: u32, number: u8) -> AnyErr
    ensures { result ≡ AnyErr.Broken file (rule_c number) }
{
    AnyErr::Broken {
        file,
        rule: Rule {
            letter: b'C',
            number,
        },
    }
}

// The first of these files that isn't empty.
fn first_some<S: Space>(space: &S, files: &[u32]) -> Option<u32>
    requires sound { S.sound space.now }
    requires places { ArePlaces files.now }
    ensures { MatchOption result (S.tells → AreEmpty (S.now space.now) files.now) (λ f. S.tells → IsLowest (S.now space.now) files.now f) }
{
    let Some((file, rest)) = files.split_first() else {
        return None;
    };
    if space.len(*file) > 0 {
        return Some(*file);
    }
    first_some(space, rest)
}

// The rows of the main file, as a table without indexes, and their primary keys.
fn open_rows<S: Space>(alloc: Global, space: &mut S) -> Result<(Tables<S>, Blobs), AnyErr>
    requires sound { S.sound space.old }
    requires some { S.tells → S.now space.old 0 ≢ [] }
    ensures opened { IfOk result (λ x. OpensMain S.Space ⟦<Hash<S> as Records>⟧ ⟦<Lexicals<S> as Multi>⟧ ⟦<Decimals<S> as Multi>⟧ x.0 x.1 space.old space.new) }
    ensures broken { IfErr result (λ e. Breaks e (λ file rule. S.tells → BreaksTable (S.now space.old) file rule)) }
    ensures reads { OnlyReads S.Space space.old space.new }
    ensures not_full { IsErrOf result AnyErr.Full → ⊥ }
    ensures cause { Blamed S.Space (IsErrOf result AnyErr.Fault) space.old space.new }
{
    table_stores::<S>();
    let hash = Hash::open(alloc, space, 0, TABLE)?;
    let Some(opened) = Table::open(alloc, hash, space)? else {
        return Err(broken(0, 1));
    };
    Ok(opened)
}

/// A type and a column's name.
#[derive(Drop)]
struct Named {
    kind: IndexKind,
    name: Blob,
}

// The type of a byte.
fn kind_of(code: u8) -> Option<IndexKind>
    ensures { MatchOption result ((k : IndexKind) → type_code k ≢ code) (λ k. type_code k ≡ code) }
{
    match code {
        0 => Some(IndexKind::Lexical),
        1 => Some(IndexKind::Decimal),
        2 => Some(IndexKind::Token),
        _ => None,
    }
}

// The byte of the order of a type's tree.
fn order_code(kind: IndexKind) -> u8
    ensures { result ≡ order_code kind }
{
    match kind {
        IndexKind::Lexical => 0,
        IndexKind::Decimal => 1,
        IndexKind::Token => 0,
    }
}

// Whether one of these indexes is of that column.
fn is_seen<L, D>(sides: &[Side<L, D>], name: &[u8]) -> bool
    ensures { result ≡ is_among name.now (names sides.now) }
{
    let Some((first, rest)) = sides.split_first() else {
        return false;
    };
    if has_name(first, name) {
        return true;
    }
    is_seen(rest, name)
}

// Whether a type's tree has that order, and a name isn't empty, nor one of those seen.
fn is_new<L, D>(kind: IndexKind, name: &[u8], order: u8, sides: &[Side<L, D>]) -> bool
    ensures new { result ≡ true → IsNewName order (names sides.now) kind name.now }
    ensures other { result ≡ false → IsNewName order (names sides.now) kind name.now → ⊥ }
{
    let told = order_code(kind);
    if told != order {
        return false;
    }
    if name.len() == 0 {
        return false;
    }
    if is_seen(sides, name) {
        return false;
    }
    true
}

// The type of a byte and a name, where it is so of them.
fn named_as<L, D>(
    alloc: Global,
    code: u8,
    name: &[u8],
    order: u8,
    sides: &[Side<L, D>],
) -> Result<Option<Named>, AllocError>
    ensures { IfOk result (λ o. MatchOption o (NamesNone (code ∷ name.now) order (names sides.now)) (λ x. IsNamedBy (code ∷ name.now) order (names sides.now) x.kind x.name)) }
{
    let Some(kind) = kind_of(code) else {
        return Ok(None);
    };
    if !is_new(kind, name, order, sides) {
        return Ok(None);
    }
    let name = Blob::from_slice(alloc, name)?;
    Ok(Some(Named { kind, name }))
}

// The type and the name that a record `column` tells, where the type's tree has that order and the name isn't empty, nor one of those seen.
fn named_by<L, D>(
    alloc: Global,
    record: &[u8],
    order: u8,
    sides: &[Side<L, D>],
) -> Result<Option<Named>, AllocError>
    ensures { IfOk result (λ o. MatchOption o (NamesNone record.now order (names sides.now)) (λ x. IsNamedBy record.now order (names sides.now) x.kind x.name)) }
{
    let Some((code, name)) = record.split_first() else {
        return Ok(None);
    };
    named_as(alloc, *code, name, order, sides)
}

// The byte of the order that the region of a hash file tells.
fn order_in<S: Space>(hash: &Hash<S>) -> u8
    ensures { result ≡ (head_of hash.now.region).order }
{
    let region = hash.opaque();
    region[0]
}

// The same of the record that a hash file has, if it has one.
fn named_in<S: Space, L, D>(
    alloc: Global,
    hash: &mut Hash<S>,
    space: &mut S,
    sides: &[Side<L, D>],
) -> Result<Option<Named>, RecErr>
    requires { CanCall S.Space hash.old space.old }
    ensures named { IfOk result (λ o. (m : Map) → Means S.Space hash.old space.old m → NamesBy m hash.old.region (names sides.now) o) }
    ensures looks { Looks S.Space hash.old hash.new space.old space.new }
    ensures keeps { Keeps S.Space space.old space.new }
    ensures same { hash.new.body ≡ hash.old.body }
    ensures region { hash.new.region ≡ hash.old.region }
    ensures cause { Blames S.Space result space.old space.new }
{
    let mut steps: Steps<()> = Steps::new();
    let order = order_in(hash);
    let Some(record) = Hash::get(hash, space, b"column".as_slice(), &mut steps)? else {
        return Ok(None);
    };
    let named = named_by(alloc, record.as_slice(), order, sides)?;
    Ok(named)
}

// Whether the region of a hash file tells the order of numbers.
fn is_by_number<S: Space>(hash: &Hash<S>) -> bool
    ensures { result ≡ tells_numbers hash.now.region }
{
    order_in(hash) == 1
}

// The tree of an index file that was opened as a hash file, in the order of numbers, which its region tells.
fn open_decimal<S: Space>(
    alloc: Global,
    hash: Hash<S>,
    space: &mut S,
    name: Blob,
) -> Result<Trees<S>, OpenErr>
    requires ready { CanOpenIndex S.Space hash space.old }
    requires told { tells_numbers hash.region ≡ true }
    ensures opened { IfOk result (λ x. OpensTree S.Space ⟦<Hash<S> as Records>⟧ ⟦<Lexicals<S> as Multi>⟧ ⟦<Decimals<S> as Multi>⟧ hash name x space.old space.new) }
    ensures broken { IfErr result (BreaksTree S.Space hash space.old) }
    ensures reads { OnlyReads S.Space space.old space.new }
    ensures cause { Blamed S.Space (IsErrOf result OpenErr.Fault) space.old space.new }
{
    table_stores::<S>();
    let tree = Btree::open_index(alloc, hash, space)?;
    Ok(Sorted::Decimal(Index { alloc, tree, name }))
}

// The same in the order of bytes, where the region doesn't tell the other. A byte other than 0 and 1 is a broken rule.
fn open_lexical<S: Space>(
    alloc: Global,
    hash: Hash<S>,
    space: &mut S,
    name: Blob,
) -> Result<Trees<S>, OpenErr>
    requires ready { CanOpenIndex S.Space hash space.old }
    requires told { tells_numbers hash.region ≡ false }
    ensures opened { IfOk result (λ x. OpensTree S.Space ⟦<Hash<S> as Records>⟧ ⟦<Lexicals<S> as Multi>⟧ ⟦<Decimals<S> as Multi>⟧ hash name x space.old space.new) }
    ensures broken { IfErr result (BreaksTree S.Space hash space.old) }
    ensures reads { OnlyReads S.Space space.old space.new }
    ensures cause { Blamed S.Space (IsErrOf result OpenErr.Fault) space.old space.new }
{
    table_stores::<S>();
    let tree = Btree::open_index(alloc, hash, space)?;
    Ok(Sorted::Lexical(Index { alloc, tree, name }))
}

// The tree of an index file that was opened as a hash file, in the order that its region tells. Another byte than 0 and 1 is a broken rule, whatever the order.
fn open_tree<S: Space>(
    alloc: Global,
    hash: Hash<S>,
    space: &mut S,
    name: Blob,
) -> Result<Trees<S>, OpenErr>
    requires { CanOpenIndex S.Space hash space.old }
    ensures opened { IfOk result (λ x. OpensTree S.Space ⟦<Hash<S> as Records>⟧ ⟦<Lexicals<S> as Multi>⟧ ⟦<Decimals<S> as Multi>⟧ hash name x space.old space.new) }
    ensures broken { IfErr result (BreaksTree S.Space hash space.old) }
    ensures reads { OnlyReads S.Space space.old space.new }
    ensures cause { Blamed S.Space (IsErrOf result OpenErr.Fault) space.old space.new }
{
    if is_by_number(&hash) {
        return open_decimal(alloc, hash, space, name);
    }
    open_lexical(alloc, hash, space, name)
}

// The index of a file that isn't empty, behind those seen. Whether its pairs are those of the rows isn't looked at.
fn open_side<S: Space>(
    alloc: Global,
    space: &mut S,
    file: u32,
    sides: &[Indexed<S>],
) -> Result<Indexed<S>, AnyErr>
    requires sound { S.sound space.old }
    requires place { IsIndexPlace file }
    requires some { S.tells → S.now space.old file ≢ [] }
    ensures opened { IfOk result (λ x. OpensSide S.Space ⟦<Hash<S> as Records>⟧ ⟦<Lexicals<S> as Multi>⟧ ⟦<Decimals<S> as Multi>⟧ file (names sides.now) x space.old space.new) }
    ensures broken { IfErr result (λ e. Breaks e (λ f rule. (f ≡ file) × (S.tells → BreaksBefore (names sides.now) (S.now space.old file) rule))) }
    ensures reads { OnlyReads S.Space space.old space.new }
    ensures not_full { IsErrOf result AnyErr.Full → ⊥ }
    ensures cause { Blamed S.Space (IsErrOf result AnyErr.Fault) space.old space.new }
{
    let mut hash = Hash::open(alloc, space, file, TREE)?;
    let Some(named) = named_in(alloc, &mut hash, space, sides)? else {
        let _tree = open_tree(alloc, hash, space, Blob::new(alloc))?;
        return Err(broken(file, 2));
    };
    let tree = open_tree(alloc, hash, space, named.name)?;
    Ok(Side {
        kind: named.kind,
        tree,
    })
}

// Opens an index file that isn't empty, and takes its index in, where its pairs are those of the rows.
fn open_index<S: Space>(
    alloc: Global,
    table: &mut Tables<S>,
    space: &mut S,
    row_keys: &[Blob],
    file: u32,
) -> Result<(), AnyErr>
    requires listed { IsListed S.Space ⟦<Hash<S> as Records>⟧ ⟦<Lexicals<S> as Multi>⟧ ⟦<Decimals<S> as Multi>⟧ table.old row_keys.now space.old }
    requires place { IsIndexPlace file }
    requires free { IsFreePlace ⟦<Lexicals<S> as Multi>⟧ ⟦<Decimals<S> as Multi>⟧ table.old.sides.items file }
    requires some { S.tells → S.now space.old file ≢ [] }
    ensures opened { OnOk result (TakesSide S.Space ⟦<Hash<S> as Records>⟧ ⟦<Lexicals<S> as Multi>⟧ ⟦<Decimals<S> as Multi>⟧ file table.old table.new space.old space.new) }
    ensures broken { IfErr result (λ e. Breaks e (λ f rule. BreaksHere S.Space ⟦<Hash<S> as Records>⟧ ⟦<Lexicals<S> as Multi>⟧ ⟦<Decimals<S> as Multi>⟧ file table.old space.old f rule)) }
    ensures reads { OnlyReads S.Space space.old space.new }
    ensures not_full { IsErrOf result AnyErr.Full → ⊥ }
    ensures cause { Blamed S.Space (IsErrOf result AnyErr.Fault) space.old space.new }
{
    table_stores::<S>();
    let side = open_side(alloc, space, file, table.sides.as_slice())?;
    if !table.admit(space, side, row_keys)? {
        return Err(broken(file, 3));
    }
    Ok(())
}

// The same of a file that may be empty.
fn open_file<S: Space>(
    alloc: Global,
    table: &mut Tables<S>,
    space: &mut S,
    row_keys: &[Blob],
    file: u32,
) -> Result<(), AnyErr>
    requires listed { IsListed S.Space ⟦<Hash<S> as Records>⟧ ⟦<Lexicals<S> as Multi>⟧ ⟦<Decimals<S> as Multi>⟧ table.old row_keys.now space.old }
    requires place { IsIndexPlace file }
    requires free { IsFreePlace ⟦<Lexicals<S> as Multi>⟧ ⟦<Decimals<S> as Multi>⟧ table.old.sides.items file }
    ensures opened { OnOk result (OpensFile S.Space ⟦<Hash<S> as Records>⟧ ⟦<Lexicals<S> as Multi>⟧ ⟦<Decimals<S> as Multi>⟧ file table.old table.new space.old space.new) }
    ensures broken { IfErr result (λ e. Breaks e (λ f rule. BreaksHere S.Space ⟦<Hash<S> as Records>⟧ ⟦<Lexicals<S> as Multi>⟧ ⟦<Decimals<S> as Multi>⟧ file table.old space.old f rule)) }
    ensures reads { OnlyReads S.Space space.old space.new }
    ensures not_full { IsErrOf result AnyErr.Full → ⊥ }
    ensures cause { Blamed S.Space (IsErrOf result AnyErr.Fault) space.old space.new }
{
    if space.len(file) == 0 {
        return Ok(());
    }
    open_index(alloc, table, space, row_keys, file)
}

// Opens those of these files that aren't empty, in order, and takes their indexes in behind the others.
fn open_sides<S: Space>(
    alloc: Global,
    table: &mut Tables<S>,
    space: &mut S,
    row_keys: &[Blob],
    files: &[u32],
) -> Result<(), AnyErr>
    requires listed { IsListed S.Space ⟦<Hash<S> as Records>⟧ ⟦<Lexicals<S> as Multi>⟧ ⟦<Decimals<S> as Multi>⟧ table.old row_keys.now space.old }
    requires places { ArePlaces files.now }
    requires free { AreFree ⟦<Lexicals<S> as Multi>⟧ ⟦<Decimals<S> as Multi>⟧ table.old.sides.items files.now }
    ensures opened { OnOk result (OpensSides S.Space ⟦<Hash<S> as Records>⟧ ⟦<Lexicals<S> as Multi>⟧ ⟦<Decimals<S> as Multi>⟧ files.now table.old table.new space.old space.new) }
    ensures broken { IfErr result (λ e. Breaks e (λ f rule. S.tells → BreaksSome S.Space ⟦<Hash<S> as Records>⟧ ⟦<Lexicals<S> as Multi>⟧ ⟦<Decimals<S> as Multi>⟧ files.now f table.old space.old rule)) }
    ensures reads { OnlyReads S.Space space.old space.new }
    ensures not_full { IsErrOf result AnyErr.Full → ⊥ }
    ensures cause { Blamed S.Space (IsErrOf result AnyErr.Fault) space.old space.new }
{
    table_stores::<S>();
    let Some((file, rest)) = files.split_first() else {
        return Ok(());
    };
    open_file(alloc, table, space, row_keys, *file)?;
    open_sides(alloc, table, space, row_keys, rest)?;
    Ok(())
}

impl<S: Space> TableEngine<S> {
    // Makes the empty main file one of a shape, where the files of indexes are empty.
    fn make(alloc: Global, shape: &TableShape, space: &mut S) -> Result<TableEngine<S>, AnyErr>
        requires sound { S.sound space.old }
        requires empty { S.tells → S.now space.old 0 ≡ [] }
        requires numbers { MayHave shape.now }
        ensures created { IfOk result (λ b. CreatesAs S.Space ⟦<TableEngine<S> as Storage>⟧.reopens ⟦<TableEngine<S> as Storage>⟧.holds Shaped b (anew shape.now) shape.now space.new) }
        ensures none { OnOk result (LeavesNone S.Space space.old space.new) }
        ensures broken { NamesNew S.Space result BreaksNew space.old }
        ensures usable { OnOk result (StaysUsable S.Space IsTableFile space.old space.new) }
        ensures refused { RefusesToOpen S.Space result space.old space.new }
        ensures full { IsErrOf result AnyErr.Full → S.tells → Lacks S.Space space.new shape.now }
        ensures beside { IsErrOf result AnyErr.Full → S.tells → AreEmpty (S.now space.old) index_files }
        ensures keeps { Keeps S.Space space.old space.new }
    {
        table_stores::<S>();
        if let Some(file) = first_some(space, &INDEX_FILES) {
            return Err(broken(file, 2));
        }
        let hash = Hash::create(
            alloc,
            space,
            0,
            TABLE,
            shape.apow,
            shape.fpow,
            shape.buckets,
            shape.large,
        )?;
        Ok(TableEngine {
            alloc,
            table: Table::over(alloc, hash),
            total: Some(0),
        })
    }
}

impl<S: Space> Opens for TableEngine<S> {
    type Shape = TableShape;

    ghost may_be = { λ shape. MayHave shape };

    ghost anew = { λ shape. anew shape };

    ghost shaped = { λ shape files. Shaped shape files };

    ghost usual = { usual };

    ghost lacks = { λ space shape. Lacks S.Space space shape };

    ghost breaks = { λ kind files file rule. BreaksAs kind files file rule };

    ghost breaks_new = { λ files file rule. BreaksNew files file rule };

    ghost unbroken = { λ kind files c file rule opens breaks. stands_unbroken kind files c file rule opens breaks };

    fn open(alloc: Global, kind: Kind, space: &mut S) -> Result<TableEngine<S>, AnyErr> {
        if kind != Kind::Table {
            return Err(AnyErr::Broken {
                file: 0,
                rule: Rule {
                    letter: b'L',
                    number: 1,
                },
            });
        }
        if space.len(0) == 0 {
            return Self::make(alloc, &USUAL, space);
        }
        table_stores::<S>();
        let opened = open_rows(alloc, space)?;
        let mut table = opened.0;
        let row_keys = opened.1;
        open_sides(alloc, &mut table, space, row_keys.as_slice(), &INDEX_FILES)?;
        Ok(TableEngine {
            alloc,
            table,
            total: None,
        })
    }

    fn create(alloc: Global, shape: &TableShape, space: &mut S) -> Result<TableEngine<S>, AnyErr> {
        Self::make(alloc, shape, space)
    }
}
