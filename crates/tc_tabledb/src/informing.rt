//! What an inspection tells of the files.
ghost use Rattle.std.specs.Prelude.{◌≡◌, ◌≤◌, ◌++◌, take, IfOk, OnOk, Some};
ghost use Rattle.std.specs.FinMap.{entries};
ghost use Rattle.hf_head.specs.Heads.{IsValid, head_in, is_large};
ghost use Rattle.tc_hash.specs.Opening.{HasHead};
ghost use Rattle.tc_space.specs.Frames.{OnlyReads};
ghost use Rattle.tc_space.specs.Refusals.{Blames};
ghost use Rattle.tc_tabledb.specs.Holding.{indexes_of};
ghost use Rattle.tc_tabledb.specs.Informing.{form_line, head_lines, index_line, index_lines, kind_word, words_of};
ghost use Rattle.ty_wire.specs.Prefixes.{IsPrefix};

use hf_head::Head;
use std::alloc::{AllocError, Global};
use tc_base::{Blob, Key};
use tc_engine::add_line;
use tc_maps::Bytemap;
use tc_model::IndexKind;
use tc_space::{RecErr, Space};
use tc_table::Side;

// The word of a type.
fn kind_word(kind: IndexKind) -> &'static [u8]
    ensures { result.now ≡ kind_word kind }
{
    match kind {
        IndexKind::Lexical => b"lexical".as_slice(),
        IndexKind::Decimal => b"decimal".as_slice(),
        IndexKind::Token => b"token".as_slice(),
    }
}

// Adds a line of an index.
fn add_index(name: &[u8], word: &[u8], into: &mut Blob) -> Result<(), AllocError>
    ensures added { OnOk result (into.new ≡ into.old ++ index_line name.now word.now) }
    ensures front { IsPrefix into.old into.new }
{
    into.append(b"index ")?;
    into.append(name)?;
    into.append(b": ")?;
    into.append(word)?;
    into.push(b'\n')?;
    Ok(())
}

// The word of each index by its name.
fn index_words<L, D>(alloc: Global, sides: &[Side<L, D>]) -> Result<Bytemap, AllocError>
    ensures { IfOk result (λ words. words ≡ words_of (indexes_of sides.now)) }
{
    let Some((first, rest)) = sides.split_first() else {
        return Ok(Bytemap::new(alloc));
    };
    let mut words = index_words(alloc, rest)?;
    let name = Key::from_slice(alloc, first.tree.name().as_slice())?;
    let word = Blob::from_slice(alloc, kind_word(first.kind))?;
    words.set(name, word)?;
    Ok(words)
}

// Adds a line each, by name ascending.
fn add_words(words: &Bytemap, least: &Key, into: &mut Blob) -> Result<(), AllocError>
    requires { least.now ≡ [] }
    ensures added { OnOk result (into.new ≡ into.old ++ flat_map (λ e. index_line e.0 e.1) (entries words.now)) }
    ensures front { IsPrefix into.old into.new }
{
    for (name, word) in words.entries_from(least) {
        add_index(name.as_slice(), word.as_slice(), into)?;
    }
    Ok(())
}

/// Adds a line an index, by name ascending.
pub(crate) fn add_indexes<L, D>(
    alloc: Global,
    sides: &[Side<L, D>],
    into: &mut Blob,
) -> Result<(), AllocError>
    ensures added { OnOk result (into.new ≡ into.old ++ index_lines (indexes_of sides.now)) }
    ensures front { IsPrefix into.old into.new }
{
    let words = index_words(alloc, sides)?;
    let least = Key::new(Blob::new(alloc));
    add_words(&words, &least, into)
}

// Adds the number of buckets, the unit, the power of the free block pool, the file size and the place of the first block, a line each.
fn add_head(head: &Head, into: &mut Blob) -> Result<(), AllocError>
    requires { head.now.apow ≤ 16 }
    ensures added { OnOk result (into.new ≡ into.old ++ head_lines head.now) }
    ensures front { IsPrefix into.old into.new }
{
    add_line(b"bucket number: ", head.buckets, into)?;
    add_line(b"alignment: ", head.unit(), into)?;
    add_line(b"free pool power: ", u64::from(head.fpow), into)?;
    add_line(b"file size: ", head.size, into)?;
    add_line(b"first record: ", head.first, into)
}

// Adds a line for the large form.
fn add_form(large: bool, into: &mut Blob) -> Result<(), AllocError>
    ensures added { OnOk result (into.new ≡ into.old ++ form_line large) }
    ensures front { IsPrefix into.old into.new }
{
    if large {
        into.append(b"option: large\n")?;
    }
    Ok(())
}

/// Adds the lines of the main file, those of the indexes, and one more for the large form.
pub(crate) fn add_lines<L, D>(
    alloc: Global,
    head: &Head,
    sides: &[Side<L, D>],
    into: &mut Blob,
) -> Result<(), AllocError>
    requires { head.now.apow ≤ 16 }
    ensures added { OnOk result (into.new ≡ into.old ++ (head_lines head.now ++ (index_lines (indexes_of sides.now) ++ form_line (is_large head.now)))) }
    ensures front { IsPrefix into.old into.new }
{
    add_head(head, into)?;
    add_indexes(alloc, sides, into)?;
    add_form(head.is_large(), into)
}

/// The head of the main file, which must have one.
pub(crate) fn read_head<S: Space>(space: &mut S) -> Result<Option<Head>, RecErr>
    requires sound { S.sound space.old }
    requires head { S.tells → (h : Head) × HasHead 3 (S.now space.old 0) h }
    ensures head { IfOk result (λ found. S.tells → (h : Head) × (found ≡ Some h) × (head_in (take 256 (S.now space.old 0)) ≡ h)) }
    ensures valid { IfOk result (λ found. (h : Head) → found ≡ Some h → IsValid h) }
    ensures reads { OnlyReads S.Space space.old space.new }
    ensures cause { Blames S.Space result space.old space.new }
{
    let mut bytes = [0; 256];
    space.read(0, 0, &mut bytes)?;
    match Head::read(&bytes) {
        Ok(head) => Ok(Some(head)),
        Err(_) => Ok(None),
    }
}

ghost use Rattle.std.specs.Prelude.{[], flat_map};
