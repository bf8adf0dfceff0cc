//! The commands that make a file.
ghost use Rattle.std.specs.Prelude.{◌≡◌, ◌≤◌, IfOk, IfSome};
ghost use Rattle.tk_words.specs.Words.{texts};
ghost use Rattle.tk_words.specs.Commands.{next, map_of, tree_of, fixed_of, create_order, order_by};
ghost use Rattle.tk_words.specs.Commands as command;
ghost use Rattle.tk_words.specs.Options.{options_of};
ghost use Rattle.tk_words.specs.Seen.{Gives, choices, seen};

use crate::names::name_first;
use crate::numbers::{Range, number_in};
use crate::options::{Options, Takes, options_first};
use crate::order::{CommandLine, DbName};
use crate::words::{are_done, first};
use std::alloc::{AllocError, Global};
use tc_base::{FILE_LIMIT_LEAST, FILE_MOST, Kind, WIDTH_MOST};

const BUCKETS: Range = Range {
    least: 1,
    most: 16_777_216,
};

const ALIGNMENTS: Range = Range { least: 4, most: 16 };

const POOLS: Range = Range { least: 0, most: 20 };

// Of a leaf or a node.
const MEMBERS: Range = Range {
    least: 4,
    most: 256,
};

const WIDTHS: Range = Range {
    least: 1,
    most: WIDTH_MOST as u64,
};

// In bytes.
const SIZES: Range = Range {
    least: FILE_LIMIT_LEAST,
    most: FILE_MOST,
};

// A number that may be left out with all that is behind it, and the words behind it.
fn number_first(range: Range, default: u64, words: &[String]) -> Option<(u64, &[String])>
    requires { default ≤ range.most }
    ensures value { Gives (λ p. (p.0, texts p.1.now)) result (next range default (texts words.now)) }
    ensures within { IfSome result (λ p. p.0 ≤ range.most) }
{
    let Some((word, rest)) = first(words) else {
        return Some((default, words))
    };
    let Some(number) = number_in(range, word) else {
        return None
    };
    Some((number, rest))
}

fn map(
    alloc: Global,
    kind: Kind,
    large: bool,
    name: &str,
    words: &[String],
) -> Result<Option<CommandLine>, AllocError>
    ensures { IfOk result (λ o. o ≡ map_of kind large name.now (texts words.now)) }
{
    let Some((bnum, rest)) = number_first(BUCKETS, 131_071, words) else {
        return Ok(None)
    };
    let Some((apow, rest)) = number_first(ALIGNMENTS, 4, rest) else {
        return Ok(None)
    };
    let Some((fpow, rest)) = number_first(POOLS, 10, rest) else {
        return Ok(None)
    };
    if !are_done(rest) {
        return Ok(None);
    }
    Ok(Some(CommandLine::Create {
        kind,
        name: DbName::of(alloc, name)?,
        bnum,
        apow: apow as u8,
        fpow: fpow as u8,
        decimal: false,
        lmemb: 0,
        nmemb: 0,
        width: 0,
        limsiz: 0,
        large,
    }))
}

fn tree(
    alloc: Global,
    decimal: bool,
    large: bool,
    name: &str,
    words: &[String],
) -> Result<Option<CommandLine>, AllocError>
    ensures { IfOk result (λ o. o ≡ tree_of decimal large name.now (texts words.now)) }
{
    let Some((lmemb, rest)) = number_first(MEMBERS, 128, words) else {
        return Ok(None)
    };
    let Some((nmemb, rest)) = number_first(MEMBERS, 256, rest) else {
        return Ok(None)
    };
    let Some((bnum, rest)) = number_first(BUCKETS, 32_749, rest) else {
        return Ok(None)
    };
    let Some((apow, rest)) = number_first(ALIGNMENTS, 8, rest) else {
        return Ok(None)
    };
    let Some((fpow, rest)) = number_first(POOLS, 10, rest) else {
        return Ok(None)
    };
    if !are_done(rest) {
        return Ok(None);
    }
    Ok(Some(CommandLine::Create {
        kind: Kind::Tree,
        name: DbName::of(alloc, name)?,
        bnum,
        apow: apow as u8,
        fpow: fpow as u8,
        decimal,
        lmemb: lmemb as u32,
        nmemb: nmemb as u32,
        width: 0,
        limsiz: 0,
        large,
    }))
}

fn fixed(alloc: Global, name: &str, words: &[String]) -> Result<Option<CommandLine>, AllocError>
    ensures { IfOk result (λ o. o ≡ fixed_of name.now (texts words.now)) }
{
    let Some((width, rest)) = number_first(WIDTHS, 255, words) else {
        return Ok(None)
    };
    let Some((limsiz, rest)) = number_first(SIZES, 268_435_456, rest) else {
        return Ok(None)
    };
    if !are_done(rest) {
        return Ok(None);
    }
    Ok(Some(CommandLine::Create {
        kind: Kind::Fixed,
        name: DbName::of(alloc, name)?,
        bnum: 0,
        apow: 0,
        fpow: 0,
        decimal: false,
        lmemb: 0,
        nmemb: 0,
        width: width as u32,
        limsiz,
        large: false,
    }))
}

fn made(
    alloc: Global,
    kind: Kind,
    options: &Options,
    name: &str,
    words: &[String],
) -> Result<Option<CommandLine>, AllocError>
    ensures { IfOk result (λ o. o ≡ create_order kind (choices options.now.taken.items) name.now (texts words.now)) }
{
    let large = options.has("-tl");
    match kind {
        Kind::Tree => tree(alloc, options.has("-cd"), large, name, words),
        Kind::Fixed => fixed(alloc, name, words),
        Kind::Hash => map(alloc, kind, large, name, words),
        Kind::Table => map(alloc, kind, large, name, words),
        Kind::MemHash => map(alloc, kind, large, name, words),
        Kind::MemTree => map(alloc, kind, large, name, words),
    }
}

// The options of a kind.
fn options_of_kind<'a>(
    alloc: Global,
    kind: Kind,
    words: &'a [String],
) -> Result<Option<Options<'a>>, AllocError>
    ensures { IfOk result (λ o. Gives seen o (options_of (command.create_options kind) (texts words.now))) }
{
    match kind {
        Kind::Tree => options_first(
            alloc,
            &[("-cd", Takes::Nothing), ("-tl", Takes::Nothing)],
            words,
        ),
        Kind::Fixed => options_first(alloc, &[], words),
        Kind::Hash => options_first(alloc, &[("-tl", Takes::Nothing)], words),
        Kind::Table => options_first(alloc, &[("-tl", Takes::Nothing)], words),
        Kind::MemHash => options_first(alloc, &[("-tl", Takes::Nothing)], words),
        Kind::MemTree => options_first(alloc, &[("-tl", Takes::Nothing)], words),
    }
}

pub(crate) fn create(
    alloc: Global,
    kind: Kind,
    words: &[String],
) -> Result<Option<CommandLine>, AllocError>
    ensures { IfOk result (λ o. o ≡ order_by (command.create kind) (texts words.now)) }
{
    let Some(options) = options_of_kind(alloc, kind, words)? else {
        return Ok(None)
    };
    let Some((name, rest)) = name_first(kind, options.rest) else {
        return Ok(None)
    };
    made(alloc, kind, &options, name, rest)
}
