//! The commands that each kind of file has.
ghost use Rattle.std.specs.Prelude.{◌≡◌, IfOk, codes};
ghost use Rattle.tk_words.specs.Words.{texts, or_else};
ghost use Rattle.tk_words.specs.Ranges.{any_range};
ghost use Rattle.tk_words.specs.Options.{number_of, options_of};
ghost use Rattle.tk_words.specs.Commands.{order_by, put_word, are_values};
ghost use Rattle.tk_words.specs.Commands as command;
ghost use Rattle.tk_words.specs.Seen.{Gives, choices, seen};

use crate::names::name_first;
use crate::numbers::ANY;
use crate::options::{Options, Takes, options_first};
use crate::order::{CommandLine, DbName, PutWord};
use crate::tables::{ANSWERS, maximum};
use crate::words::{are_done, copies, first, only};
use std::alloc::{AllocError, Global};
use tc_base::{Blob, Kind};

pub(crate) fn inform(
    alloc: Global,
    kind: Kind,
    words: &[String],
) -> Result<Option<CommandLine>, AllocError>
    ensures { IfOk result (λ o. o ≡ order_by (command.inform kind) (texts words.now)) }
{
    let Some(options) = options_first(alloc, &[], words)? else {
        return Ok(None)
    };
    let Some((name, rest)) = name_first(kind, options.rest) else {
        return Ok(None)
    };
    if !are_done(rest) {
        return Ok(None);
    }
    Ok(Some(CommandLine::Inform {
        kind,
        name: DbName::of(alloc, name)?,
    }))
}

// The options of a put on a kind.
fn put_options<'a>(
    alloc: Global,
    kind: Kind,
    words: &'a [String],
) -> Result<Option<Options<'a>>, AllocError>
    ensures { IfOk result (λ o. Gives seen o (options_of (command.put_options kind) (texts words.now))) }
{
    let map = [("-dk", Takes::Nothing), ("-dc", Takes::Nothing)];
    match kind {
        Kind::Tree => options_first(
            alloc,
            &[
                ("-dk", Takes::Nothing),
                ("-dc", Takes::Nothing),
                ("-dd", Takes::Nothing),
            ],
            words,
        ),
        Kind::Hash => options_first(alloc, &map, words),
        Kind::Fixed => options_first(alloc, &map, words),
        Kind::Table => options_first(alloc, &map, words),
        Kind::MemHash => options_first(alloc, &map, words),
        Kind::MemTree => options_first(alloc, &map, words),
    }
}

fn word_of(options: &Options) -> PutWord
    ensures { result ≡ put_word (choices options.now.taken.items) }
{
    if options.has("-dk") {
        PutWord::Keep
    } else if options.has("-dc") {
        PutWord::Cat
    } else if options.has("-dd") {
        PutWord::Dup
    } else {
        PutWord::Over
    }
}

// Whether the words are what a put on the kind takes behind the key.
fn can_be_put(kind: Kind, words: &[String]) -> bool
    ensures { result ≡ are_values kind (texts words.now) }
{
    match kind {
        Kind::Table => words.len() % 2 == 0,
        Kind::Hash => words.len() == 1,
        Kind::Tree => words.len() == 1,
        Kind::Fixed => words.len() == 1,
        Kind::MemHash => words.len() == 1,
        Kind::MemTree => words.len() == 1,
    }
}

pub(crate) fn put(
    alloc: Global,
    kind: Kind,
    words: &[String],
) -> Result<Option<CommandLine>, AllocError>
    ensures { IfOk result (λ o. o ≡ order_by (command.put kind) (texts words.now)) }
{
    let Some(options) = put_options(alloc, kind, words)? else {
        return Ok(None)
    };
    let Some((name, rest)) = name_first(kind, options.rest) else {
        return Ok(None)
    };
    let Some((key, values)) = first(rest) else {
        return Ok(None)
    };
    if !options.at_most_one() || !can_be_put(kind, values) {
        return Ok(None);
    }
    Ok(Some(CommandLine::Put {
        kind,
        name: DbName::of(alloc, name)?,
        word: word_of(&options),
        key: Blob::from_slice(alloc, key.as_bytes())?,
        values: copies(alloc, values)?,
    }))
}

pub(crate) fn out(
    alloc: Global,
    kind: Kind,
    words: &[String],
) -> Result<Option<CommandLine>, AllocError>
    ensures { IfOk result (λ o. o ≡ order_by (command.out kind) (texts words.now)) }
{
    let Some(options) = options_first(alloc, &[], words)? else {
        return Ok(None)
    };
    let Some((name, rest)) = name_first(kind, options.rest) else {
        return Ok(None)
    };
    let Some(key) = only(rest) else {
        return Ok(None)
    };
    Ok(Some(CommandLine::Out {
        kind,
        name: DbName::of(alloc, name)?,
        key: Blob::from_slice(alloc, key.as_bytes())?,
    }))
}

pub(crate) fn get(
    alloc: Global,
    kind: Kind,
    words: &[String],
) -> Result<Option<CommandLine>, AllocError>
    ensures { IfOk result (λ o. o ≡ order_by (command.get kind) (texts words.now)) }
{
    let Some(options) = options_first(alloc, &[], words)? else {
        return Ok(None)
    };
    let Some((name, rest)) = name_first(kind, options.rest) else {
        return Ok(None)
    };
    let Some(key) = only(rest) else {
        return Ok(None)
    };
    Ok(Some(CommandLine::Get {
        kind,
        name: DbName::of(alloc, name)?,
        key: Blob::from_slice(alloc, key.as_bytes())?,
    }))
}

pub(crate) fn list(
    alloc: Global,
    kind: Kind,
    words: &[String],
) -> Result<Option<CommandLine>, AllocError>
    ensures { IfOk result (λ o. o ≡ order_by (command.list kind) (texts words.now)) }
{
    let table = [("-m", Takes::Number(ANSWERS)), ("-pv", Takes::Nothing)];
    let Some(options) = options_first(alloc, &table, words)? else {
        return Ok(None)
    };
    let Some((name, rest)) = name_first(kind, options.rest) else {
        return Ok(None)
    };
    if !are_done(rest) {
        return Ok(None);
    }
    Ok(Some(CommandLine::List {
        kind,
        name: DbName::of(alloc, name)?,
        maximum: maximum(&options),
        values: options.has("-pv"),
    }))
}

// The options of a packing of a kind.
fn optimize_options<'a>(
    alloc: Global,
    kind: Kind,
    words: &'a [String],
) -> Result<Option<Options<'a>>, AllocError>
    ensures { IfOk result (λ o. Gives seen o (options_of (command.optimize_options kind) (texts words.now))) }
{
    let large = [("-tl", Takes::Nothing)];
    match kind {
        Kind::Fixed => options_first(alloc, &[], words),
        Kind::Hash => options_first(alloc, &large, words),
        Kind::Tree => options_first(alloc, &large, words),
        Kind::Table => options_first(alloc, &large, words),
        Kind::MemHash => options_first(alloc, &large, words),
        Kind::MemTree => options_first(alloc, &large, words),
    }
}

pub(crate) fn optimize(
    alloc: Global,
    kind: Kind,
    words: &[String],
) -> Result<Option<CommandLine>, AllocError>
    ensures { IfOk result (λ o. o ≡ order_by (command.optimize kind) (texts words.now)) }
{
    let Some(options) = optimize_options(alloc, kind, words)? else {
        return Ok(None)
    };
    let Some((name, rest)) = name_first(kind, options.rest) else {
        return Ok(None)
    };
    if !are_done(rest) {
        return Ok(None);
    }
    Ok(Some(CommandLine::Optimize {
        kind,
        name: DbName::of(alloc, name)?,
        large: options.has("-tl"),
    }))
}

pub(crate) fn restore(
    alloc: Global,
    kind: Kind,
    words: &[String],
) -> Result<Option<CommandLine>, AllocError>
    ensures { IfOk result (λ o. o ≡ order_by (command.restore kind) (texts words.now)) }
{
    let table = [("-ts", Takes::Number(ANY))];
    let Some(options) = options_first(alloc, &table, words)? else {
        return Ok(None)
    };
    let Some((name, rest)) = name_first(kind, options.rest) else {
        return Ok(None)
    };
    if !are_done(rest) {
        return Ok(None);
    }
    Ok(Some(CommandLine::Restore {
        kind,
        name: DbName::of(alloc, name)?,
        stamp: options.number(ANY, "-ts").unwrap_or(ANY.most),
    }))
}
