//! The commands that only tables have.
ghost use Rattle.std.specs.Prelude.{◌≡◌, IfOk, codes};
ghost use Rattle.tk_words.specs.Words.{texts, or_else};
ghost use Rattle.tk_words.specs.Ranges.{answers_range};
ghost use Rattle.tk_words.specs.Options.{number_of, options_of};
ghost use Rattle.tk_words.specs.Commands.{order_by, are_conditions, search_order};
ghost use Rattle.tk_words.specs.Commands as command;
ghost use Rattle.tk_words.specs.Seen.{Gives, choices, seen, operator_front};

use crate::names::name_first;
use crate::numbers::{Range, digits_only};
use crate::options::{Options, Takes, options_first};
use crate::order::{CommandLine, DbName};
use crate::words::{are_done, copies, first, only};
use std::alloc::{AllocError, Global};
use tc_base::{Blob, Kind};

/// How many answers to give, or to leave out.
pub(crate) const ANSWERS: Range = Range {
    least: 0,
    most: 2_147_483_647,
};

/// The most answers, None where there is no limit.
pub(crate) fn maximum(options: &Options) -> Option<u32>
    ensures { result ≡ number_of answers_range (choices options.now.taken.items) (codes "-m") }
{
    match options.number(ANSWERS, "-m") {
        Some(number) => Some(number as u32),
        None => None,
    }
}

// How many answers are left out at the front.
fn skipped(options: &Options) -> u32
    ensures { result ≡ or_else (number_of answers_range (choices options.now.taken.items) (codes "-sk")) 0 }
{
    match options.number(ANSWERS, "-sk") {
        Some(number) => number as u32,
        None => 0,
    }
}

pub(crate) fn setindex(alloc: Global, words: &[String]) -> Result<Option<CommandLine>, AllocError>
    ensures { IfOk result (λ o. o ≡ order_by command.setindex (texts words.now)) }
{
    let table = [("-it", Takes::Index)];
    let Some(options) = options_first(alloc, &table, words)? else {
        return Ok(None)
    };
    let Some((name, rest)) = name_first(Kind::Table, options.rest) else {
        return Ok(None)
    };
    let Some(column) = only(rest) else {
        return Ok(None)
    };
    Ok(Some(CommandLine::SetIndex {
        name: DbName::of(alloc, name)?,
        column: Blob::from_slice(alloc, column.as_bytes())?,
        code: options.code("-it").unwrap_or(0),
    }))
}

// The operator of the condition at the front, and the words behind the condition.
fn operator_first(words: &[String]) -> Option<(&str, &[String])>
    ensures { Gives (λ p. (p.0.now, texts p.1.now)) result (operator_front (texts words.now)) }
{
    let Some((_, rest)) = first(words) else {
        return None
    };
    let Some((operator, rest)) = first(rest) else {
        return None
    };
    let Some((_, rest)) = first(rest) else {
        return None
    };
    Some((operator, rest))
}

fn are_triples(words: &[String]) -> bool
    ensures { result ≡ are_conditions (texts words.now) }
{
    let mut rest = words;
    while let Some((operator, behind)) = operator_first(rest) {
        if !digits_only(operator) {
            return false;
        }
        rest = behind;
    }
    are_done(rest)
}

fn search_as(
    alloc: Global,
    options: &Options,
    name: &str,
    triples: &[String],
) -> Result<CommandLine, AllocError>
    ensures { IfOk result (λ o. o ≡ search_order (choices options.now.taken.items) name.now (texts triples.now)) }
{
    Ok(CommandLine::Search {
        name: DbName::of(alloc, name)?,
        triples: copies(alloc, triples)?,
        sort: options.sort(alloc, "-ord")?,
        maximum: maximum(options),
        skip: skipped(options),
        values: options.has("-pv"),
        remove: options.has("-rm"),
    })
}

fn search_options<'a>(alloc: Global, words: &'a [String]) -> Result<Option<Options<'a>>, AllocError>
    ensures { IfOk result (λ o. Gives seen o (options_of command.search_options (texts words.now))) }
{
    let table = [
        ("-ord", Takes::Sort),
        ("-m", Takes::Number(ANSWERS)),
        ("-sk", Takes::Number(ANSWERS)),
        ("-pv", Takes::Nothing),
        ("-rm", Takes::Nothing),
    ];
    options_first(alloc, &table, words)
}

pub(crate) fn search(alloc: Global, words: &[String]) -> Result<Option<CommandLine>, AllocError>
    ensures { IfOk result (λ o. o ≡ order_by command.search (texts words.now)) }
{
    let Some(options) = search_options(alloc, words)? else {
        return Ok(None)
    };
    let Some((name, rest)) = name_first(Kind::Table, options.rest) else {
        return Ok(None)
    };
    if options.has("-pv") && options.has("-rm") || !are_triples(rest) {
        return Ok(None);
    }
    Ok(Some(search_as(alloc, &options, name, rest)?))
}
