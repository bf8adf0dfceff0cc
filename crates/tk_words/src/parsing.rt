//! Words as an order.
ghost use Rattle.std.specs.Prelude.{◌≡◌, IfOk};
ghost use Rattle.tk_words.specs.Words.{texts};
ghost use Rattle.tk_words.specs.Commands.{pick, table_commands, kind_commands, own_commands, kind_of, order_of};

use crate::making::create;
use crate::managing::{get, inform, list, optimize, out, put, restore};
use crate::order::CommandLine;
use crate::serving::{drill, pipe, serve};
use crate::tables::{search, setindex};
use crate::words::{first, is};
use std::alloc::{AllocError, Global};
use tc_base::Kind;

fn kind_named(word: &str) -> Option<Kind>
    ensures { result ≡ kind_of word.now }
{
    if is(word, "hash") {
        Some(Kind::Hash)
    } else if is(word, "tree") {
        Some(Kind::Tree)
    } else if is(word, "fixed") {
        Some(Kind::Fixed)
    } else if is(word, "table") {
        Some(Kind::Table)
    } else {
        None
    }
}

// A command that tables alone have.
fn of_tables(
    alloc: Global,
    command: &str,
    words: &[String],
) -> Result<Option<CommandLine>, AllocError>
    ensures { IfOk result (λ o. o ≡ pick (table_commands Kind.Table) command.now (texts words.now)) }
{
    if is(command, "setindex") {
        setindex(alloc, words)
    } else if is(command, "search") {
        search(alloc, words)
    } else {
        Ok(None)
    }
}

fn of_some(
    alloc: Global,
    kind: Kind,
    command: &str,
    words: &[String],
) -> Result<Option<CommandLine>, AllocError>
    ensures { IfOk result (λ o. o ≡ pick (table_commands kind) command.now (texts words.now)) }
{
    match kind {
        Kind::Table => of_tables(alloc, command, words),
        Kind::Hash => Ok(None),
        Kind::Tree => Ok(None),
        Kind::Fixed => Ok(None),
        Kind::MemHash => Ok(None),
        Kind::MemTree => Ok(None),
    }
}

// A command of a kind.
fn of_kind(
    alloc: Global,
    kind: Kind,
    command: &str,
    words: &[String],
) -> Result<Option<CommandLine>, AllocError>
    ensures { IfOk result (λ o. o ≡ pick (kind_commands kind) command.now (texts words.now)) }
{
    if is(command, "create") {
        create(alloc, kind, words)
    } else if is(command, "inform") {
        inform(alloc, kind, words)
    } else if is(command, "put") {
        put(alloc, kind, words)
    } else if is(command, "out") {
        out(alloc, kind, words)
    } else if is(command, "get") {
        get(alloc, kind, words)
    } else if is(command, "list") {
        list(alloc, kind, words)
    } else if is(command, "optimize") {
        optimize(alloc, kind, words)
    } else if is(command, "restore") {
        restore(alloc, kind, words)
    } else {
        of_some(alloc, kind, command, words)
    }
}

// A command that has no kind.
fn of_program(
    alloc: Global,
    command: &str,
    words: &[String],
) -> Result<Option<CommandLine>, AllocError>
    ensures { IfOk result (λ o. o ≡ pick own_commands command.now (texts words.now)) }
{
    if is(command, "pipe") {
        pipe(alloc, words)
    } else if is(command, "serve") {
        serve(alloc, words)
    } else if is(command, "drill") {
        drill(alloc, words)
    } else {
        Ok(None)
    }
}

/// The order that the words behind the program's name give, None exactly where they aren't in the set of commands.
#[tactic(auto, unfolding(crate::specs::Commands::order_of))]
pub fn parse(alloc: Global, words: &Vec<String>) -> Result<Option<CommandLine>, AllocError>
    ensures { IfOk result (λ o. o ≡ order_of (texts words.now.items)) }
{
    let Some((word, rest)) = first(words.as_slice()) else {
        return Ok(None)
    };
    let Some(kind) = kind_named(word) else {
        return of_program(alloc, word, rest)
    };
    let Some((command, rest)) = first(rest) else {
        return Ok(None)
    };
    of_kind(alloc, kind, command, rest)
}
