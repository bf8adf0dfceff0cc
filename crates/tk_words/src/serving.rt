//! The commands that serve, and the drill.
ghost use Rattle.std.specs.Prelude.{◌≡◌, IfOk, codes};
ghost use Rattle.tk_words.specs.Words.{texts, or_else};
ghost use Rattle.tk_words.specs.Ranges.{port_range, server_range};
ghost use Rattle.tk_words.specs.Options.{text_of, number_of, options_of};
ghost use Rattle.tk_words.specs.Commands.{order_by, serves, serve_order};
ghost use Rattle.tk_words.specs.Commands as command;
ghost use Rattle.tk_words.specs.Seen.{Gives, choices, seen};

use crate::names::{names_any, names_memory};
use crate::numbers::{ANY, Range, number_in};
use crate::options::{Options, Takes, options_first};
use crate::order::{CommandLine, DbName};
use crate::words::{first, only};
use std::alloc::{AllocError, Global};
use tc_base::Blob;

const PORTS: Range = Range {
    least: 1,
    most: 65_535,
};

const SERVERS: Range = Range {
    least: 0,
    most: 65_535,
};

// In bytes.
const LIMITS: Range = Range {
    least: 256,
    most: 1_099_511_627_776,
};

const TURNS: Range = Range {
    least: 1,
    most: u64::MAX,
};

const COUNTS: Range = Range {
    least: 0,
    most: 1_000_000,
};

pub(crate) fn pipe(alloc: Global, words: &[String]) -> Result<Option<CommandLine>, AllocError>
    ensures { IfOk result (λ o. o ≡ order_by command.pipe (texts words.now)) }
{
    let Some(options) = options_first(alloc, &[], words)? else {
        return Ok(None)
    };
    let Some(name) = only(options.rest) else {
        return Ok(None)
    };
    if !names_any(name) {
        return Ok(None);
    }
    Ok(Some(CommandLine::Pipe {
        name: DbName::of(alloc, name)?,
    }))
}

pub(crate) fn drill(alloc: Global, words: &[String]) -> Result<Option<CommandLine>, AllocError>
    ensures { IfOk result (λ o. o ≡ order_by command.drill (texts words.now)) }
{
    let Some(options) = options_first(alloc, &[], words)? else {
        return Ok(None)
    };
    let Some((seed, rest)) = first(options.rest) else {
        return Ok(None)
    };
    let Some(seed) = number_in(ANY, seed) else {
        return Ok(None)
    };
    let Some((count, rest)) = first(rest) else {
        return Ok(None)
    };
    let Some(count) = number_in(COUNTS, count) else {
        return Ok(None)
    };
    let Some(name) = only(rest) else {
        return Ok(None)
    };
    if !names_any(name) {
        return Ok(None);
    }
    Ok(Some(CommandLine::Drill {
        seed,
        count: count as u32,
        name: DbName::of(alloc, name)?,
    }))
}

// Whether the options of `serve` go together: a master has a host and a port and is followed with an update log, and a database in memory has no log.
fn go_together(options: &Options, name: &str) -> bool
    ensures { result ≡ serves (choices options.now.taken.items) name.now }
{
    let log = options.has("-ulog");
    let port = options.has("-mport");
    if log && names_memory(name) {
        return false;
    }
    if options.has("-mhost") {
        port && log
    } else {
        !port
    }
}

fn host(alloc: Global, options: &Options) -> Result<Blob, AllocError>
    ensures { IfOk result (λ h. h ≡ or_else (text_of (choices options.now.taken.items) (codes "-host")) (codes "127.0.0.1")) }
{
    let host = options.text("-host").unwrap_or("127.0.0.1");
    Blob::from_slice(alloc, host.as_bytes())
}

fn master_host(alloc: Global, options: &Options) -> Result<Option<Blob>, AllocError>
    ensures { IfOk result (λ h. h ≡ text_of (choices options.now.taken.items) (codes "-mhost")) }
{
    let Some(host) = options.text("-mhost") else {
        return Ok(None)
    };
    Ok(Some(Blob::from_slice(alloc, host.as_bytes())?))
}

fn port(options: &Options, option: &str, default: u16) -> u16
    ensures { result ≡ or_else (number_of port_range (choices options.now.taken.items) option.now) default }
{
    match options.number(PORTS, option) {
        Some(port) => port as u16,
        None => default,
    }
}

fn server_id(options: &Options) -> u16
    ensures { result ≡ or_else (number_of server_range (choices options.now.taken.items) (codes "-sid")) 0 }
{
    match options.number(SERVERS, "-sid") {
        Some(id) => id as u16,
        None => 0,
    }
}

fn serve_as(alloc: Global, options: &Options, name: &str) -> Result<CommandLine, AllocError>
    ensures { IfOk result (λ o. o ≡ serve_order (choices options.now.taken.items) name.now) }
{
    Ok(CommandLine::Serve {
        name: DbName::of(alloc, name)?,
        host: host(alloc, options)?,
        port: port(options, "-port", 1978),
        ulog: options.has("-ulog"),
        sid: server_id(options),
        mhost: master_host(alloc, options)?,
        mport: port(options, "-mport", 0),
        limit: options.number(LIMITS, "-lim").unwrap_or(LIMITS.most),
        turns: options.number(TURNS, "-turns").unwrap_or(TURNS.most),
    })
}

fn serve_options<'a>(alloc: Global, words: &'a [String]) -> Result<Option<Options<'a>>, AllocError>
    ensures { IfOk result (λ o. Gives seen o (options_of command.serve_options (texts words.now))) }
{
    let table = [
        ("-host", Takes::Text),
        ("-port", Takes::Number(PORTS)),
        ("-ulog", Takes::Nothing),
        ("-sid", Takes::Number(SERVERS)),
        ("-mhost", Takes::Text),
        ("-mport", Takes::Number(PORTS)),
        ("-lim", Takes::Number(LIMITS)),
        ("-turns", Takes::Number(TURNS)),
    ];
    options_first(alloc, &table, words)
}

pub(crate) fn serve(alloc: Global, words: &[String]) -> Result<Option<CommandLine>, AllocError>
    ensures { IfOk result (λ o. o ≡ order_by command.serve (texts words.now)) }
{
    let Some(options) = serve_options(alloc, words)? else {
        return Ok(None)
    };
    let Some(name) = only(options.rest) else {
        return Ok(None)
    };
    if !names_any(name) || !go_together(&options, name) {
        return Ok(None);
    }
    Ok(Some(serve_as(alloc, &options, name)?))
}
