//! What words ask for, as text.

use crate::told::Told;
use std::alloc::{AllocError, Global};
use tc_base::{Blob, Kind, Pair};
use tk_words::{CommandLine, PutWord, parse};

fn kind_word(kind: Kind) -> &'static str {
    match kind {
        Kind::Hash => "hash",
        Kind::Tree => "tree",
        Kind::Fixed => "fixed",
        Kind::Table => "table",
        Kind::MemHash => "*",
        Kind::MemTree => "+",
    }
}

fn put_word(word: PutWord) -> &'static str {
    match word {
        PutWord::Over => "over",
        PutWord::Keep => "keep",
        PutWord::Cat => "cat",
        PutWord::Dup => "dup",
    }
}

// A command, and the file that it is of.
fn tell_command(command: &str, kind: Kind, name: &str, told: &mut Told) {
    told.word(command);
    told.word(kind_word(kind));
    told.word(name);
}

// A number at most, or `all`.
fn tell_most(maximum: Option<u32>, told: &mut Told) {
    told.word("most");
    match maximum {
        Some(most) => told.numbers(&[u64::from(most)]),
        None => told.word("all"),
    }
}

// A master's host, or `none`.
fn tell_master(host: &Option<Blob>, told: &mut Told) {
    told.word("master");
    match host {
        Some(host) => told.text(host),
        None => told.word("none"),
    }
}

// A column and how it sorts, or `none`.
fn tell_sort(sort: &Option<Pair>, told: &mut Told) {
    told.word("sort");
    match sort {
        Some(pair) => told.pair(pair),
        None => told.word("none"),
    }
}

fn tell_table(order: &CommandLine, told: &mut Told) {
    match order {
        CommandLine::SetIndex { name, column, code } => {
            told.word("setindex");
            told.word(name.as_str());
            told.text(column);
            told.numbers(&[u64::from(*code)]);
        }
        CommandLine::Search {
            name,
            triples,
            sort,
            maximum,
            skip,
            values,
            remove,
        } => {
            told.word("search");
            told.word(name.as_str());
            told.texts(triples);
            tell_sort(sort, told);
            tell_most(*maximum, told);
            told.named("skip", u64::from(*skip));
            told.is("values", *values);
            told.is("remove", *remove);
        }
        _ => told.word("other"),
    }
}

fn tell_record(order: &CommandLine, told: &mut Told) {
    match order {
        CommandLine::Put {
            kind,
            name,
            word,
            key,
            values,
        } => {
            tell_command("put", *kind, name.as_str(), told);
            told.word(put_word(*word));
            told.text(key);
            told.texts(values);
        }
        CommandLine::Out { kind, name, key } => {
            tell_command("out", *kind, name.as_str(), told);
            told.text(key);
        }
        CommandLine::Get { kind, name, key } => {
            tell_command("get", *kind, name.as_str(), told);
            told.text(key);
        }
        _ => tell_table(order, told),
    }
}

fn tell_file(order: &CommandLine, told: &mut Told) {
    match order {
        CommandLine::Inform { kind, name } => {
            tell_command("inform", *kind, name.as_str(), told);
        }
        CommandLine::List {
            kind,
            name,
            maximum,
            values,
        } => {
            tell_command("list", *kind, name.as_str(), told);
            tell_most(*maximum, told);
            told.is("values", *values);
        }
        CommandLine::Optimize { kind, name, large } => {
            tell_command("optimize", *kind, name.as_str(), told);
            told.is("large", *large);
        }
        CommandLine::Restore { kind, name, stamp } => {
            tell_command("restore", *kind, name.as_str(), told);
            told.numbers(&[*stamp]);
        }
        _ => tell_record(order, told),
    }
}

fn tell(order: &CommandLine, told: &mut Told) {
    match order {
        CommandLine::Pipe { name } => {
            told.word("pipe");
            told.word(name.as_str());
        }
        CommandLine::Drill { seed, count, name } => {
            told.word("drill");
            told.numbers(&[*seed, u64::from(*count)]);
            told.word(name.as_str());
        }
        CommandLine::Serve {
            name,
            host,
            port,
            ulog,
            sid,
            mhost,
            mport,
            limit,
            turns,
        } => {
            told.word("serve");
            told.word(name.as_str());
            told.text(host);
            told.numbers(&[u64::from(*port)]);
            told.is("log", *ulog);
            told.named("id", u64::from(*sid));
            tell_master(mhost, told);
            told.numbers(&[u64::from(*mport)]);
            told.named("limit", *limit);
            told.named("turns", *turns);
        }
        CommandLine::Create {
            kind,
            name,
            bnum,
            apow,
            fpow,
            decimal,
            lmemb,
            nmemb,
            width,
            limsiz,
            large,
        } => {
            tell_command("create", *kind, name.as_str(), told);
            told.numbers(&[*bnum, u64::from(*apow), u64::from(*fpow)]);
            told.is("decimal", *decimal);
            told.numbers(&[u64::from(*lmemb), u64::from(*nmemb)]);
            told.numbers(&[u64::from(*width), *limsiz]);
            told.is("large", *large);
        }
        _ => tell_file(order, told),
    }
}

/// What words ask for, `-` where they are refused.
pub fn asked(alloc: Global, words: &Vec<String>) -> Result<String, AllocError> {
    let order = parse(alloc, words)?;
    let mut told = Told::new(alloc);
    match &order {
        Some(order) => tell(order, &mut told),
        None => told.word("-"),
    }
    drop(order);
    told.end()
}
