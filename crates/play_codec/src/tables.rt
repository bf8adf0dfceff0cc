//! Lines of tables.

use crate::answers::{asks, error, is_then, value};
use crate::behind::is_behind;
use crate::blocks::{block_text, record};
use crate::heads::{fixed_again, fixed_text, head_again, head_text, tree_text};
use crate::numbers::{decimal, is_field, is_hash, is_number, is_set, spelled, vnum};
use crate::pages::{id_text, is_key, is_leaf, is_page, node_again, node_text};
use crate::slots::{SlotsOf, slotted_again, slotted_text};
use crate::telling::asked;
use crate::texts::{awaited, is_part, is_the_end, piece, said};
use crate::wire::{agrees_in_pieces, has_limit, is_text, is_whole, reply, request_text, wants};
use play_text::{Line, Player, Script, Why, Wrong};
use std::alloc::{AllocError, Global};
use tc_base::Blob;
use ty_wire::{Front, take};

/// What plays tables.
#[derive(Drop)]
pub struct Tables {
    alloc: Global,
}

impl Tables {
    pub fn new(alloc: Global) -> Tables {
        Tables { alloc }
    }
}

// What a page or bytes of the wire are read as.
fn other_text(alloc: Global, what: &str, bytes: &[u8]) -> Result<String, AllocError> {
    match what {
        "node" => node_text(alloc, bytes),
        "slotted_node" => slotted_text(alloc, bytes),
        "page_id" => id_text(alloc, bytes),
        "awaits" => awaited(alloc, bytes),
        _ => request_text(alloc, bytes),
    }
}

// What bytes are read as.
fn text_of(alloc: Global, what: &str, bytes: &[u8]) -> Result<String, AllocError> {
    match what {
        "vnum" => vnum(alloc, bytes),
        "decimal" => decimal(alloc, bytes),
        "head" | "head_read" => head_text(alloc, bytes),
        "fixed" => fixed_text(alloc, bytes),
        "tree_head" => tree_text(alloc, bytes),
        "block" => block_text(alloc, bytes, false),
        "large_block" => block_text(alloc, bytes, true),
        _ => other_text(alloc, what, bytes),
    }
}

// Bytes as they are read and written again.
fn again_of(alloc: Global, what: &str, bytes: &[u8]) -> Result<Blob, AllocError> {
    match what {
        "head" => head_again(alloc, bytes),
        "fixed" => fixed_again(alloc, bytes),
        "node" => node_again(alloc, bytes),
        _ => slotted_again(alloc, bytes),
    }
}

// Looks at what bytes are read as: `BYTES => TEXT`.
fn text_line(alloc: Global, what: &str, line: &mut Line) -> Result<(), Wrong> {
    let bytes = line.given()?;
    line.is_text(text_of(alloc, what, bytes.as_slice())?)
}

// The same of what is written again.
fn again_line(alloc: Global, what: &str, line: &mut Line) -> Result<(), Wrong> {
    let bytes = line.given()?;
    line.told(&bytes, again_of(alloc, what, bytes.as_slice())?.as_slice())?;
    line.is_text(text_of(alloc, what, bytes.as_slice())?)
}

// What is said of bytes as bytes: `BYTES => TEXT`.
fn said_line(alloc: Global, what: &str, line: &mut Line) -> Result<(), Wrong> {
    let bytes = line.given()?;
    let found = match what {
        "said" => said(alloc, bytes.as_slice()),
        _ => piece(alloc, bytes.as_slice()),
    };
    line.is_bytes(found?.as_slice())
}

// What is written behind other bytes.
fn behind_of(alloc: Global, what: &str, line: &mut Line) -> Result<Blob, Wrong> {
    match what {
        "spelled" => spelled(alloc, line),
        "record" => record(alloc, line, false),
        "large_record" => record(alloc, line, true),
        "reply" => reply(alloc, line),
        "value" => value(alloc, line),
        _ => error(alloc, line),
    }
}

// Looks at it: `.. => BYTES`.
fn behind_line(alloc: Global, what: &str, line: &mut Line) -> Result<(), Wrong> {
    let all = behind_of(alloc, what, line)?;
    is_behind(line, &all)
}

// Whether something is so of bytes; `bad`: no request begins with them.
fn holds(alloc: Global, what: &str, bytes: &[u8]) -> Result<bool, AllocError> {
    match what {
        "bad" => Ok(take(bytes) == Front::Bad),
        "in_pieces" => Ok(agrees_in_pieces(bytes)),
        "whole" => Ok(is_whole(bytes)),
        "part" => Ok(is_part(bytes)),
        _ => is_the_end(alloc, bytes),
    }
}

// Looks at bytes of which something is so; of no bytes that says nothing.
fn test_line(alloc: Global, what: &str, line: &mut Line) -> Result<(), Wrong> {
    let bytes = line.bytes()?;
    if bytes.is_empty() {
        return Err(Wrong::Not(Why::Silent));
    }
    line.is_so(holds(alloc, what, bytes.as_slice())?)
}

// Looks at words and what they ask for.
fn is_order(alloc: Global, line: &mut Line) -> Result<(), Wrong> {
    let words = line.words_up_to(" => ")?;
    line.is_text(asked(alloc, &words)?)
}

// Looks at a line on the wire, or on words.
fn wire_line(alloc: Global, what: &str, line: &mut Line) -> Result<(), Wrong> {
    match what {
        "limit" => has_limit(alloc, line),
        "wants" => wants(line),
        "text" => is_text(alloc, line),
        "asks" => asks(alloc, line),
        "then" => is_then(alloc, line),
        "words" => is_order(alloc, line),
        _ => Err(Wrong::Unread),
    }
}

// Looks at a line of a form of its own.
fn other_line(alloc: Global, what: &str, line: &mut Line) -> Result<(), Wrong> {
    match what {
        "number" => is_number(alloc, line),
        "field" => is_field(alloc, line),
        "set" => is_set(alloc, line),
        "hash" => is_hash(alloc, line),
        "leaf" => is_leaf(alloc, line),
        "no_page" => is_page(alloc, line),
        "page_key" => is_key(alloc, line),
        _ => wire_line(alloc, what, line),
    }
}

// Whether bytes are read, and the text of what they are stands behind them.
fn is_read(what: &str) -> bool {
    matches!(
        what,
        "vnum"
            | "decimal"
            | "head_read"
            | "tree_head"
            | "block"
            | "large_block"
            | "page_id"
            | "awaits"
            | "request"
    )
}

// Looks at a line; what is said of a leaf is said of the one of its case.
fn line_of(alloc: Global, slots: &mut SlotsOf, what: &str, line: &mut Line) -> Result<(), Wrong> {
    if is_read(what) {
        return text_line(alloc, what, line);
    }
    match what {
        "slots" | "change" | "now" | "links" | "item" => slots.play(what, line),
        "head" | "fixed" | "node" | "slotted_node" => again_line(alloc, what, line),
        "said" | "piece" => said_line(alloc, what, line),
        "spelled" | "record" | "large_record" | "reply" | "value" | "error" => behind_line(
            alloc, what, line,
        ),
        "bad" | "in_pieces" | "whole" | "part" | "ends" => test_line(alloc, what, line),
        _ => other_line(alloc, what, line),
    }
}

impl Player for Tables {
    fn play(&mut self, script: &mut Script<'_>) -> Result<(), Wrong> {
        let mut slots = SlotsOf::new(self.alloc);
        for _ in 0..script.len() {
            if let Some((what, mut line)) = script.next_line()? {
                line_of(self.alloc, &mut slots, what, &mut line)?;
                script.end(line)?;
            }
        }
        slots.is_told()
    }
}
