//! The parts that a text has.
ghost use Rattle.std.specs.Prelude.{◌≡◌, ◌<◌, ◌≤◌, IfOk, MatchOption, filter, length, drop};
ghost use Rattle.std.specs.List.{position_or_len, slice_split};
ghost use Rattle.tc_model.specs.Texts.{distinct, is_among, parts, tokens, not_empty, with_text};
ghost use Rattle.tc_plain.specs.Splits.{cuts};

use std::alloc::{AllocError, Global};
use tc_base::{Blob, Blobs};

/// Whether a text is one of some.
pub fn is_among(text: &[u8], texts: &[Blob]) -> bool
    ensures { result ≡ is_among text.now texts.now }
{
    for other in texts {
        if text == other.as_slice() {
            return true;
        }
    }
    false
}

// Whether texts are cut at a byte: at spaces and commas, or at zero bytes.
fn is_cut(blank: bool, b: u8) -> bool
    ensures { result ≡ cuts blank b }
{
    if blank {
        b == b' ' || b == b','
    } else {
        b == 0
    }
}

// The first byte at which a text is cut, if there is one.
fn cut_of(blank: bool, text: &[u8]) -> Option<usize>
    ensures { MatchOption result (position_or_len (cuts blank) text.now ≡ length text.now) (λ i. (i ≡ position_or_len (cuts blank) text.now) × (i < length text.now)) }
{
    for (i, b) in text.iter().enumerate() {
        if is_cut(blank, *b) {
            return Some(i);
        }
    }
    None
}

// What stands from a place on.
fn behind(text: &[u8], at: usize) -> &[u8]
    requires { at ≤ length text.now }
    ensures { result.now ≡ drop at text.now }
{
    &text[at..]
}

// The parts of a text.
fn split(alloc: Global, blank: bool, text: &[u8]) -> Result<Blobs, AllocError>
    ensures { IfOk result (λ ps. ps ≡ slice_split (cuts blank) text.now) }
{
    let mut found = Blobs::new(alloc);
    let mut rest = text;
    while let Some(at) = cut_of(blank, rest) {
        found.push(Blob::from_slice(alloc, &rest[..at])?)?;
        rest = behind(rest, at + 1);
    }
    found.push(Blob::from_slice(alloc, rest)?)?;
    Ok(found)
}

/// The parts between zero bytes; of no bytes one empty part.
pub fn parts(alloc: Global, text: &[u8]) -> Result<Blobs, AllocError>
    ensures { IfOk result (λ ps. ps ≡ parts text.now) }
{
    split(alloc, false, text)
}

// The texts that aren't empty.
fn filled(alloc: Global, texts: &[Blob]) -> Result<Blobs, AllocError>
    ensures { IfOk result (λ ts. ts ≡ filter not_empty texts.now) }
{
    let mut found = Blobs::new(alloc);
    for text in texts {
        if text.len() >= 1 {
            found.push(Blob::from_slice(alloc, text.as_slice())?)?;
        }
    }
    Ok(found)
}

/// The tokens: the longest runs of bytes other than space and comma.
pub fn tokens(alloc: Global, text: &[u8]) -> Result<Blobs, AllocError>
    ensures { IfOk result (λ ts. ts ≡ tokens text.now) }
{
    let all = split(alloc, true, text)?;
    filled(alloc, all.as_slice())
}

// Behind the others, unless it is one of them.
fn with_text(alloc: Global, texts: Blobs, text: &[u8]) -> Result<Blobs, AllocError>
    ensures { IfOk result (λ ts. ts ≡ with_text texts text.now) }
{
    let mut found = texts;
    if is_among(text, found.as_slice()) {
        return Ok(found);
    }
    found.push(Blob::from_slice(alloc, text)?)?;
    Ok(found)
}

/// Each text once, in order of first place.
pub fn distinct(alloc: Global, texts: &[Blob]) -> Result<Blobs, AllocError>
    ensures { IfOk result (λ ts. ts ≡ distinct texts.now) }
{
    let mut found = Blobs::new(alloc);
    for text in texts {
        found = with_text(alloc, found, text.as_slice())?;
    }
    Ok(found)
}
