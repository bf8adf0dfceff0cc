//! Requests and replies.
ghost use Rattle.std.specs.Prelude.{◌≡◌, ◌<◌, IfOk};
ghost use Rattle.ty_wire.specs.Spelling.{HasSpelling};

use crate::behind::{begun, is_bare};
use play_text::{Line, Why, Wrong};
use std::alloc::{AllocError, Global};
use tc_base::{Blob, Blobs, Pair, Pairs, Reply, Request};
use ty_look::{Seen, look};
use ty_wire::{Front, is_updating, read_request, take, write_reply};

// Bytes, and two more that begin a request.
fn longer(alloc: Global, bytes: &[u8]) -> Result<Vec<u8>, AllocError> {
    let mut longer = Vec::from_slice(alloc, bytes)?;
    longer.extend_from_slice(b"\xC8\x30")?;
    Ok(longer)
}

// Whether each front of a request is a part.
fn has_parts(bytes: &[u8]) -> bool {
    for cut in 0..bytes.len() {
        if take(&bytes[..cut]) != Front::Part {
            return false;
        }
    }
    true
}

// Whether a request is whole in its own length, also with bytes behind it, and each front of it is a part.
fn is_read_in_any_cut(alloc: Global, bytes: &[u8]) -> Result<bool, AllocError> {
    let longer = longer(alloc, bytes)?;
    let whole = Front::Whole(bytes.len());
    Ok(take(bytes) == whole && take(&longer) == whole && has_parts(bytes))
}

// What a request does.
fn deed(alloc: Global, bytes: &[u8]) -> Result<&'static str, AllocError> {
    match take(bytes) {
        Front::Whole(_) => {
            let request = read_request(alloc, bytes)?;
            let updates = is_updating(&request);
            drop(request);
            Ok(if updates { "updates" } else { "reads" })
        }
        Front::Part | Front::Bad => Ok("not whole"),
    }
}

/// `request BYTES => updates|reads`: a request, whole in its own length and no shorter, and whether it changes contents.
pub fn request_text(alloc: Global, bytes: &[u8]) -> Result<String, AllocError> {
    if is_read_in_any_cut(alloc, bytes)? {
        return String::from_str(alloc, deed(alloc, bytes)?);
    }
    String::from_str(alloc, "not whole")
}

// What stands at the front where a number follows.
fn taken_with(alloc: Global, front: &[u8], number: u32) -> Result<Front, AllocError> {
    let mut bytes = Vec::from_slice(alloc, front)?;
    bytes.extend_from_slice(&number.to_be_bytes())?;
    Ok(take(&bytes))
}

// Whether a number may stand behind bytes, and neither the next one nor the greatest.
fn is_most(alloc: Global, front: &[u8], most: u32) -> Result<bool, AllocError> {
    let within = taken_with(alloc, front, most)?;
    let past = taken_with(alloc, front, most.saturating_add(1))?;
    let far = taken_with(alloc, front, u32::MAX)?;
    Ok(within == Front::Part && past == Front::Bad && far == Front::Bad)
}

/// `limit NUMBER BYTES`: the most that a size or a count behind these bytes may be.
pub fn has_limit(alloc: Global, line: &mut Line) -> Result<(), Wrong> {
    let most = line.small()?;
    let bytes = line.bytes()?;
    line.is_so(is_most(alloc, bytes.as_slice(), most)?)
}

// What a look at bytes finds, and how many it needs at least.
fn looked(bytes: &[u8]) -> (Front, usize) {
    let mut seen = Seen::new();
    let front = look(bytes, &mut seen);
    (front, seen.least())
}

/// `wants NUMBER BYTES`: how many bytes a part needs at least.
pub fn wants(line: &mut Line) -> Result<(), Wrong> {
    let wanted = line.number()?;
    let bytes = line.bytes()?;
    let (found, least) = looked(bytes.as_slice());
    line.is_so(found == Front::Part && least as u64 == wanted)
}

// Whether `look` at bytes that come in such pieces answers at each step what `take` answers.
fn agrees(bytes: &[u8], piece: usize) -> bool
    requires { 0 < piece }
{
    let mut seen = Seen::new();
    let mut n = 0;
    while n < bytes.len() {
        n += piece.min(bytes.len() - n);
        let front = &bytes[..n];
        if look(front, &mut seen) != take(front) {
            return false;
        }
    }
    true
}

/// `in_pieces BYTES`: looks at bytes that come in pieces agree with one look at them.
pub fn agrees_in_pieces(bytes: &[u8]) -> bool {
    agrees(bytes, 1) && agrees(bytes, 7) && agrees(bytes, 100) && agrees(bytes, 4096)
}

// How many bytes that come in such pieces are there when `look` first finds more than a part.
fn ready_at(bytes: &[u8], piece: usize) -> usize
    requires { 0 < piece }
{
    let mut seen = Seen::new();
    let mut n = 0;
    while n < bytes.len() {
        n += piece.min(bytes.len() - n);
        if look(&bytes[..n], &mut seen) != Front::Part {
            return n;
        }
    }
    bytes.len()
}

/// `whole BYTES`: a request that is whole with its last byte, in whatever pieces it comes.
pub fn is_whole(bytes: &[u8]) -> bool {
    let n = bytes.len();
    take(bytes) == Front::Whole(n) && ready_at(bytes, 4096) == n && ready_at(bytes, 1) == n
}

// How many texts a request has, and the last of them.
#[derive(Clone, Copy)]
struct Texts<'a> {
    count: usize,
    last: &'a [u8],
}

fn one_text(last: &[u8]) -> Option<Texts<'_>> {
    Some(Texts { count: 1, last })
}

// The texts of a request of which several are looked at.
fn texts_of(request: &Request) -> Option<Texts<'_>> {
    match request {
        Request::MGet { keys } => Some(Texts {
            count: keys.as_slice().len(),
            last: match keys.as_slice().last() {
                Some(key) => key.as_slice(),
                None => b"",
            },
        }),
        Request::Misc { args, .. } => Some(Texts {
            count: args.as_slice().len(),
            last: match args.as_slice().last() {
                Some(arg) => arg.as_slice(),
                None => b"",
            },
        }),
        Request::PutShl { value, .. } => one_text(value.as_slice()),
        Request::Ext { key, .. } => one_text(key.as_slice()),
        _ => None,
    }
}

// Looks at the texts of a request.
fn has_texts(request: &Request, line: &mut Line) -> Result<(), Wrong> {
    let wanted = line.number()?;
    let Some(texts) = texts_of(request) else {
        return Err(Wrong::Unread);
    };
    if texts.count as u64 != wanted {
        return Err(Wrong::Not(Why::AnotherNumber));
    }
    line.is_bytes(texts.last)
}

// The request that bytes are.
fn request_of(alloc: Global, bytes: &[u8]) -> Result<Request, Wrong> {
    match take(bytes) {
        Front::Whole(n) => {
            if n != bytes.len() {
                return Err(Wrong::Not(Why::Behind));
            }
            Ok(read_request(alloc, bytes)?)
        }
        Front::Part | Front::Bad => Err(Wrong::Not(Why::NotWhole)),
    }
}

/// `text BYTES => COUNT TEXT`: how many keys or arguments a request has, and the last of them, which is nothing where there is none. Of a shift it is its value alone, of an
/// extension its key.
pub fn is_text(alloc: Global, line: &mut Line) -> Result<(), Wrong> {
    let bytes = line.given()?;
    let request = request_of(alloc, bytes.as_slice())?;
    let answer = has_texts(&request, line);
    drop(request);
    answer
}

fn blob(alloc: Global, bytes: &[u8]) -> Result<Blob, AllocError>
    ensures { IfOk result (λ b. b ≡ bytes.now) }
{
    Blob::from_slice(alloc, bytes)
}

fn list_of_two(alloc: Global) -> Result<Reply, AllocError>
    ensures { IfOk result HasSpelling }
{
    let mut items = Blobs::new(alloc);
    items.push(blob(alloc, b"b")?)?;
    items.push(blob(alloc, b"")?)?;
    Ok(Reply::List { items })
}

fn pair_of_one(alloc: Global) -> Result<Reply, AllocError>
    ensures { IfOk result HasSpelling }
{
    let mut pairs = Pairs::new(alloc);
    pairs.push(Pair {
        key: blob(alloc, b"one")?,
        value: blob(alloc, b"first")?,
    })?;
    Ok(Reply::Pairs { pairs })
}

fn value_of_first(alloc: Global) -> Result<Reply, AllocError>
    ensures { IfOk result HasSpelling }
{
    Ok(Reply::Value {
        value: blob(alloc, b"first")?,
    })
}

// A reply by name: a number, one that has parts, or one that has none.
fn reply_of(alloc: Global, line: &mut Line) -> Result<Reply, Wrong>
    ensures { IfOk result HasSpelling }
{
    match line.word() {
        "four" => Ok(Reply::Four {
            number: line.small()?,
        }),
        "eight" => Ok(Reply::Eight {
            number: line.number()?,
        }),
        "first" => Ok(value_of_first(alloc)?),
        "list" => Ok(list_of_two(alloc)?),
        "pairs" => Ok(pair_of_one(alloc)?),
        word => plain_reply(word),
    }
}

// A reply that has no parts, by name.
fn plain_reply(name: &str) -> Result<Reply, Wrong>
    ensures { IfOk result HasSpelling }
{
    match name {
        "fail" => Ok(Reply::Fail),
        "fail_by_name" => Ok(Reply::FailMisc),
        "silent" => Ok(Reply::Silent),
        "done" => Ok(Reply::Done),
        _ => Err(Wrong::Unread),
    }
}

// A reply as it is written behind other bytes.
fn written(alloc: Global, reply: &Reply) -> Result<Blob, AllocError>
    requires { HasSpelling reply.now }
{
    let mut all = begun(alloc)?;
    write_reply(reply, &mut all)?;
    Ok(all)
}

/// `reply NAME => BYTES`: a reply as it is written behind other bytes.
pub fn reply(alloc: Global, line: &mut Line) -> Result<Blob, Wrong> {
    let reply = reply_of(alloc, line)?;
    let all = written(alloc, &reply);
    drop(reply);
    is_bare(line)?;
    Ok(all?)
}
