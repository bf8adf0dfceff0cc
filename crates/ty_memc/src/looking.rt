//! The text command at the front of bytes that come in pieces.
ghost use Rattle.std.specs.Prelude.{◌≡◌, ◌+◌, ◌≤◌, ◌<◌, ℕ, List, length, drop, suc};
ghost use Rattle.ty_memc.specs.Reading.{line_len};
ghost use Rattle.ty_memc.specs.Fronts.{TakesText};
ghost use Rattle.ty_memc.specs.Taking.{IsTextRead, IsTextSeen, Awaits, IsLineEnd};

use crate::ends::{LINE_MOST, find_feed, read_data, split_line};
use crate::lines::{Heading, read_heading};
use crate::words::behind;
use tc_base::NotWhole;
use ty_wire::Front;

/// Where a value begins that a storing line announced, and how many bytes it has.
#[derive(Clone, Copy, PartialEq, Eq)]
pub struct Value {
    pub at: usize,
    pub size: usize,
}

/// What of a text command that isn't whole was looked at already: nothing at first.
#[derive(Clone, Copy)]
pub struct SeenText {
    // so many bytes at the front have no line feed
    passed: usize,
    // the line was read
    value: Option<Value>,
}

impl SeenText {
    /// Nothing was looked at, which is true of any bytes.
    pub fn new() -> SeenText
        ensures { (bytes : List ℕ) → IsTextSeen result bytes }
    {
        SeenText {
            passed: 0,
            value: None,
        }
    }

    /// Of a storing line that was read: where its value begins, and how many bytes it has.
    pub fn value(&self) -> Option<Value>
        ensures { result ≡ self.now.value }
    {
        self.value
    }
}

// What stands at the front, where its line was read.
fn value_front(bytes: &[u8], value: Value) -> Front
    requires { Awaits value bytes.now }
    ensures { IsTextRead bytes.now result }
{
    match read_data(value.size, behind(bytes, value.at)) {
        Ok(_) => Front::Whole(value.at + value.size + 2),
        Err(NotWhole::Part) => Front::Part,
        Err(NotWhole::Bad) => Front::Bad,
    }
}

// What stands at the front, where its line ends at a place.
fn line_front(bytes: &[u8], at: usize, seen: &mut SeenText) -> Front
    requires end { IsLineEnd at bytes.now }
    requires seen { IsTextSeen seen.old bytes.now }
    ensures reading { IsTextRead bytes.now result }
    ensures seen { IsTextSeen seen.new bytes.now }
{
    let (line, _) = split_line(bytes, at);
    match read_heading(line) {
        Heading::Stores(storing) => {
            let value = Value {
                at: at + 1,
                size: storing.size,
            };
            seen.value = Some(value);
            value_front(bytes, value)
        }
        Heading::Says => Front::Whole(at + 1),
        Heading::Closes => Front::Bad,
    }
}

// What stands at the front, where its line wasn't whole.
fn look_line(bytes: &[u8], seen: &mut SeenText) -> Front
    requires { IsTextSeen seen.old bytes.now }
    ensures reading { IsTextRead bytes.now result }
    ensures seen { IsTextSeen seen.new bytes.now }
{
    if let Some(at) = find_feed(bytes, seen.passed) {
        return line_front(bytes, at, seen);
    }
    if bytes.len() >= LINE_MOST {
        return Front::Bad;
    }
    seen.passed = bytes.len();
    Front::Part
}

/// What stands at the front, as `take_text` says it. What was looked at of these bytes, when there were fewer of them, isn't looked at
/// again.
#[tactic(auto, using(crate::proofs::PieceFronts::text_takes))]
pub fn look_text(bytes: &[u8], seen: &mut SeenText) -> Front
    requires { IsTextSeen seen.old bytes.now }
    ensures reading { IsTextRead bytes.now result }
    ensures grammar { TakesText bytes.now result }
    ensures seen { IsTextSeen seen.new bytes.now }
{
    if let Some(value) = seen.value {
        return value_front(bytes, value);
    }
    look_line(bytes, seen)
}

/// Whether a whole text command stands at the front, with its length, or a part of one, or what ends the connection.
/// What ends it: 2,048 bytes without a line feed, the line `quit`, or a storing word that begins no storing line.
/// A value without `0D 0A` behind it does, too.
pub fn take_text(bytes: &[u8]) -> Front
    ensures reading { IsTextRead bytes.now result }
    ensures grammar { TakesText bytes.now result }
{
    let mut seen = SeenText::new();
    look_text(bytes, &mut seen)
}
