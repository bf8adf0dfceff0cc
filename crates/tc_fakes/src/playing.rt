//! What a script gives next.
ghost use Rattle.std.specs.Prelude.{◌≡◌, ◌≤◌, ◌&&◌, not, nat_lt, length, take, drop, true};
ghost use Rattle.tc_io.specs.Lines.{IsUnopened, MayCome, MayDial, has};
ghost use Rattle.tc_io.specs.Script.{is_read};
ghost use Rattle.tc_fakes.specs.Play.{Gives, IsDialledFrom, IsNextFrom, May, lines};

use tc_io::{Act, Dialled, Ev};

/// What one act gives.
#[derive(Clone, Copy, PartialEq, Eq)]
pub enum Play {
    Skip,
    Keep,
    Give(Ev),
}

fn may_open(conns: &[u32], given: u64, c: u32) -> bool
    ensures { result ≡ (not (nat_lt c given) && not (has conns.now c)) }
{
    c as u64 >= given && !conns.contains(&c)
}

fn may_end(conns: &[u32], ended: &[u32], c: u32) -> bool
    ensures { result ≡ (has conns.now c && not (has ended.now c)) }
{
    conns.contains(&c) && !ended.contains(&c)
}

fn may_read(bytes: &[u8]) -> bool
    ensures { result ≡ is_read bytes.now }
{
    !bytes.is_empty() && bytes.len() <= 4096
}

fn put_front(into: &mut [u8; 4096], bytes: &[u8])
    requires { length bytes.now ≤ 4096 }
    ensures { take (length bytes.now) into.new ≡ bytes.now }
{
    into[..bytes.len()].copy_from_slice(bytes);
}

fn gives(
    act: &Act,
    conns: &[u32],
    ended: &[u32],
    given: u64,
    paused: &[u32],
    into: &mut [u8; 4096],
) -> Play
    ensures may { May conns.now ended.now given paused.now result }
    ensures is { Gives act.now (lines conns.now ended.now given) paused.now result into.new }
{
    match act {
        Act::Opened(c) => {
            if may_open(conns, given, *c) {
                return Play::Give(Ev::Opened(*c));
            }
            Play::Skip
        }
        Act::Read(c, bytes) => {
            let bytes = bytes.as_slice();
            let n = bytes.len();
            if !may_end(conns, ended, *c) {
                return Play::Skip;
            }
            if !may_read(bytes) {
                return Play::Skip;
            }
            if paused.contains(c) {
                return Play::Keep;
            }
            put_front(into, bytes);
            Play::Give(Ev::Read(*c, n))
        }
        Act::Ended(c) => {
            if may_end(conns, ended, *c) {
                return Play::Give(Ev::Ended(*c));
            }
            Play::Skip
        }
        Act::Quiet => Play::Give(Ev::Quiet),
    }
}

/// The next event of the script from a place on, and the place behind it.
pub fn choose(
    script: &[Act],
    start: usize,
    conns: &[u32],
    ended: &[u32],
    given: u64,
    paused: &[u32],
    busy: bool,
    into: &mut [u8; 4096],
) -> (usize, Ev)
    ensures may { MayCome conns.now ended.now given paused.now busy result.1 }
    ensures is { IsNextFrom script.now start (lines conns.now ended.now given) paused.now busy result into.new }
{
    let mut at = start;
    while at < script.len() {
        match gives(&script[at], conns, ended, given, paused, into) {
            Play::Skip => {}
            Play::Keep => return (at, Ev::Quiet),
            Play::Give(ev) => return (at + 1, ev),
        }
        at += 1;
    }
    if busy {
        (at, Ev::Quiet)
    } else {
        (at, Ev::Shut)
    }
}

/// The next answer of a dial from a place on, and the place behind it.
pub fn choose_dial(dials: &[Dialled], start: usize, conns: &[u32], given: u64) -> (usize, Dialled)
    ensures may { MayDial given result.1 }
    ensures fresh { IsUnopened conns.now result.1 }
    ensures is { IsDialledFrom dials.now start conns.now given result }
{
    if start >= dials.len() {
        return (start, Dialled::NotNow);
    }
    match dials[start] {
        Dialled::Conn(c) => {
            if may_open(conns, given, c) {
                return (start + 1, Dialled::Conn(c));
            }
            (start + 1, Dialled::NotNow)
        }
        Dialled::NotNow => (start + 1, Dialled::NotNow),
    }
}

ghost use Rattle.std.specs.Prelude.{[]};
