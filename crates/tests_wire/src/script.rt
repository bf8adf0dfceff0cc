//! A wire in memory plays its script.
ghost use Rattle.std.specs.Prelude.{◌≡◌, true, false, IfOk};

use std::alloc::{AllocError, Global};
use std::test::Fail;
use tc_fakes::MemWire;
use tc_io::{Act, At, Dialled, Ev, Wire};

// Events of connections 5 and 7, of which those that may not come are skipped.
fn script(alloc: Global) -> Result<MemWire, AllocError>
    ensures { IfOk result (λ w. w.opened ≡ false) }
{
    let mut wire = MemWire::new(alloc)?;
    wire.dial_gives(Dialled::Conn(5))?;
    wire.dial_gives(Dialled::Conn(3))?;
    wire.dial_gives(Dialled::NotNow)?;
    // below a number that was given
    wire.act(Act::Opened(2))?;
    wire.act(Act::Opened(7))?;
    // of a connection that was never there
    wire.feed(9, b"x", 1)?;
    wire.feed(7, b"abc", 2)?;
    wire.act(Act::Ended(7))?;
    // behind its end
    wire.feed(7, b"d", 1)?;
    wire.act(Act::Ended(7))?;
    wire.act(Act::Quiet)?;
    Ok(wire)
}

// What the wire gives next.
fn next(wire: &mut MemWire, paused: &[u32], busy: bool, into: &mut [u8; 4096]) -> Option<Ev>
    requires { wire.old.opened ≡ true }
    ensures { wire.new.opened ≡ true }
{
    wire.next(paused, busy, into).ok()
}

// Whether each event of the script comes where it may, and nothing else.
fn plays_its_script(wire: &mut MemWire) -> bool
    requires { wire.old.opened ≡ true }
    ensures { wire.new.opened ≡ true }
{
    let mut into = [0; 4096];
    if next(wire, &[], true, &mut into) != Some(Ev::Opened(7)) {
        return false;
    }
    if next(wire, &[5, 7], false, &mut into) != Some(Ev::Quiet) {
        return false;
    }
    if next(wire, &[5], false, &mut into) != Some(Ev::Read(7, 2))
        || &into[..2] != b"ab".as_slice()
    {
        return false;
    }
    if next(wire, &[], false, &mut into) != Some(Ev::Read(7, 1)) || into[0] != b'c' {
        return false;
    }
    next(wire, &[7], false, &mut into) == Some(Ev::Ended(7))
}

// Whether nothing is left but quiet while it is busy, and the end.
fn ends(wire: &mut MemWire) -> bool
    requires { wire.old.opened ≡ true }
{
    let mut into = [0; 4096];
    next(wire, &[], false, &mut into) == Some(Ev::Quiet)
        && next(wire, &[], true, &mut into) == Some(Ev::Quiet)
        && next(wire, &[], false, &mut into) == Some(Ev::Shut)
}

fn dialled(wire: &mut MemWire) -> Option<Dialled>
    requires { wire.old.opened ≡ true }
    ensures { wire.new.opened ≡ true }
{
    wire.dial(b"host", 1978).ok()
}

// Whether the first of four dials gives a connection, and no other does.
fn dials_once(wire: &mut MemWire) -> bool
    requires { wire.old.opened ≡ true }
    ensures { wire.new.opened ≡ true }
{
    let first = dialled(wire);
    let second = dialled(wire);
    let third = dialled(wire);
    let fourth = dialled(wire);
    let none = Some(Dialled::NotNow);
    first == Some(Dialled::Conn(5)) && second == none && third == none && fourth == none
}

// Whether 1 open, 4 dials and 8 events were told, nothing was closed or sent, and each call found memory.
fn is_told(wire: &MemWire) -> bool {
    wire.log().len() == 13
        && !wire.is_closed(5)
        && !wire.is_closed(7)
        && !wire.is_closed(9)
        && wire.sent(7).is_empty()
        && wire.starved() == 0
}

fn opened(wire: &mut MemWire) -> bool
    requires { wire.old.opened ≡ false }
    ensures { result ≡ wire.new.opened }
{
    wire.open(&At::Pipe).is_ok()
}

// Whether it opens, dials, plays its script to the end, and tells all of it.
fn is_played(wire: &mut MemWire) -> bool
    requires { wire.old.opened ≡ false }
{
    if !opened(wire) {
        return false;
    }
    if !dials_once(wire) || !plays_its_script(wire) {
        return false;
    }
    ends(wire) && is_told(wire)
}

// Whether of two dials and two events the first of each fails. The failed dial tells its address, the failed event nothing.
fn fails_as_listed(wire: &mut MemWire) -> bool
    requires { wire.old.opened ≡ false }
{
    if !opened(wire) {
        return false;
    }
    let mut into = [0; 4096];
    let no_dial = dialled(wire);
    let dial = dialled(wire);
    let no_event = next(wire, &[], false, &mut into);
    let event = next(wire, &[], false, &mut into);
    no_dial.is_none()
        && dial == Some(Dialled::Conn(5))
        && no_event.is_none()
        && event == Some(Ev::Opened(7))
        && wire.log().len() == 4
}

#[test]
fn a_wire_in_memory_plays_its_script(rt: HostRuntime) -> Result<(), Fail> {
    let mut wire = script(rt.alloc())?;
    assert!(rt; is_played(&mut wire));
    Ok(())
}

#[test]
fn a_listed_call_fails(rt: HostRuntime) -> Result<(), Fail> {
    let fails = vec![in rt.alloc(); 2, 4]?;
    let mut wire = script(rt.alloc())?;
    wire.fail_at(fails);
    assert!(rt; fails_as_listed(&mut wire));
    Ok(())
}
