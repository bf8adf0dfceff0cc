//! What a commit brings to the connections.
ghost use Rattle.std.specs.Prelude.{◌≡◌};
ghost use Rattle.ty_rounds.specs.Joining.{all_held, with_held};
ghost use Rattle.ty_rounds.specs.Ready.{LinksMay};

use crate::logging::Logged;
use crate::peer::{Peer, Role};

// The link is told the last timestamp held.
fn hold(p: &mut Peer, stamp: u64)
    ensures held { p.new ≡ with_held stamp p.old }
{
    match &mut p.role {
        Role::Called(caller) => caller.link.hold(stamp),
        Role::Client => {}
        Role::Fed(_) => {}
    }
}

/// The link among the connections knows the last timestamp that is held now.
pub fn join(logged: &Option<Logged>, peers: &mut Vec<Peer>)
    requires may { LinksMay logged.now peers.old.items }
    ensures held { peers.new.items ≡ all_held logged.now peers.old.items }
{
    let Some(logged) = logged else {
        return;
    };
    if logged.master.is_none() {
        return;
    }
    let last = logged.ulog.last();
    for i in 0..peers.len() {
        let p = &mut peers[i];
        hold(p, last);
    }
}
