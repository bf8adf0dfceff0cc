//! What each connection took.
ghost use Rattle.std.specs.Prelude.{◌≡◌, ◌++◌, [], ◌∷◌, ℕ, OnOk, OnErr, not, nat_eq, if◌then◌else◌};
ghost use Rattle.std.specs.List.{filter, position};
ghost use Rattle.tc_io.specs.Lines.{without};
ghost use Rattle.tc_fakes.specs.Peers.{bytes_to};
ghost use Rattle.tc_fakes.specs.declared.peers.Peer.{Peer};

use std::alloc::{AllocError, Global};

/// A connection and the bytes that its sends took.
#[derive(Drop)]
pub struct Peer {
    pub conn: u32,
    pub taken: Vec<u8>,
}

// The place of a connection.
fn place_of(peers: &[Peer], conn: u32) -> Option<usize>
    ensures { result ≡ position (λ p. nat_eq p.conn conn) peers.now }
{
    peers.iter().position(|p| p.conn == conn)
}

/// What a connection took, nothing where it isn't there.
pub fn bytes_of(peers: &[Peer], conn: u32) -> &[u8]
    ensures { result.now ≡ bytes_to conn peers.now }
{
    match place_of(peers, conn) {
        Some(i) => peers[i].taken.as_slice(),
        None => &[],
    }
}

fn extend(peer: &mut Peer, bytes: &[u8]) -> Result<(), AllocError>
    ensures conn { peer.new.conn ≡ peer.old.conn }
    ensures ok { OnOk result (peer.new.taken.items ≡ peer.old.taken.items ++ bytes.now) }
    ensures err { OnErr result (peer.new.taken.items ≡ peer.old.taken.items) }
{
    peer.taken.extend_from_slice(bytes)
}

fn add(alloc: Global, peers: &mut Vec<Peer>, conn: u32, bytes: &[u8]) -> Result<(), AllocError>
    ensures ok { OnOk result ((q : Peer) × (q.conn ≡ conn) × (q.taken.items ≡ bytes.now) × (peers.new.items ≡ peers.old.items ++ q ∷ [])) }
    ensures err { OnErr result (peers.new.items ≡ peers.old.items) }
{
    let taken = Vec::from_slice(alloc, bytes)?;
    peers.push(Peer { conn, taken })?;
    Ok(())
}

/// Adds bytes to what a connection took. An `Err` changes nothing.
pub fn record(
    alloc: Global,
    peers: &mut Vec<Peer>,
    conn: u32,
    bytes: &[u8],
) -> Result<(), AllocError>
    ensures ok { OnOk result ((c : ℕ) → bytes_to c peers.new.items ≡ (if nat_eq conn c then bytes_to c peers.old.items ++ bytes.now else bytes_to c peers.old.items)) }
    ensures err { OnErr result ((c : ℕ) → bytes_to c peers.new.items ≡ bytes_to c peers.old.items) }
{
    match place_of(peers, conn) {
        Some(i) => extend(&mut peers[i], bytes),
        None => add(alloc, peers, conn, bytes),
    }
}

pub fn drop_conn(conns: &mut Vec<u32>, conn: u32)
    ensures { conns.new.items ≡ without conn conns.old.items }
{
    conns.retain(
        |c: &u32| -> bool
            ensures { result ≡ not (nat_eq c.now conn) }
        { *c != conn },
    );
}
