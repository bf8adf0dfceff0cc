//! A server between its turns.
ghost use Rattle.std.specs.Prelude.{◌≡◌, [], None, true};
ghost use Rattle.ty_rounds.specs.Spans.{MayBeSpan};

use crate::batch::Batch;
use crate::listening::Buffers;
use crate::logging::Logged;
use crate::peer::Peer;
use crate::span::Span;
use std::alloc::Global;
use tc_model::Walk;
use ty_base::Base;

/// A database, its update log where one is kept, the walk over its keys, and the connections.
#[derive(Drop)]
pub struct Server<B> {
    pub(crate) alloc: Global,
    pub base: B,
    pub logged: Option<Logged>,
    // the master is to be dialled where no link is open
    pub due: bool,
    pub walk: Walk,
    pub peers: Vec<Peer>,
    // where those stand that stir; none where any may
    pub(crate) span: Option<Span>,
    pub(crate) buffers: Buffers,
    pub(crate) batch: Batch,
    ghost spans: { MayBeSpan span peers.items },
}

impl<B: Base> Server<B> {
    /// A server of a database with no connection, and with the update log of file 2 where one is kept.
    pub fn new(alloc: Global, base: B, logged: Option<Logged>) -> Server<B>
        ensures base { result.base ≡ base }
        ensures logged { result.logged ≡ logged }
        ensures due { result.due ≡ true }
        ensures walk { result.walk ≡ None }
        ensures peers { result.peers.items ≡ [] }
    {
        Server {
            alloc,
            base,
            logged,
            due: true,
            walk: Walk::new(),
            peers: Vec::new(alloc),
            span: None,
            buffers: Buffers::new(alloc),
            batch: Batch::new(alloc),
        }
    }
}
