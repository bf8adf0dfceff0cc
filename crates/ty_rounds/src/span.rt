//! Where the connections stand that a turn has anything to do for.
ghost use Rattle.std.specs.Prelude.{◌<◌, ◌-◌, ◌^◌};
ghost use Rattle.ty_rounds.specs.Ready.{Each, IsCalm};
ghost use Rattle.ty_rounds.specs.Spans.{Adds, AddsStirring, IsSpan, MayBeSpan};

use crate::peer::Peer;

/// The places from one to another. Whatever stirs among the connections stands at one of them, so no turn looks at the others.
#[derive(Clone, Copy, Drop)]
pub struct Span {
    pub from: usize,
    pub to: usize,
}

impl Span {
    /// All places.
    pub fn all(peers: &[Peer]) -> Span
        requires { Each IsCalm peers.now }
        ensures { IsSpan result peers.now }
    {
        Span {
            from: 0,
            to: peers.len(),
        }
    }

    /// One place more.
    pub fn add(&mut self, place: usize)
        requires { place < 2 ^ 64 - 1 }
        ensures { Adds self.old self.new place }
    {
        if self.from >= self.to {
            self.from = place;
            self.to = place + 1;
        } else {
            self.from = self.from.min(place);
            self.to = self.to.max(place + 1);
        }
    }

    /// One place more where what stands there stirs.
    pub fn add_stirring(&mut self, place: usize, stirs: bool)
        requires { place < 2 ^ 64 - 1 }
        ensures { AddsStirring self.old self.new place stirs }
    {
        if stirs {
            self.add(place);
        }
    }

    // Without the first places, where nothing stirs at them.
    fn without_front(self, peers: &[Peer]) -> Span
        requires { IsSpan self peers.now }
        ensures { IsSpan result peers.now }
    {
        let mut span = self;
        while span.from < span.to && !peers[span.from].stirs {
            span.from += 1;
        }
        span
    }

    // Without the last places, where nothing stirs at them.
    fn without_back(self, peers: &[Peer]) -> Span
        requires { IsSpan self peers.now }
        ensures { IsSpan result peers.now }
    {
        let mut span = self;
        while span.from < span.to && !peers[span.to - 1].stirs {
            span.to -= 1;
        }
        span
    }

    /// No more places than it takes for those that stir.
    pub fn narrow(&mut self, peers: &[Peer])
        requires { IsSpan self.old peers.now }
        ensures { IsSpan self.new peers.now }
    {
        if self.from >= self.to {
            return;
        }
        *self = self.without_front(peers).without_back(peers);
    }
}

/// The span that was kept, or all places where none was.
pub fn span_of(kept: Option<Span>, peers: &[Peer]) -> Span
    requires may { MayBeSpan kept peers.now }
    requires calm { Each IsCalm peers.now }
    ensures { IsSpan result peers.now }
{
    match kept {
        Some(span) => span,
        None => Span::all(peers),
    }
}
