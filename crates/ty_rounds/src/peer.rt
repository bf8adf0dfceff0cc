//! One connection.
ghost use Rattle.std.specs.Prelude.{◌≡◌, ◌||◌, ◌&&◌, [], ℕ, true, false, not, nat_lt, OnErr, OnOk};
ghost use Rattle.ty_core.specs.Queues.{queue};
ghost use Rattle.ty_rounds.specs.declared.peer.Role.TheVariants.{Client as is_of_client};

use std::alloc::{AllocError, Global};
use tc_base::CLIENTS_MOST;
use ty_core::Session;
use ty_slave::Link;
use ty_ulog::{Feed, RecTake};
use ty_wire::Front;

/// The link to the master.
#[derive(Drop)]
pub struct Caller {
    pub link: Link,
    // it is to be closed for what was looked at
    pub broken: bool,
}

/// What a connection is.
#[derive(Drop)]
pub enum Role {
    /// A client's.
    Client,
    /// A client's that asked for the records of the update log. What comes of it isn't looked at any more.
    Fed(Feed),
    /// The server's own, to its master.
    Called(Caller),
}

/// A connection.
#[derive(Drop)]
pub struct Peer {
    pub conn: u32,
    pub role: Role,
    pub session: Session,
    // it takes no bytes any more
    pub gone: bool,
    // no bytes come of it any more
    pub ended: bool,
    // it is one above the most that are served
    pub extra: bool,
    // false only where it neither waits nor is over, and is no feed: a turn passes it by
    pub stirs: bool,
}

/// What stands at the front of what came of a connection.
#[derive(Clone, Copy, Debug, PartialEq, Eq)]
pub enum Sight {
    /// What is to be served or looked at.
    Whole,
    /// Nothing, or a part of it.
    Part,
    /// What ends the connection.
    Bad,
}

impl Caller {
    ghost use Rattle.ty_rounds.specs.Sights.{ShortCalled, sight_called};

    // What stands behind the id and the records that were looked at.
    #[inline(never)]
    fn sight(&self) -> Sight
        ensures sight { result ≡ sight_called self.now }
        ensures few { ShortCalled result self.now }
    {
        match self.link.front() {
            RecTake::Whole(_) => Sight::Whole,
            RecTake::Part => Sight::Part,
            RecTake::Bad => Sight::Bad,
        }
    }
}

impl Role {
    ghost use Rattle.ty_rounds.specs.Peers.{is_broken, is_called, is_client, is_fed};

    /// Whether it is a client's that asked for no records.
    pub fn is_client(&self) -> bool
        ensures { result ≡ is_client self.now }
    {
        matches!(self, Role::Client)
    }

    /// Whether it is a feed.
    pub fn is_fed(&self) -> bool
        ensures { result ≡ is_fed self.now }
    {
        matches!(self, Role::Fed(_))
    }

    // Whether it is the link, and to be closed for what was looked at.
    fn is_broken(&self) -> bool
        ensures { result ≡ is_broken self.now }
    {
        match self {
            Role::Called(caller) => caller.broken,
            Role::Client => false,
            Role::Fed(_) => false,
        }
    }

    /// Whether it is the link.
    pub fn is_called(&self) -> bool
        ensures { result ≡ is_called self.now }
    {
        matches!(self, Role::Called(_))
    }
}

impl Peer {
    ghost use Rattle.ty_rounds.specs.Peers.{all_taken, has_whole, is_busy, is_client, is_over, waits};
    ghost use Rattle.ty_rounds.specs.Pushing.{Pushes};
    ghost use Rattle.ty_rounds.specs.Ready.{IsCalm};
    ghost use Rattle.ty_rounds.specs.Sights.{IsShort, sight};
    ghost use Rattle.ty_memc.specs.Fronts.{IsPieceRead};
    ghost use Rattle.ty_wire.specs.declared.reading.Front.TheVariants.{Whole};

    /// A connection that opened where so many clients' were open.
    pub fn new(alloc: Global, conn: u32, others: usize) -> Peer
        ensures conn { result.conn ≡ conn }
        ensures role { result.role ≡ is_of_client }
        ensures session { result.session ≡ queue [] [] }
        ensures gone { result.gone ≡ false }
        ensures ended { result.ended ≡ false }
        ensures extra { result.extra ≡ not (nat_lt others 64) }
        ensures stirs { result.stirs ≡ true }
    {
        Peer {
            conn,
            role: Role::Client,
            session: Session::new(alloc),
            gone: false,
            ended: false,
            extra: others >= CLIENTS_MOST,
            stirs: true,
        }
    }

    /// Whether all bytes that waited were taken.
    pub fn all_taken(&self) -> bool
        ensures { result ≡ all_taken self.now }
    {
        self.session.waiting().is_empty()
    }

    /// What stands at the front of what came of it.
    #[inline(always)]
    pub fn sight(&self) -> Sight
        ensures sight { result ≡ sight self.now }
        ensures few { IsShort result self.now }
    {
        match &self.role {
            Role::Client => match self.session.look() {
                Front::Whole(_) => Sight::Whole,
                Front::Part => Sight::Part,
                Front::Bad => Sight::Bad,
            },
            Role::Fed(_) => Sight::Part,
            Role::Called(caller) => caller.sight(),
        }
    }

    /// Whether a whole piece stands at the front of its unread bytes, of the link a record.
    pub fn has_whole(&self) -> bool
        ensures { result ≡ has_whole self.now }
    {
        self.sight() == Sight::Whole
    }

    /// Whether a client has a whole piece that is to be served.
    pub fn has_piece(&self) -> bool
        ensures whole { result ≡ true → (n : ℕ) × IsPieceRead self.now.session.unread (Whole n) }
        ensures exact { result ≡ (is_client self.now.role && has_whole self.now) }
    {
        if !self.role.is_client() {
            return false;
        }
        match self.session.look() {
            Front::Whole(_) => true,
            Front::Part => false,
            Front::Bad => false,
        }
    }

    /// Whether it holds what is to be served or looked at, or, but for a feed, bytes that wait.
    pub fn waits(&self) -> bool
        ensures { result ≡ waits self.now }
    {
        if !self.role.is_fed() && !self.all_taken() {
            return true;
        }
        self.has_whole()
    }

    /// Whether it is to be closed.
    pub fn is_over(&self) -> bool
        ensures { result ≡ is_over self.now }
    {
        if self.gone || self.extra || self.role.is_broken() {
            return true;
        }
        if !self.role.is_called() && !self.all_taken() {
            return false;
        }
        match self.sight() {
            Sight::Whole => false,
            Sight::Part => self.ended,
            Sight::Bad => true,
        }
    }

    /// Whether it waits; of one that is calm it looks at one flag.
    pub fn is_paused(&self) -> bool
        ensures { IsCalm self.now → result ≡ waits self.now }
    {
        if !self.stirs {
            return false;
        }
        self.waits()
    }

    /// Whether it is to be closed; of one that is calm it looks at one flag.
    pub fn is_done(&self) -> bool
        ensures { IsCalm self.now → result ≡ is_over self.now }
    {
        if !self.stirs {
            return false;
        }
        self.is_over()
    }

    // Whether it waits or is over, or is a feed.
    fn is_busy(&self) -> bool
        ensures { result ≡ is_busy self.now }
    {
        if self.role.is_fed() || self.gone || self.extra || self.role.is_broken() {
            return true;
        }
        if !self.all_taken() {
            return true;
        }
        match self.sight() {
            Sight::Whole => true,
            Sight::Part => self.ended,
            Sight::Bad => true,
        }
    }

    /// Bytes came of it: of a feed they aren't looked at, of the link they are its. An `Err` changes nothing.
    pub fn push(&mut self, bytes: &[u8]) -> Result<(), AllocError>
        ensures ok { OnOk result (Pushes bytes.now self.old self.new) }
        ensures err { OnErr result (self.new ≡ self.old) }
    {
        match &mut self.role {
            Role::Client => self.session.push(bytes),
            Role::Fed(_) => Ok(()),
            Role::Called(caller) => caller.link.push(bytes),
        }
    }

    /// Notes whether a turn that brings it no event has anything to do for it.
    pub fn settle(&mut self)
        ensures { self.new ≡ record self.old { stirs = is_busy self.old } }
    {
        self.stirs = self.is_busy();
    }
}
