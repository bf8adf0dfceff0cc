//! The update log that a server keeps.

use tc_base::Blob;
use ty_ulog::Ulog;

/// Where the master of a replica is.
#[derive(Debug, Drop)]
pub struct Master {
    pub host: Blob,
    pub port: u16,
}

/// An update log, the id under which this server writes to it, and where its master is, if it has one.
#[derive(Drop)]
pub struct Logged {
    pub ulog: Ulog,
    pub own: u16,
    pub master: Option<Master>,
}

/// What of the words a round goes by: whether an update log is kept, the own id, and whether there is a master.
#[derive(Clone, Copy, Debug)]
pub struct Terms {
    pub logs: bool,
    pub own: u16,
    pub replica: bool,
}

ghost use Rattle.ty_rounds.specs.Terms.{IsTerms};

/// What the words say.
pub fn terms_of(logged: &Option<Logged>) -> Terms
    ensures { IsTerms result logged.now }
{
    match logged {
        Some(l) => Terms {
            logs: true,
            own: l.own,
            replica: l.master.is_some(),
        },
        None => Terms {
            logs: false,
            own: 0,
            replica: false,
        },
    }
}
