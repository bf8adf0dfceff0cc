//! What is done with the files of a name, whatever kind they are of.
ghost use Rattle.std.specs.Prelude.{◌≡◌, ◌≤◌, ◌^◌, min, false};
ghost use Rattle.tk_top.specs.Works.{DoesOn, MayWork, WorksOn};

use crate::ends::Stopped;
use crate::files::run_files;
use crate::logged::run_logged;
use crate::making::make_files;
use crate::managing::manage_files;
use crate::volumes::OnVolume;
use std::alloc::Global;
use tc_base::{FILE_MOST, Kind};
use tc_io::{At, Clock, Sink, Wire};
use tk_mgr::Task;
use ty_base::{Base, Opens};
use ty_rounds::Master;

/// What is done with files that are there, or are made where there are none.
#[derive(Drop)]
pub enum Job {
    /// They are served at an address, for so many turns at most. None may grow past so many bytes, nor past 2^40.
    Serve {
        limit: u64,
        at: At,
        turns: u64,
    },
    /// The same with the update log beside them, which this server writes to under its own id; a replica, where there is a master.
    Log {
        own: u16,
        master: Option<Master>,
        limit: u64,
        at: At,
        turns: u64,
    },
    /// A task is carried out on them.
    Task(Task),
}

/// What is done with the files of a name.
pub enum Work<'a, N> {
    Do(Job),
    /// They are made anew, with these numbers.
    Make(&'a N),
}

// How many bytes a file may have: as many as the words say, and no more than any may.
fn limited(limit: u64) -> u64
    ensures is { result ≡ min limit (2 ^ 40) }
    ensures most { result ≤ 2 ^ 40 }
{
    limit.min(FILE_MOST)
}

// A job on the files that a volume keeps under a name.
fn do_on<S: OnVolume, B: Base + Opens<S = S> + Drop, W: Wire, O: Sink, E: Sink, K: Clock>(
    alloc: Global,
    name: &str,
    kind: Kind,
    job: Job,
    vol: S::V,
    wire: &mut W,
    out: &mut O,
    err: &mut E,
    clock: &mut K,
) -> Stopped<S::V>
    requires opened { W.opened wire.old ≡ false }
    ensures { DoesOn S.V.Volume S.Space W.Wire O.Sink E.Sink K.answers S.under B.Opens kind job name.now vol result wire.old wire.new out.old out.new clock.old clock.new err.old err.new }
{
    match job {
        Job::Serve { limit, at, turns } => run_files::<S, B, W, E, K>(
            alloc,
            name,
            kind,
            vol,
            limited(limit),
            &at,
            wire,
            err,
            clock,
            turns,
        ),
        Job::Log {
            own,
            master,
            limit,
            at,
            turns,
        } => run_logged::<S, B, W, E, K>(
            alloc,
            name,
            kind,
            own,
            master,
            vol,
            limited(limit),
            &at,
            wire,
            err,
            clock,
            turns,
        ),
        Job::Task(task) => manage_files::<S, B, O>(alloc, name, kind, vol, task, out),
    }
}

/// Does what is asked for with the files that a volume keeps under a name. A call of this at a kind of database proves what is asked of that kind, so each kind has one.
pub(crate) fn work_on<
    S: OnVolume,
    B: Base + Opens<S = S> + Drop,
    W: Wire,
    O: Sink,
    E: Sink,
    K: Clock,
>(
    alloc: Global,
    name: &str,
    kind: Kind,
    work: Work<'_, B::Shape>,
    vol: S::V,
    wire: &mut W,
    out: &mut O,
    err: &mut E,
    clock: &mut K,
) -> Stopped<S::V>
    requires opened { W.opened wire.old ≡ false }
    requires fits { MayWork B.may_be work }
    ensures { WorksOn S.V.Volume S.Space W.Wire O.Sink E.Sink K.answers S.under B.Opens kind work.entry name.now vol result wire.old wire.new out.old out.new clock.old clock.new err.old err.new }
{
    match work {
        Work::Do(job) => {
            do_on::<S, B, W, O, E, K>(alloc, name, kind, job, vol, wire, out, err, clock)
        }
        Work::Make(shape) => make_files::<S, B>(alloc, name, vol, shape),
    }
}
