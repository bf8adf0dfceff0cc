//! The top call.
ghost use Rattle.std.specs.Prelude.{◌≡◌, Some, false};
ghost use Rattle.tc_fixeddb.specs.Shapes as fixed_shape;
ghost use Rattle.tc_hashdb.specs.Shapes.{MayHave};
ghost use Rattle.tc_tabledb.specs.Shapes as table_shape;
ghost use Rattle.tc_treedb.specs.Shapes as tree_shape;
ghost use Rattle.tc_memdb.specs.Engines.{contents_in};
ghost use Rattle.ty_answers.specs.Engines.{engine_of};
ghost use Rattle.tk_words.specs.Words.{texts};
ghost use Rattle.tk_top.specs.Top.{CarriesOut, DrillsMemory, MemoryRun, RunsOnWords, RunsWanted, no_keys};
ghost use Rattle.tk_top.specs.Words.{Fits, MayBeMade, asked_in, asked_of};
ghost use Rattle.tk_top.specs.Works.{MayWork, asked_fixed, asked_hash, asked_table, asked_to, asked_tree};
ghost use Rattle.tk_top.specs.Causes.{CausedByWire};
ghost use Rattle.tk_top.specs.declared.words.Asked.TheVariants as asks;

use crate::base::serve_base;
use crate::ends::{End, Stopped};
use crate::lines::put_line;
use crate::managing::end_of;
use crate::volumes::OnVolume;
use crate::words::{Asked, Memory, Shape, Source, Stored, what_is_asked};
use crate::working::{Job, Work, work_on};
use std::alloc::Global;
use std::mem::ManuallyDrop;
use tc_base::Kind;
use tc_fixeddb::{FixedEngine, FixedShape};
use tc_hashdb::{HashEngine, HashShape};
use tc_held::HeldSpace;
use tc_io::{At, Clock, Sink, Volume, Wire};
use tc_memdb::MemEngine;
use tc_space::NoSpace;
use tc_tabledb::{TableEngine, TableShape};
use tc_treedb::{TreeEngine, TreeShape};
use tc_undo::Undo;
use tk_mgr::{Task, manage};
use tk_words::{CommandLine, parse};
use ty_answers::Database;

// What stands behind a database in files: what is written is held in memory until a commit, and then made at once over the undo log.
type Kept<V> = HeldSpace<Undo<V>>;

/// The status, and the volume.
#[derive(Drop)]
pub struct Ran<V> {
    pub status: u8,
    pub vol: V,
}

// A database in memory with no key.
fn database(alloc: Global, memory: Memory) -> Database<MemEngine>
    ensures { contents_in (engine_of result) ≡ (no_keys memory).contents }
{
    let engine = match memory {
        Memory::Map => MemEngine::map(alloc),
        Memory::Tree => MemEngine::tree(alloc),
    };
    Database::new(alloc, engine)
}

// A database in memory, served at an address.
fn serve_memory<W: Wire, E: Sink, K: Clock>(
    alloc: Global,
    memory: Memory,
    at: &At,
    wire: &mut W,
    err: &mut E,
    clock: &mut K,
    turns: u64,
) -> End
    requires opened { W.opened wire.old ≡ false }
    ensures served { MemoryRun W.Wire result memory at.now turns wire.old wire.new }
    ensures caused { CausedByWire W.faults result wire.old wire.new }
    ensures silent { err.new ≡ err.old }
{
    let mut space = NoSpace::new();
    serve_base(
        alloc,
        database(alloc, memory),
        &mut space,
        at,
        wire,
        err,
        clock,
        turns,
    )
}

// What is done with the files of a hash database.
fn on_hash<S: OnVolume, W: Wire, O: Sink, E: Sink, K: Clock>(
    alloc: Global,
    name: &str,
    work: Work<'_, HashShape>,
    vol: S::V,
    wire: &mut W,
    out: &mut O,
    err: &mut E,
    clock: &mut K,
) -> Stopped<S::V>
    requires opened { W.opened wire.old ≡ false }
    requires fits { MayWork MayHave work }
    ensures { CarriesOut S.V.Volume W.Wire K.answers E.Sink O.Sink result.end (asked_hash name.now work.entry) vol result.vol wire.old wire.new out.old out.new clock.old clock.new err.old err.new }
{
    work_on::<S, Database<HashEngine<S>>, W, O, E, K>(
        alloc,
        name,
        Kind::Hash,
        work,
        vol,
        wire,
        out,
        err,
        clock,
    )
}

// What is done with the files of a tree database.
fn on_tree<S: OnVolume, W: Wire, O: Sink, E: Sink, K: Clock>(
    alloc: Global,
    name: &str,
    work: Work<'_, TreeShape>,
    vol: S::V,
    wire: &mut W,
    out: &mut O,
    err: &mut E,
    clock: &mut K,
) -> Stopped<S::V>
    requires opened { W.opened wire.old ≡ false }
    requires fits { MayWork tree_shape.MayHave work }
    ensures { CarriesOut S.V.Volume W.Wire K.answers E.Sink O.Sink result.end (asked_tree name.now work.entry) vol result.vol wire.old wire.new out.old out.new clock.old clock.new err.old err.new }
{
    work_on::<S, Database<TreeEngine<S>>, W, O, E, K>(
        alloc,
        name,
        Kind::Tree,
        work,
        vol,
        wire,
        out,
        err,
        clock,
    )
}

// What is done with the files of a fixed-length database.
fn on_fixed<S: OnVolume, W: Wire, O: Sink, E: Sink, K: Clock>(
    alloc: Global,
    name: &str,
    work: Work<'_, FixedShape>,
    vol: S::V,
    wire: &mut W,
    out: &mut O,
    err: &mut E,
    clock: &mut K,
) -> Stopped<S::V>
    requires opened { W.opened wire.old ≡ false }
    requires fits { MayWork fixed_shape.MayHave work }
    ensures { CarriesOut S.V.Volume W.Wire K.answers E.Sink O.Sink result.end (asked_fixed name.now work.entry) vol result.vol wire.old wire.new out.old out.new clock.old clock.new err.old err.new }
{
    work_on::<S, Database<FixedEngine<S>>, W, O, E, K>(
        alloc,
        name,
        Kind::Fixed,
        work,
        vol,
        wire,
        out,
        err,
        clock,
    )
}

// What is done with the files of a table database.
fn on_table<S: OnVolume, W: Wire, O: Sink, E: Sink, K: Clock>(
    alloc: Global,
    name: &str,
    work: Work<'_, TableShape>,
    vol: S::V,
    wire: &mut W,
    out: &mut O,
    err: &mut E,
    clock: &mut K,
) -> Stopped<S::V>
    requires opened { W.opened wire.old ≡ false }
    requires fits { MayWork table_shape.MayHave work }
    ensures { CarriesOut S.V.Volume W.Wire K.answers E.Sink O.Sink result.end (asked_table name.now work.entry) vol result.vol wire.old wire.new out.old out.new clock.old clock.new err.old err.new }
{
    work_on::<S, Database<TableEngine<S>>, W, O, E, K>(
        alloc,
        name,
        Kind::Table,
        work,
        vol,
        wire,
        out,
        err,
        clock,
    )
}

// A job on the files of a name.
fn do_stored<S: OnVolume, W: Wire, O: Sink, E: Sink, K: Clock>(
    alloc: Global,
    name: &str,
    stored: Stored,
    job: Job,
    vol: S::V,
    wire: &mut W,
    out: &mut O,
    err: &mut E,
    clock: &mut K,
) -> Stopped<S::V>
    requires opened { W.opened wire.old ≡ false }
    ensures { CarriesOut S.V.Volume W.Wire K.answers E.Sink O.Sink result.end (asked_to stored name.now job) vol result.vol wire.old wire.new out.old out.new clock.old clock.new err.old err.new }
{
    match stored {
        Stored::Hash => on_hash::<S, W, O, E, K>(
            alloc,
            name,
            Work::Do(job),
            vol,
            wire,
            out,
            err,
            clock,
        ),
        Stored::Tree => on_tree::<S, W, O, E, K>(
            alloc,
            name,
            Work::Do(job),
            vol,
            wire,
            out,
            err,
            clock,
        ),
        Stored::Fixed => on_fixed::<S, W, O, E, K>(
            alloc,
            name,
            Work::Do(job),
            vol,
            wire,
            out,
            err,
            clock,
        ),
        Stored::Table => on_table::<S, W, O, E, K>(
            alloc,
            name,
            Work::Do(job),
            vol,
            wire,
            out,
            err,
            clock,
        ),
    }
}

// The files of a name made anew.
fn make_stored<S: OnVolume, W: Wire, O: Sink, E: Sink, K: Clock>(
    alloc: Global,
    name: &str,
    shape: &Shape,
    vol: S::V,
    wire: &mut W,
    out: &mut O,
    err: &mut E,
    clock: &mut K,
) -> Stopped<S::V>
    requires opened { W.opened wire.old ≡ false }
    requires fits { MayBeMade shape.now }
    ensures { CarriesOut S.V.Volume W.Wire K.answers E.Sink O.Sink result.end (asks.Create name.now shape.now) vol result.vol wire.old wire.new out.old out.new clock.old clock.new err.old err.new }
{
    match shape {
        Shape::Hash(hash) => on_hash::<S, W, O, E, K>(
            alloc,
            name,
            Work::Make(hash),
            vol,
            wire,
            out,
            err,
            clock,
        ),
        Shape::Tree(tree) => on_tree::<S, W, O, E, K>(
            alloc,
            name,
            Work::Make(tree),
            vol,
            wire,
            out,
            err,
            clock,
        ),
        Shape::Fixed(fixed) => on_fixed::<S, W, O, E, K>(
            alloc,
            name,
            Work::Make(fixed),
            vol,
            wire,
            out,
            err,
            clock,
        ),
        Shape::Table(table) => on_table::<S, W, O, E, K>(
            alloc,
            name,
            Work::Make(table),
            vol,
            wire,
            out,
            err,
            clock,
        ),
    }
}

// What is served.
fn serve_source<S: OnVolume, W: Wire, O: Sink, E: Sink, K: Clock>(
    alloc: Global,
    source: Source,
    at: At,
    turns: u64,
    vol: S::V,
    wire: &mut W,
    out: &mut O,
    err: &mut E,
    clock: &mut K,
) -> Stopped<S::V>
    requires opened { W.opened wire.old ≡ false }
    ensures { CarriesOut S.V.Volume W.Wire K.answers E.Sink O.Sink result.end (asks.Serve source at turns) vol result.vol wire.old wire.new out.old out.new clock.old clock.new err.old err.new }
{
    match source {
        Source::Memory(memory) => Stopped {
            end: serve_memory(alloc, memory, &at, wire, err, clock, turns),
            vol,
        },
        Source::File {
            name,
            stored,
            limit,
        } => do_stored::<S, W, O, E, K>(
            alloc,
            name.as_str(),
            stored,
            Job::Serve { limit, at, turns },
            vol,
            wire,
            out,
            err,
            clock,
        ),
        Source::Logged {
            name,
            stored,
            limit,
            own,
            master,
        } => do_stored::<S, W, O, E, K>(
            alloc,
            name.as_str(),
            stored,
            Job::Log {
                own,
                master,
                limit,
                at,
                turns,
            },
            vol,
            wire,
            out,
            err,
            clock,
        ),
    }
}

// A drill of a database in memory.
fn drill_memory<O: Sink>(alloc: Global, memory: Memory, seed: u64, count: u32, out: &mut O) -> End
    ensures { DrillsMemory O.Sink result memory seed count out.old out.new }
{
    let mut space = NoSpace::new();
    let mut base = database(alloc, memory);
    let end = end_of(manage(
        alloc,
        Task::Drill { seed, count },
        &mut base,
        &mut space,
        out,
    ));
    let _ = ManuallyDrop::new(base);
    end
}

// What is asked for, served, made or done.
fn carry_out<S: OnVolume, W: Wire, O: Sink, E: Sink, K: Clock>(
    alloc: Global,
    asked: Asked,
    vol: S::V,
    wire: &mut W,
    out: &mut O,
    err: &mut E,
    clock: &mut K,
) -> Stopped<S::V>
    requires opened { W.opened wire.old ≡ false }
    requires fits { Fits asked }
    ensures { CarriesOut S.V.Volume W.Wire K.answers E.Sink O.Sink result.end asked vol result.vol wire.old wire.new out.old out.new clock.old clock.new err.old err.new }
{
    match asked {
        Asked::Serve { source, at, turns } => {
            serve_source::<S, W, O, E, K>(alloc, source, at, turns, vol, wire, out, err, clock)
        }
        Asked::Task { name, stored, task } => do_stored::<S, W, O, E, K>(
            alloc,
            name.as_str(),
            stored,
            Job::Task(task),
            vol,
            wire,
            out,
            err,
            clock,
        ),
        Asked::Create { name, shape } => make_stored::<S, W, O, E, K>(
            alloc,
            name.as_str(),
            &shape,
            vol,
            wire,
            out,
            err,
            clock,
        ),
        Asked::Drill {
            memory,
            seed,
            count,
        } => Stopped {
            end: drill_memory(alloc, memory, seed, count, out),
            vol,
        },
    }
}

// What an order asks for.
fn follow<S: OnVolume, W: Wire, O: Sink, E: Sink, K: Clock>(
    alloc: Global,
    order: CommandLine,
    vol: S::V,
    wire: &mut W,
    out: &mut O,
    err: &mut E,
    clock: &mut K,
) -> Stopped<S::V>
    requires opened { W.opened wire.old ≡ false }
    ensures { RunsWanted S.V.Volume W.Wire K.answers E.Sink O.Sink (asked_in (Some order)) result.end vol result.vol wire.old wire.new out.old out.new clock.old clock.new err.old err.new }
{
    let asked = match what_is_asked(alloc, order) {
        Ok(asked) => asked,
        Err(_) => {
            return Stopped {
                end: End::NoMemory,
                vol,
            };
        }
    };
    match asked {
        Some(asked) => carry_out::<S, W, O, E, K>(alloc, asked, vol, wire, out, err, clock),
        None => Stopped {
            end: End::Words,
            vol,
        },
    }
}

// What the words ask for.
fn follow_words<S: OnVolume, W: Wire, O: Sink, E: Sink, K: Clock>(
    alloc: Global,
    words: &Vec<String>,
    vol: S::V,
    wire: &mut W,
    out: &mut O,
    err: &mut E,
    clock: &mut K,
) -> Stopped<S::V>
    requires opened { W.opened wire.old ≡ false }
    ensures { RunsWanted S.V.Volume W.Wire K.answers E.Sink O.Sink (asked_of (texts words.now.items)) result.end vol result.vol wire.old wire.new out.old out.new clock.old clock.new err.old err.new }
{
    let read = match parse(alloc, words) {
        Ok(read) => read,
        Err(_) => {
            return Stopped {
                end: End::NoMemory,
                vol,
            };
        }
    };
    match read {
        Some(order) => follow::<S, W, O, E, K>(alloc, order, vol, wire, out, err, clock),
        None => Stopped {
            end: End::Words,
            vol,
        },
    }
}

/// What the program does with the words behind its name. Today it serves a database in memory, or a hash, a tree, a fixed-length or a table database in files: `pipe NAME`
/// over the standard streams, `serve NAME` with its options at an address, with an update log in files and as a replica; it makes such files with `hash create NAME`, `tree create NAME`,
/// `fixed create NAME` and `table create NAME`, and carries out the commands `put`, `out`, `get`, `list`, `inform` and `optimize` of these kinds, `table setindex`, `table search`, and `drill`.
/// The name `*` is a map and `+` a tree in the order of bytes, both in memory, where a limit has no effect; a name that ends in `.tch`, `.tcb`, `.tcf` or `.tct` is that of files, which
/// `pipe`, `serve` and `drill` make where there are none. All other words are answered with status 1.
pub fn run<V: Volume, W: Wire, O: Sink, E: Sink, K: Clock>(
    alloc: Global,
    words: &Vec<String>,
    vol: V,
    wire: &mut W,
    out: &mut O,
    err: &mut E,
    clock: &mut K,
) -> Ran<V>
    requires opened { W.opened wire.old ≡ false }
    ensures runs { RunsOnWords V.Volume W.Wire K.answers E.Sink O.Sink (texts words.now.items) result.status vol result.vol wire.old wire.new out.old out.new clock.old clock.new err.old err.new }
{
    let stopped = follow_words::<Kept<V>, W, O, E, K>(alloc, words, vol, wire, out, err, clock);
    let _ = put_line(stopped.end, err);
    Ran {
        status: stopped.end.status(),
        vol: stopped.vol,
    }
}
