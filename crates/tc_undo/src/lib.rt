//! Files whose kept contents survive a stop before or within any call of the volume, by an undo log.
//!
//! A transaction is what is written between two commits. The log first takes the lengths of all data files, then, before any
//! old byte is overwritten or cut away, an entry with that byte; it is brought to the disk before the data file changes. A commit
//! brings the changed data files to the disk, cuts the log to nothing, and brings that to the disk. Recovery undoes what an
//! unfinished transaction did.
#![tactic(auto, using(crate::proofs::Volumes::stays_then, crate::proofs::Volumes::reads_then, crate::proofs::Volumes::stays_quiet_then))]

mod batched;
mod changes;
mod copying;
mod errors;
mod finish;
mod gather;
mod piece;
mod pieces;
mod put_back;
mod recovery;
mod refill;
mod room;
mod runs;
mod scan;
mod secure;
mod syncs;
mod through;
mod undo;
mod waiting;

pub use batched::Batched;
pub use errors::{RecoverErr, UndoErr, Unopened};
pub use piece::Piece;
pub use recovery::recover;
pub use undo::Undo;
