//! A list of pairs over one file, as a tree of pages over any map of records.
#![tactic(auto, using(tc_space::specs::Frames::keeps_refl))]

mod btree;
mod multi;
mod putting;

pub use btree::Btree;
