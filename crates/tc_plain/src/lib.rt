//! The plain body of the abstract database of every kind: what each request makes of contents, as it is defined, slow and in memory. Other bodies are compared with it.
#![tactic(auto)]

mod apply;
mod cells;
mod contents;
mod effects;
mod indexes;
mod maps;
mod meaning;
mod operators;
mod reads;
mod rows;
mod search;
mod stores;
mod texts;
mod trees;

pub use apply::{apply_plain, replay};
pub use contents::Contents;
pub use indexes::index_pairs;
pub use maps::{Copied, IdMap, KeyMap};
pub use meaning::found;
pub use search::{FoundRow, FoundRows, arrange, holds};
