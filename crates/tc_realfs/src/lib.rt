//! The volume over real files of one folder.
#![tactic(auto)]

mod ahead;
mod bound_copy;
mod file_list;
mod folder_volume;
mod gathered;
mod names;
mod paged;
mod pages;
mod real_file;

pub use folder_volume::FolderVolume;
pub use gathered::joined_as_written;
