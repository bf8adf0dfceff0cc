//! Bytes of a file of a space: read, many at once too, written, and changed where they differ.
#![tactic(auto, using(tc_space::specs::Frames::only_writes_refl, tc_space::specs::Frames::only_writes_then))]

mod changing;
mod errors;
mod reading;
mod window;
mod writing;
mod zeros;

pub use changing::{write_changed, write_difference};
pub use errors::ReadErr;
pub use reading::read_into;
pub use window::Window;
pub use writing::{cut_to, full_in, give_up, refused_for, write_at, write_over};
pub use zeros::{append_zeros, clear_up_to, write_zeros};
