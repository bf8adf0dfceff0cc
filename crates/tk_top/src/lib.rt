//! The program's work.
#![tactic(auto, using(tc_space::specs::Frames::follows_then, tc_space::specs::Frames::follows_refl))]

mod base;
mod ends;
mod files;
mod lines;
mod logged;
mod making;
mod managing;
mod naming;
mod serving;
mod top;
mod volumes;
mod words;
mod working;

pub use base::serve_base;
pub use ends::{End, Stopped};
pub use files::{run_files, serve_files};
pub use lines::put_line;
pub use logged::{run_logged, serve_logged};
pub use making::{make_files, make_opened};
pub use managing::{manage_files, manage_opened};
pub use serving::serve;
pub use top::{Ran, run};
pub use volumes::OnVolume;
