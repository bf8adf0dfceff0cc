//! Cases as text: what a file of cases says, and the play of it.
#![tactic(auto)]

mod cases;
mod files;
mod lines;
mod names;
mod numbers;
mod patterns;
mod playing;
mod reports;
mod scripts;
mod terms;
mod whys;
mod wrongs;

pub use files::play_inputs;
pub use lines::{Line, words_of};
pub use names::Names;
pub use numbers::number_of;
pub use patterns::Pattern;
pub use playing::{Player, play_cases};
pub use reports::Report;
pub use scripts::Script;
pub use whys::Why;
pub use wrongs::{Wrong, shown, told};
