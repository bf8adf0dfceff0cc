//! Text commands beside requests, in memcached's dialect: lines of words, what they ask of the database and what is replied.
#![tactic(auto)]

mod answering;
mod ends;
mod laws;
mod lines;
mod looking;
mod pieces;
mod reading;
mod replies;
mod text;
mod updates;
mod words;

pub use answering::answer;
pub use laws::{asked_requests_fit, commands_fit, pieces_are_read};
pub use looking::{SeenText, Value, look_text, take_text};
pub use pieces::{SeenPiece, look_piece, read_piece};
pub use reading::read_text;
pub use replies::{write_error, write_value};
pub use text::{Piece, Text, Then, Word};
pub use updates::{asked_key, quiet, spell_update};
