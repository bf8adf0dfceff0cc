//! Types, limits and grammar words that several crates speak of.
#![tactic(auto)]

mod blob;
mod comparing;
mod decimal;
mod endian;
mod fault;
mod fields;
mod fronts;
mod hashes;
mod key;
mod kind;
mod label;
mod limits;
mod long;
mod number;
mod order;
mod request;
mod seq;
mod short;
mod steps;

pub use blob::Blob;
pub use decimal::number_of;
pub use endian::{get_be, get_le, read_le, set_be, set_le};
pub use fault::Fault;
pub use fields::{NotWhole, read_bytes, read_size};
pub use hashes::{bucket_of, second_hash};
pub use key::Key;
pub use kind::{Form, Kind, Mode, Rule};
pub use label::{Label, is_label, label_rows};
pub use limits::{
    BLOCK_MOST, BUCKETS_MOST, CLIENTS_MOST, COLUMN_MOST, FILE_LIMIT_LEAST, FILE_MOST,
    FOUR_BYTES_END, ID_MOST, INDEXES_MOST, KEY_MOST, LABEL_MOST, LOG_MOST, PAGE_END, REPLY_MOST,
    REQUEST_MOST, SMALL_STARTS, VALUE_MOST, WIDTH_MOST,
};
pub use number::{NumErr, put_vnum, read_number, read_three, read_two, read_vnum, vnum_len};
pub use order::{Cut, Decimal, Lexical, Order, Side, value_part};
pub use request::{Reply, Request};
pub use seq::{Blobs, Keys, Pair, Pairs, Seq};
pub use steps::Steps;
