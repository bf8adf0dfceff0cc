//! What a tree file is: the pages that its records hold, the rules that they keep, the rows that they stand in, and the pairs that the file stands for. The format and
//! the rules are in docs/FORMATS.md.
#![tactic(auto)]

mod head;
mod laws;
mod page;

pub use head::TreeHead;
pub use laws::{
    order_is_that_of_entries, orders_are_strict, records_give_pages, records_give_pairs,
    rows_give_rules, rules_give_rows,
};
pub use page::{LeafAt, Page, Slot};
