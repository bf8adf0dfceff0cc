//! The laws of rules and rows.
ghost use Rattle.bt_rows.specs.Laws.{OrdersAreStrict, RecordsGivePages, RecordsGivePairs, RulesGiveRows, RowsGiveRules};
ghost use Rattle.bt_rows.specs.Between.{OrderIsThatOfEntries};

/// Records that keep the rules on keys hold pages, each under its id, and no others.
pub fn records_give_pages()
    ensures { RecordsGivePages }
{}

/// Records that are a tree hold one list of pairs.
pub fn records_give_pairs()
    ensures { RecordsGivePairs }
{}

/// Where the rules hold, the pages are rows of nodes above a row of leaves.
pub fn rules_give_rows()
    ensures { RulesGiveRows }
{}

/// Where the pages are such rows, each is reached once and all leaves have one depth.
pub fn rows_give_rules()
    ensures { RowsGiveRules }
{}

/// Where pages are reached once, all leaves have one depth and none but the root is empty, the order of leaves says of each page that keys ascend in it and stay
/// between those of the entries above it.
pub fn order_is_that_of_entries()
    ensures { OrderIsThatOfEntries }
{}

/// The order of a trait `Order` is strict and total, as the law before asks.
pub fn orders_are_strict()
    ensures { OrdersAreStrict }
{}
