//! The law of the rules.
ghost use Rattle.bt_check.specs.Verdicts.{TreesBreakNoRule};

/// Where all rules hold, none is the first that doesn't.
pub fn trees_break_no_rule()
    ensures { TreesBreakNoRule }
{}
