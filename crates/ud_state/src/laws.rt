//! Laws on the definitions, as functions whose contracts they are.
ghost use Rattle.ud_state.specs.Again.{ImagesAreLeft, LeftIsSettled, LeftLeads, RunsAgain};

/// What a stop left of a settled volume is settled too, and is recovered to the same files: so recovery may be stopped at any
/// moment, and run again, any number of times.
pub fn may_run_again()
    ensures { RunsAgain }
{}

/// Where it is said of all that stops leave that files can be recovered, the volume is settled at each of those moments.
pub fn left_is_settled()
    ensures settled { LeftIsSettled }
    ensures images { ImagesAreLeft }
    ensures leads { LeftLeads }
{}
