//! The headline of a run: it holds of every run that has happened.
ghost use Rattle.clr_rules.specs.RunHeadline.{RunsChangeNoReply, RunsStandAlone, RunsTakeNothing};

/// Of every run the headline holds: what others do changes no reply to a clearance's own commands,
/// and takes nothing away from it; and where others leave no mark, its own commands are replied to
/// as if they were alone.
pub fn headline_holds_of_runs()
    ensures replies { RunsChangeNoReply }
    ensures nothing { RunsTakeNothing }
    ensures alone { RunsStandAlone }
{}
