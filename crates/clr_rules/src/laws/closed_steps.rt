//! Laws of closed records: their steps bind nothing, so they may be given up.
ghost use Rattle.clr_rules.specs.laws.ClosedSteps.{ClosedStepsBindNoRun, ClosedStepsBindNothing};
ghost use Rattle.clr_rules.specs.laws.ClosedSteps.{ClosedStepsMayGo};

/// Where two good registers are one but for the steps of some closed records, a command that names
/// none of these has the same reply and the same edits in both, and they are one but for these
/// steps after it; so it is of all commands of a run.
pub fn closed_steps_bind_nothing()
    ensures command { ClosedStepsBindNothing }
    ensures run { ClosedStepsBindNoRun }
{}

/// A good and staffed register is so without the steps of some closed records, and is one with the
/// register that keeps them, but for them.
pub fn closed_steps_may_go()
    ensures { ClosedStepsMayGo }
{}
