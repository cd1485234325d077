//! The headline: what others do does not change what a clearance is answered, and takes nothing
//! away from it.
ghost use Rattle.clr_rules.specs.Isolation.{NothingIsTakenAway, OwnCommandsAlone};
ghost use Rattle.clr_rules.specs.Isolation.{ReachedShowTheSame, SameShownSameAnswers};

/// The headline's first half: where two good registers agree near a clearance on a set that
/// covers its run, two lists of commands that show it the same give the same answers to its own
/// commands, and leave registers that agree again.
pub fn same_shown_same_answers()
    ensures { SameShownSameAnswers }
{}

/// At each place of a run, no command about another clearance closes a point that a clearance
/// holds, or takes away its tags, grounds, order or record: they are as before it, and each point
/// that the clearance holds open is open.
pub fn nothing_is_taken_away()
    ensures { NothingIsTakenAway }
{}

/// The consequence: where no command of others marks the set, a clearance is answered as if its own
/// commands were alone.
pub fn own_commands_stand_alone()
    ensures { OwnCommandsAlone }
{}

/// Two reached registers that agree near a clearance, and lists that show it the same, are what the
/// headline asks for: a register that commands reach from an opening one is good.
pub fn reached_show_the_same()
    ensures { ReachedShowTheSame }
{}
