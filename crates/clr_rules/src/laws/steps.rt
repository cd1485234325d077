//! Agreement near a clearance from command to command: the steps of isolation.
ghost use Rattle.clr_rules.specs.Isolation.{LoneStep, OthersStep, OwnStep};
ghost use Rattle.clr_rules.specs.laws.Steps.{OthersEditsAreOfOthers, OwnCommandsLookAtTheSame};
ghost use Rattle.clr_rules.specs.laws.Steps.{SameAnswersKeepAgreement};

/// The edits of a command of others are not about the clearance, and give its requester no new
/// clearance.
pub fn others_edits_are_of_others()
    ensures { OthersEditsAreOfOthers }
{}

/// Registers that agree still do after a command of others on each side that leaves the same marks,
/// and after one on one side that leaves none.
pub fn others_commands_keep_agreement()
    ensures both { OthersStep }
    ensures lone { LoneStep }
{}

/// Registers that agree and answer a command alike agree again after it.
pub fn same_answers_keep_agreement()
    ensures { SameAnswersKeepAgreement }
{}

/// Registers that agree near a clearance, on a set that covers its fence, give its own commands the
/// same near part.
pub fn own_commands_look_at_the_same()
    ensures { OwnCommandsLookAtTheSame }
{}

/// Registers that agree near a clearance, on a set that covers its fence, answer its own commands
/// alike, and agree again after each.
pub fn own_commands_keep_agreement()
    ensures { OwnStep }
{}
