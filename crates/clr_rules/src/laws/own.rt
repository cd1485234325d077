//! What a register has of a clearance, and what its commands look at.
ghost use Rattle.clr_rules.specs.Isolation.{Independence};
ghost use Rattle.clr_rules.specs.laws.Own.{AgreeingRegistersHaveTheSame, ChecksLookAtTheOwn};
ghost use Rattle.clr_rules.specs.laws.Own.{EditsAreOfTheOwn, NearHasTheOwn, NearIsEnough};
ghost use Rattle.clr_rules.specs.laws.Own.{SameEditsKeepTheOwn};

/// Registers that agree near a clearance have the same staff, record, steps and holds of it, and so
/// has the near part of a command that names it.
pub fn same_own_is_near()
    ensures agreeing { AgreeingRegistersHaveTheSame }
    ensures near { NearHasTheOwn }
{}

/// The checks of a command look at these alone, but for those of an order, and of a point where a
/// step is given out.
pub fn checks_look_at_the_own()
    ensures { ChecksLookAtTheOwn }
{}

/// Its edits are made by these, and both registers have the same of the clearance after the same
/// edits.
pub fn edits_are_of_the_own()
    ensures made { EditsAreOfTheOwn }
    ensures after { SameEditsKeepTheOwn }
{}

/// In a good register a command is answered from its near part as from the whole register; so good
/// registers with the same near part give the same answer to it.
pub fn near_is_enough()
    ensures enough { NearIsEnough }
    ensures alike { Independence }
{}
