//! Laws of runs: what commands may add, one reply a command, and what every reached register has.
ghost use Rattle.clr_rules.specs.laws.Bounds.{ReachedRegistersAreBounded};
ghost use Rattle.clr_rules.specs.laws.Runs.{CommandsAreReplied, OnlyJumpersAdd};
ghost use Rattle.clr_rules.specs.laws.Runs.{OpeningRegistersAreReached, ReachedGoOn};
ghost use Rattle.clr_rules.specs.laws.Runs.{ReachedListsAreInOrder, RunsGoOn, RunsOnlyAdd};
ghost use Rattle.clr_rules.specs.laws.Runs.{RunsWithoutJumpersKeepTheNetwork};

/// In a reached register each list is in key order, one row a key.
pub fn reached_lists_are_in_order()
    ensures { ReachedListsAreInOrder }
{}

/// No command changes the staff or a row of the network. What is added to it are jumpers, and
/// sections without a source; each point has a state, and no other name has one.
pub fn runs_only_add()
    ensures { RunsOnlyAdd }
{}

/// No command but a jumper adds to the network, so a run without jumpers keeps it.
pub fn only_jumpers_add()
    ensures command { OnlyJumpersAdd }
    ensures run { RunsWithoutJumpersKeepTheNetwork }
{}

/// Each command of a run has one reply. A run goes on where another ended, and what it makes of a
/// reached register is reached.
pub fn runs_go_on()
    ensures replied { CommandsAreReplied }
    ensures together { RunsGoOn }
    ensures reached { ReachedGoOn }
{}

/// The opening register of a network and a staff is reached, by a run of no commands.
pub fn opening_registers_are_reached()
    ensures { OpeningRegistersAreReached }
{}

/// In a reached register no clearance has a number over 9,999, and each step is of the first round
/// or the second.
pub fn reached_registers_are_bounded()
    ensures { ReachedRegistersAreBounded }
{}
