//! Laws of edits: what each does to the register, what it leaves, and which answers have none.
ghost use Rattle.clr_rules.specs.EditOrder.{AnswersEditsInOrder};
ghost use Rattle.clr_rules.specs.laws.Edits.{AcceptedPassesChecks, AddedPassesChecks};
ghost use Rattle.clr_rules.specs.laws.Edits.{EditsKeepNetwork, EditsKeepOrder, EditsLeaveTheRest};
ghost use Rattle.clr_rules.specs.laws.Edits.{PutHoldAdds, PutRecordReplaces, PutStepReplaces};
ghost use Rattle.clr_rules.specs.laws.Edits.{PutsKeepOtherRows, RefusedByFirstCheck};
ghost use Rattle.clr_rules.specs.laws.Edits.{RefusedChangesNothing, SetHandSets, SetPositionSets};
ghost use Rattle.clr_rules.specs.laws.Edits.{ShownChangesNothing, TakeHoldTakes};

/// A record or a step that is put replaces that of its key, and all others are read as before.
pub fn puts_replace()
    ensures record { PutRecordReplaces }
    ensures step { PutStepReplaces }
{}

/// A hold that is put is there, a hold that is taken is gone, and all others are there where they
/// were.
pub fn holds_are_put_and_taken()
    ensures put { PutHoldAdds }
    ensures taken { TakeHoldTakes }
{}

/// Setting a point's position or hand changes that and nothing else of its state, and no other
/// point's.
pub fn states_are_set()
    ensures position { SetPositionSets }
    ensures hand { SetHandSets }
{}

/// Where the lists are in key order, every other row stays after a put or a take, and no other row
/// comes.
pub fn other_rows_stay()
    ensures { PutsKeepOtherRows }
{}

/// An edit leaves the network, the staff and each list that it is not of.
pub fn edits_leave_the_rest()
    ensures { EditsLeaveTheRest }
{}

/// Edits keep the lists in key order, and with that the points that have states; the network and
/// the staff stay.
pub fn edits_keep_order()
    ensures order { EditsKeepOrder }
    ensures network { EditsKeepNetwork }
{}

/// A command is refused exactly where a check applies, by the first that does, and then changes
/// nothing.
pub fn refused_commands_change_nothing()
    ensures check { RefusedByFirstCheck }
    ensures nothing { RefusedChangesNothing }
{}

/// A command that is shown passes all checks and changes nothing; one that is accepted passes all
/// checks, and so does one that adds a point.
pub fn accepted_commands_pass_all_checks()
    ensures shown { ShownChangesNothing }
    ensures accepted { AcceptedPassesChecks }
    ensures added { AddedPassesChecks }
{}

/// Where the lists are in key order, an answer's edits are in the order of their kinds, and those
/// of a kind in that of their keys, no key twice.
pub fn answers_edits_stand_in_order()
    ensures { AnswersEditsInOrder }
{}
