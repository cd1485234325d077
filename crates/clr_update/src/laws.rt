//! Laws of updates: the contract of each function is the law, and its body is empty.
ghost use Rattle.clr_update.specs.DeltaLaws.{ChangesKeepGood, ChangesSayAll, MadeChangesAreUpdates};
ghost use Rattle.clr_update.specs.Laws.{EntriesKeepGood, NoEntryTakesAway, PointsKeepTheirStates};
ghost use Rattle.clr_update.specs.Laws.{SameChangesAgree, SameSightsSameAnswers, SameStaffAgrees};
ghost use Rattle.clr_update.specs.Laws.{StandingFencesStay, UnseenUpdatesAgree, UpdatesKeepGood};
ghost use Rattle.clr_update.specs.Laws.{UpdatesLeaveAWayBack, UpdatesTakeNothing};

/// An update keeps a good register good, and a staffed one staffed. A point that stays keeps its
/// position, and is in the hand that it was in.
pub fn updates_keep_good()
    ensures good { UpdatesKeepGood }
    ensures states { PointsKeepTheirStates }
{}

/// An update takes nothing away: record, steps, holds, hands and fence of each clearance stay, each
/// point that it holds is open, crews are safe, and no section of a granted fence is live.
pub fn updates_take_nothing()
    ensures { UpdatesTakeNothing }
{}

/// Nothing near a standing clearance changes but the staff; and where nothing changes, the register
/// agrees with itself.
pub fn standing_fences_stay()
    ensures network { StandingFencesStay }
    ensures unseen { UnseenUpdatesAgree }
    ensures same_staff { SameStaffAgrees }
{}

/// Two registers that agree near a clearance agree again after updates that change the same there.
pub fn same_changes_agree()
    ensures { SameChangesAgree }
{}

/// The headline's first half over commands and updates: where they show a clearance the same, its
/// own commands have the same answers, and the registers agree again.
pub fn same_sights_same_answers()
    ensures { SameSightsSameAnswers }
{}

/// The headline's second half over commands and updates: no command about another clearance, and no
/// update, takes anything away from a clearance. The register stays good and staffed.
pub fn no_entry_takes_away()
    ensures nothing { NoEntryTakesAway }
    ensures good { EntriesKeepGood }
{}

/// After an update every open record has a way back.
pub fn updates_leave_a_way_back()
    ensures { UpdatesLeaveAWayBack }
{}

/// The changes of an accepted update say all of it: they can be made, and lead where it leads.
pub fn changes_say_all()
    ensures { ChangesSayAll }
{}

/// Changes that can be made are an update that is accepted, whoever says them. So a good register
/// is good after any changes, a staffed one staffed, and they take nothing away.
pub fn made_changes_are_updates()
    ensures updates { MadeChangesAreUpdates }
    ensures good { ChangesKeepGood }
{}
