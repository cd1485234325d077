//! Laws of the definitions: the contract of each function is the law.
ghost use Rattle.clr_changes.specs.DeedLaws.{CommandsAreARun, CommandsShowAlike};
ghost use Rattle.clr_changes.specs.DeedLaws.{CrewsWorkSafelyOverDeeds, DeedsKeepGood};
ghost use Rattle.clr_changes.specs.DeedLaws.{NoDeedTakesAway};
ghost use Rattle.clr_changes.specs.DeedLaws.{SafeOverCommands, SameSightsSameAnswers};
ghost use Rattle.clr_changes.specs.DeedLaws.{UnseenDeedsAgree};

/// Deeds keep a good register good, and a staffed one staffed, whoever says them; and commands
/// alone are a run.
pub fn deeds_keep_good()
    ensures good { DeedsKeepGood }
    ensures commands { CommandsAreARun }
{}

/// Crews work safely over commands, updates and archives, whoever says them: before and after each
/// deed every crew that is on is safe, and a tag is taken only by its own clearance's Untag. Of
/// commands alone this says all that is said of a run.
pub fn crews_work_safely_over_deeds()
    ensures deeds { CrewsWorkSafelyOverDeeds }
    ensures commands { SafeOverCommands }
{}

/// The headline's first half over commands, updates and archives. What it asks for is met where the
/// headline over commands is, and deeds that show nothing may come between.
pub fn same_sights_same_answers()
    ensures headline { SameSightsSameAnswers }
    ensures commands { CommandsShowAlike }
    ensures unseen { UnseenDeedsAgree }
{}

/// The headline's second half over commands, updates and archives: no deed of others takes anything
/// away from a clearance, but an archive the steps of a closed one.
pub fn no_deed_takes_away()
    ensures { NoDeedTakesAway }
{}
