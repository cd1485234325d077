//! Laws of archives: the contract of each function is the law, and its body is empty.
ghost use Rattle.clr_changes.specs.ArchiveLaws.{ArchivesAddUp, ArchivesKeepAgreement};
ghost use Rattle.clr_changes.specs.ArchiveLaws.{ArchivesKeepGood, ArchivesTakeClosedSteps};
ghost use Rattle.clr_changes.specs.ArchiveLaws.{DeedsGoAsUnarchived, NoStepIsLost, OnlyShowsDiffer};
ghost use Rattle.clr_changes.specs.ArchiveLaws.{WithoutUpdatesAreMade};

/// An archive keeps a good register good, and a staffed one staffed.
pub fn archives_keep_good()
    ensures { ArchivesKeepGood }
{}

/// An archive takes the steps of closed records alone, and what is printed has each of them.
pub fn archives_take_closed_steps()
    ensures own { ArchivesTakeClosedSteps }
    ensures none_lost { NoStepIsLost }
{}

/// Only a show of a record that gave up its steps is answered otherwise.
pub fn only_shows_differ()
    ensures { OnlyShowsDiffer }
{}

/// Over commands, updates and archives, all commands that show no such record are answered as if
/// nothing were archived, if each update can be made and leaves an operator. Of commands and
/// archives alone nothing has to be made.
pub fn deeds_go_as_unarchived()
    ensures answers { DeedsGoAsUnarchived }
    ensures commands { WithoutUpdatesAreMade }
{}

/// Two registers that agree near a clearance agree near it after archives.
pub fn archives_keep_agreement()
    ensures { ArchivesKeepAgreement }
{}

/// An archive that is made again does nothing, and one of a later moment does the rest.
pub fn archives_add_up()
    ensures { ArchivesAddUp }
{}
