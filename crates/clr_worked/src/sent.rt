//! Commands that are posted.
ghost use Rattle.clr_worked.specs.Sent.{PostedCommandsAreAnswered, PostedCommandsAsk};
ghost use Rattle.clr_worked.specs.Sent.{PostedCommandsHaveNoOtherAnswer};

/// Commands that are posted, each as the text that is written for it, are asked; without a fault
/// they get the replies of a run, and nothing else: a law, with nothing to do.
pub fn posted_commands_are_answered()
    ensures asked { PostedCommandsAsk }
    ensures answered { PostedCommandsAreAnswered }
    ensures once { PostedCommandsHaveNoOtherAnswer }
{}
