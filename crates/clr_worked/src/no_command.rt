//! Requests that are no command.
ghost use Rattle.clr_worked.specs.NoCommand.{PrintedOrdersAreTheSame, RefusalsAreOfTheRequest};

/// What the answer to a request that is no command depends on, where no fault is counted: that of a
/// printed order, on what is near its clearance; a refusal, on the request alone. The board has all
/// clearances. A law, with nothing to do.
pub fn answers_to_no_command()
    ensures orders { PrintedOrdersAreTheSame }
    ensures refusals { RefusalsAreOfTheRequest }
{}
