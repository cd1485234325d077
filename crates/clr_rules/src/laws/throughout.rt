//! Laws of what commands alone keep: closed records too have what is asked of open ones.
ghost use Rattle.clr_rules.specs.laws.Throughout.{CommandsKeepThroughout, ReachedThroughout};
ghost use Rattle.clr_rules.specs.laws.Throughout.{ThroughoutIsMore};

/// A register that is good throughout is good, and one that is staffed throughout is staffed.
pub fn throughout_is_more()
    ensures { ThroughoutIsMore }
{}

/// Every command keeps a register good and staffed throughout: it is so of each kind, accepted,
/// shown or refused.
pub fn commands_keep_throughout()
    ensures { CommandsKeepThroughout }
{}

/// Every register that commands reach from an opening one is good and staffed throughout.
pub fn reached_registers_are_throughout()
    ensures { ReachedThroughout }
{}
