//! Laws of keeping: commands and runs keep a good register good.
ghost use Rattle.clr_rules.specs.laws.Keeps.{CommandsKeepGood, ReachedRegistersAreGood};

/// Every command keeps a good register good: it is so of each kind, accepted, shown or refused.
pub fn commands_keep_good()
    ensures { CommandsKeepGood }
{}

/// Every register that commands reach from an opening one is good.
pub fn reached_registers_are_good()
    ensures { ReachedRegistersAreGood }
{}
