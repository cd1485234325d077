//! Laws of staffed registers: commands keep a register staffed, so every reached register is.
ghost use Rattle.clr_rules.specs.laws.Staffed.{CommandsKeepStaffed, ReachedRegistersAreStaffed};

/// Every command keeps a good register staffed: it is so of each kind, accepted, shown or refused.
pub fn commands_keep_staffed()
    ensures { CommandsKeepStaffed }
{}

/// Every register that commands reach from an opening one is staffed.
pub fn reached_registers_are_staffed()
    ensures { ReachedRegistersAreStaffed }
{}
