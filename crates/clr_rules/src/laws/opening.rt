//! Laws of the opening register.
ghost use Rattle.clr_rules.specs.laws.Opening.{OpeningRegistersAreGood};

/// The opening register of a network and a staff is good.
pub fn opening_registers_are_good()
    ensures { OpeningRegistersAreGood }
{}
