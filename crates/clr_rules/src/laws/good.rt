//! Laws of good registers: the two forms of good are one.
ghost use Rattle.clr_rules.specs.laws.Good.{GoodFormsAreOne};

/// A register is good in each of its parts exactly where each clearance is as its phase wants it.
pub fn good_forms_are_one()
    ensures { GoodFormsAreOne }
{}
