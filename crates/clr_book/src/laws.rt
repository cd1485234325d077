//! Laws of the definitions: the contract of each function is the law.
ghost use Rattle.clr_book.specs.Laws.{OwnNeedsOrderAlone, OwnRowsAreEnough};

/// A command that needs no fence is answered by the clearance's own rows as by the whole register;
/// and in a good register any command is, by what it looks at.
pub fn own_rows_are_enough()
    ensures { OwnRowsAreEnough }
{}

/// A command that never needs a fence is answered so in each register whose lists are in order.
pub fn own_needs_order_alone()
    ensures { OwnNeedsOrderAlone }
{}
