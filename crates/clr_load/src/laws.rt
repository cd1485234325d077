//! A law of the definitions: the contract of the function is the law, and its body is empty.
ghost use Rattle.clr_load.specs.Stored.{TablesOpenAgain};

/// Trees that have the tables of a register, and no others, open as a database that has them. So
/// what a crash leaves of a store is a store when it is opened again.
pub fn tables_open_again()
    ensures { TablesOpenAgain }
{}
