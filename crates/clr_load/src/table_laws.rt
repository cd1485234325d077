//! Laws of the definitions: the contract of each function is the law, and its body is empty.
ghost use Rattle.clr_load.specs.TableLaws.{CommandsKeepTyped, GoodAreToldByTables};
ghost use Rattle.clr_load.specs.TableLaws.{OpeningsAreTyped, PlacesAreRead};
ghost use Rattle.clr_load.specs.TableLaws.{SameTablesSameRegister, TablesAreRead};
ghost use Rattle.clr_load.specs.TableLaws.{TablesAreMoved, TablesFollowEdits};
ghost use Rattle.clr_load.specs.TableLaws.{TablesReadAsNoOthers};

/// Registers that have the same tables are the same, where the states are those of the points, the
/// lists are in order and the network has no positions, as in every good register.
pub fn same_tables_same_register()
    ensures same { SameTablesSameRegister }
    ensures good { GoodAreToldByTables }
{}

/// The tables of the edited register are the edited tables.
pub fn tables_follow_edits()
    ensures { TablesFollowEdits }
{}

/// The tables of a register read as its rows, where each value is of its type, and as no others.
pub fn tables_are_read()
    ensures rows { TablesAreRead }
    ensures no_others { TablesReadAsNoOthers }
{}

/// The tables of version 1 of a register without a jumper, moved, are the tables of the register.
pub fn tables_are_moved()
    ensures { TablesAreMoved }
{}

/// In an opening register of rows within their types each value is of its type, and it stays so
/// after commands whose values are: so the tables of every register that the program reaches can be
/// read.
pub fn registers_stay_typed()
    ensures opening { OpeningsAreTyped }
    ensures commands { CommandsKeepTyped }
{}

/// The row of a place in a journal reads as that place.
pub fn places_are_read()
    ensures { PlacesAreRead }
{}
