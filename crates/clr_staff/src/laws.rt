//! Laws of the definitions: the contract of each function is the law, and its body is empty.
ghost use Rattle.clr_staff.specs.Laws.{StaffHasNoFault};

/// Rows of which there is a staff have no fault, so that a build of them answers it.
pub fn staff_has_no_fault()
    ensures { StaffHasNoFault }
{}
