//! Laws of the tests: they say what a good register is, and a staffed one.
ghost use Rattle.clr_good.specs.Laws.{StaffedTestIsExact, TestIsExact};

/// Of a register that is kept, its lists fit exactly where it is good.
pub fn test_is_exact()
    ensures { TestIsExact }
{}

/// Of a good register, its lists are staffed exactly where it is.
pub fn staffed_test_is_exact()
    ensures { StaffedTestIsExact }
{}
