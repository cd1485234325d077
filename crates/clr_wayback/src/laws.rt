//! Laws of the way back as it is printed.
ghost use Rattle.clr_wayback.specs.Text.{WaysBackHaveMoments};

/// The commands of a way back have their moments, so what is printed of them reads as them.
pub fn ways_back_have_moments()
    ensures { WaysBackHaveMoments }
{}
