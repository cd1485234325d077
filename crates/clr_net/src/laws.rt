//! Laws of the definitions: the contract of each function is the law, and its body is empty.
ghost use Rattle.clr_net.specs.Laws.{FenceIsClosed, FenceIsLeast, FenceIsWalks};
ghost use Rattle.clr_net.specs.Laws.{FencesAreLocal, NetworksHaveNoFault};
ghost use Rattle.clr_net.specs.Laws.{AdditionsKeepFences, PointsAreAdded, SectionsAreAdded};

/// A section is in the fence exactly where a walk from the work section leads to it over points
/// that are not cut.
pub fn fence_is_walks()
    ensures { FenceIsWalks }
{}

/// The fence has the work section, and no point leaves it but those that are cut.
pub fn fence_is_closed()
    ensures { FenceIsClosed }
{}

/// The fence is the least set that has the work section and that no point leaves but those that are
/// cut.
pub fn fence_is_least()
    ensures { FenceIsLeast }
{}

/// Locality: two networks that have the same rows at a fence of the first have the same fence, the
/// points' positions aside. What is changed elsewhere changes nothing there.
pub fn fences_are_local()
    ensures { FencesAreLocal }
{}

/// Rows of which there is a network have no fault, so that a build of them answers it.
pub fn networks_have_no_fault()
    ensures { NetworksHaveNoFault }
{}

/// A network to which a section is added is one again: that of the rows and the new one.
pub fn sections_are_added()
    ensures { SectionsAreAdded }
{}

/// A network to which a point is added is one again: that of the rows and the new one.
pub fn points_are_added()
    ensures { PointsAreAdded }
{}

/// A new section, and a new point that does not cross a fence, leave the fence as it was: no end of
/// the point lies inside, or both do. With both inside it is one more point that touches the fence.
pub fn additions_keep_fences()
    ensures { AdditionsKeepFences }
{}
