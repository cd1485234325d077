//! Why an order is refused.
use clr_net::Name;
use thiserror::Error;

/// Why an order is refused. The first reason in the order of the variants that a check asks about
/// is answered.
#[derive(Clone, Copy, Debug, PartialEq, Eq, Error)]
pub enum OrderFault {
    /// An isolating order has no points; a restoring or switching one has no steps.
    #[error("the order is empty")]
    EmptyOrder,
    /// There are more than 64 points or more than 256 steps.
    #[error("the order has more than 64 points or 256 steps")]
    LongOrder,
    /// A point comes twice among the points.
    #[error("a point stands twice")]
    PointTwice,
    /// The fence has a source, of which this is the least in the order of names.
    #[error("the source {0} lies inside the fence")]
    SourceInside(Name),
    /// The first of the points that is not on the border of the fence: it is unknown,
    /// elsewhere or inside.
    #[error("the point {0} does not stand on the border of the fence")]
    NotOnFence(Name),
    /// The first point whose steps are not those that it has to have, otherwise the point of the
    /// first step that is elsewhere; of a switch order the point of the first step that neither
    /// opens nor closes.
    #[error("the steps at the point {0} are wrong")]
    StepsWrong(Name),
    /// The point of the first step whose point was not found, in a switch order alone.
    #[error("the point {0} is unknown")]
    UnknownPoint(Name),
    /// Memory ran out. The checks take no memory, so none of them answers this today.
    #[error("out of memory")]
    NoMemory,
}
