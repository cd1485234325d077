//! The rows of a register, as shelves have them.
ghost use Rattle.std.specs.Prelude.{◌≡◌};
ghost use Rattle.clr_good.specs.Whole.{IsKept};

use clr_book::Book;
use clr_net::Network;
use clr_rules::{Hold, PointState, Record, StepRow};
use clr_shelf::Shelf;
use clr_staff::Staff;
use std::alloc::Global;
use std::marker::Model;

/// A network, a staff, and the rows of a register on four shelves.
#[derive(Drop)]
pub(crate) struct Shelves<
    'a,
    P: Shelf<PointState>,
    C: Shelf<Record>,
    T: Shelf<StepRow>,
    H: Shelf<Hold>,
> {
    pub(crate) alloc: Global,
    pub(crate) network: &'a Network,
    pub(crate) staff: &'a Staff,
    pub(crate) states: &'a P,
    pub(crate) records: &'a C,
    pub(crate) steps: &'a T,
    pub(crate) holds: &'a H,
}

impl<'a, P: Shelf<PointState>, C: Shelf<Record>, T: Shelf<StepRow>, H: Shelf<Hold>> Model
    for Shelves<'a, P, C, T, H> {
    ghost use Rattle.clr_rules.specs.Register.{Register, unplaced_net};

    ghost Value = { Register };

    ghost view = { λ s. record {
      net = unplaced_net s.network.now;
      staff = s.staff.now;
      states = P.rows s.states.now;
      records = C.rows s.records.now;
      steps = T.rows s.steps.now;
      holds = H.rows s.holds.now;
    } };
}

impl<'a, P: Shelf<PointState>, C: Shelf<Record>, T: Shelf<StepRow>, H: Shelf<Hold>> Shelves<
    'a,
    P,
    C,
    T,
    H,
> {
    /// The register of a book.
    pub(crate) fn of(alloc: Global, book: &'a Book<P, C, T, H>) -> Self
        ensures { result ≡ book.now.register }
    {
        let (states, records, steps, holds) = book.shelves();
        Shelves {
            alloc,
            network: book.network(),
            staff: book.staff(),
            states,
            records,
            steps,
            holds,
        }
    }

    /// A register on shelves has a network and a staff, and its lists are in key order: a law,
    /// with nothing to do.
    pub(crate) fn is_kept(&self)
        ensures { IsKept self.now }
    {
        self.network.is_network();
        self.staff.is_staff();
    }
}
