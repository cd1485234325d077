//! A desk keeps a register that can be served, whatever keeps its changes.
ghost use Rattle.std.specs.Prelude.{◌≡◌};
ghost use Rattle.clr_desk.specs.Given.{LeadsTo};
ghost use Rattle.clr_desk.proofs.Givings.{leads_itself, leads_on};
ghost use Rattle.clr_http.specs.Desks.{DeskTakes};

use crate::registrar::Registrar;
use clr_desk::{Commit, Desk};
use clr_print::{print_board, print_order};
use clr_rules::{ClearanceId, Command, Reply, Text};
use clr_view::network_text;
use clr_wayback::{WayBack, way_back};
use std::alloc::{AllocError, Global};

impl<K: Commit> Registrar for Desk<K> {
    ghost keeper = { λ d. record { register = d.book.register; faults = d.faults } };

    ghost leads_to = { λ before behind. LeadsTo K.kept K.takes before behind };

    ghost takes = { DeskTakes K.takes };

    ghost doubts = { λ d. K.doubts d.store };

    ghost stays = { λ one. leads_itself K.kept K.takes one };

    ghost goes_on = { λ before between behind. leads_on K.kept K.takes before between behind };

    fn faults(&self) -> u64 {
        self.faults()
    }

    fn is_in_doubt(&self) -> bool {
        self.is_in_doubt()
    }

    fn answer(&mut self, login: Option<Text>, command: Command) -> Option<Reply> {
        self.one_from(login, command).ok()
    }

    fn order(
        &self,
        alloc: Global,
        id: &ClearanceId,
        round: u8,
    ) -> Result<Option<String>, AllocError> {
        print_order(alloc, self.book(), id, round, 0)
    }

    fn board(&self, alloc: Global) -> Result<String, AllocError> {
        print_board(alloc, self.book(), 0)
    }

    fn network(&self, alloc: Global) -> Result<String, AllocError> {
        network_text(alloc, self.book())
    }

    fn way_back(&self, alloc: Global, id: &ClearanceId) -> Result<WayBack, AllocError> {
        way_back(alloc, self.book(), id)
    }
}
