//! What keeps a place with the changes of a desk.
ghost use Rattle.std.specs.Prelude.{◌≡◌, [], IfErr, None, Option, option_map, true};
ghost use Rattle.sqlite.specs.Tree.{Trees};
ghost use Rattle.clr_answer.specs.Decision.{is_accepted};
ghost use Rattle.clr_rules.specs.declared.place.Place.{Place};
ghost use Rattle.clr_load.specs.Tables.{place_row};
ghost use Rattle.clr_load.specs.Stored.{ArePlaced};
ghost use Rattle.clr_load.specs.TableEdits.{tables_edited};
ghost use Rattle.clr_store.specs.Renewed.{AreStatesOf, tables_renewed};
ghost use Rattle.clr_store.specs.StepsTaken.{without_steps};
ghost use Rattle.clr_store.specs.Transaction.{Transacts};
ghost use Rattle.clr_desk.specs.Faults.{IsOfKeeper};
ghost use Rattle.clr_desk.specs.Placing.{SetsPlace, StaysOpen};

use crate::commit::Commit;
use crate::desk_fault::DeskFault;
use clr_net::Network;
use clr_rules::{Change, Command, Place, PointState, Reply, StepKey};
use clr_staff::Staff;
use clr_store::Store;
use sqlite::Alter;
use std::alloc::Global;

/// Keeps, beside what accepted commands change, the place that the register has in its journal; and
/// with it what an update and an archive change.
pub trait CommitAt: Commit {
    /// That trees have this place, or have none.
    ghost has_place: { Trees → Option Place → Type 0 };

    /// Keeps the change of a command that is accepted with a reply, and the place after it: both,
    /// or neither. The login at which it is given is not kept.
    fn commit_at(
        &mut self,
        command: &Command,
        reply: &Reply,
        change: &Change,
        place: &Place,
    ) -> Result<(), DeskFault>
        requires accepted { is_accepted reply.now ≡ true }
        ensures commits { Transacts (SetsPlace has_place place.now) StaysOpen
            (Self.kept self.old) (Self.kept self.new) (tables_edited change.now.edits.items)
            result }
        ensures fault { IfErr result (IsOfKeeper Self.fails) }
        ensures taken { Self.takes self.old None command.now reply.now result self.new };

    /// Keeps a place, where no command changes anything. Where it is not kept, all stays as it is.
    fn move_to(&mut self, alloc: Global, place: &Place) -> Result<(), DeskFault>
        ensures commits { Transacts (SetsPlace has_place place.now) StaysOpen
            (Self.kept self.old) (Self.kept self.new) (tables_edited []) result }
        ensures fault { IfErr result (IsOfKeeper Self.fails) };

    /// Keeps another network, another staff and the states of the network's points, and the place
    /// after it: all, or nothing.
    fn update_at(
        &mut self,
        network: &Network,
        staff: &Staff,
        states: &[PointState],
        place: &Place,
    ) -> Result<(), DeskFault>
        requires { AreStatesOf network.now.points states.now }
        ensures turns { Transacts (SetsPlace has_place place.now) StaysOpen
            (Self.kept self.old) (Self.kept self.new)
            (tables_renewed network.now staff.now states.now) result }
        ensures fault { IfErr result (IsOfKeeper Self.fails) };

    /// Takes the steps of these keys out of what is kept, and keeps the place after it: both, or
    /// neither.
    fn take_steps_at(&mut self, keys: &[StepKey], place: &Place) -> Result<(), DeskFault>
        ensures turns { Transacts (SetsPlace has_place place.now) StaysOpen
            (Self.kept self.old) (Self.kept self.new) (without_steps keys.now) result }
        ensures fault { IfErr result (IsOfKeeper Self.fails) };
}

/// A store keeps the place in a table of its own, in the transaction of the change.
impl<S: Alter + Drop> CommitAt for Store<S> {
    ghost has_place = { λ trees place. ArePlaced trees (option_map place_row place) };

    fn commit_at(
        &mut self,
        command: &Command,
        reply: &Reply,
        change: &Change,
        place: &Place,
    ) -> Result<(), DeskFault> {
        self.commit(change, Some(place))?;
        Ok(())
    }

    fn move_to(&mut self, alloc: Global, place: &Place) -> Result<(), DeskFault> {
        let none = Change {
            edits: Vec::new(alloc),
        };
        self.commit(&none, Some(place))?;
        Ok(())
    }

    fn update_at(
        &mut self,
        network: &Network,
        staff: &Staff,
        states: &[PointState],
        place: &Place,
    ) -> Result<(), DeskFault> {
        self.update(network, staff, states, Some(place))?;
        Ok(())
    }

    fn take_steps_at(&mut self, keys: &[StepKey], place: &Place) -> Result<(), DeskFault> {
        self.take_steps(keys, Some(place))?;
        Ok(())
    }
}
