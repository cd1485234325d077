//! The book: the network, the staff, and the rows of the register on four shelves. The records that
//! are not closed are on a fifth.
ghost use Rattle.std.specs.Prelude.{◌≡◌, ◌<◌, [], true, IfOk, IsOk, OnOk, map, option_copied};
ghost use Rattle.clr_net.specs.Additions.{with_point, with_section};
ghost use Rattle.clr_rules.specs.Edits.{after_edit, after_edits, fit, fits_edit};
ghost use Rattle.clr_rules.specs.Records.{record_of};
ghost use Rattle.clr_rules.specs.Register.{Register, opening, unplaced_net};
ghost use Rattle.clr_rules.specs.Run.{IsReached};
ghost use Rattle.clr_rules.specs.States.{state_of};
ghost use Rattle.clr_rules.specs.Steps.{steps_of};
ghost use Rattle.clr_rules.specs.declared.change.Edit.TheVariants.{AddPoint, AddSection};
ghost use Rattle.clr_rules.specs.declared.change.Edit.TheVariants.{PutRecord};
ghost use Rattle.clr_book.specs.Book.{Fits, Room, Shelved, need_of, needs, open_in};
ghost use Rattle.clr_book.specs.Growth.{network_after, network_after_all};

pub(crate) mod room;
pub(crate) mod rows;
pub(crate) mod unclosed;

use crate::book::room::puts_of;
use crate::book::rows::all_rows;
use crate::book::unclosed::{open_shelf, put_if_open};
use crate::states::{opening_states, set_hand, set_position};
use clr_net::{Name, Network, PointRow, Position, SectionRow};
use clr_rules::{Change, ClearanceId, Edit, Hold, PointState, Record, StepRow};
use clr_shelf::Shelf;
use clr_staff::Staff;
use std::alloc::{AllocError, Global};
use std::marker::Model;

/// The register of clearances of one network and one staff.
#[derive(Drop)]
pub struct Book<P: Shelf<PointState>, C: Shelf<Record>, T: Shelf<StepRow>, H: Shelf<Hold>> {
    pub(crate) alloc: Global,
    pub(crate) network: Network,
    pub(crate) staff: Staff,
    pub(crate) states: P,
    pub(crate) records: C,
    // Copies of the records that are not closed, so that no closed one is looked at to find them.
    pub(crate) open_records: C,
    pub(crate) steps: T,
    pub(crate) holds: H,
    ghost unclosed: { C.rows open_records ≡ open_in (C.rows records) },
}

impl<P: Shelf<PointState>, C: Shelf<Record>, T: Shelf<StepRow>, H: Shelf<Hold>> Model
    for Book<P, C, T, H> {
    ghost use Rattle.clr_rules.specs.Register.{Register, unplaced_net};
    ghost use Rattle.clr_book.specs.Book.{Room, Shelved};

    ghost Value = { Shelved };

    ghost view = { λ b. record {
      network = b.network;
      register = record {
        net = unplaced_net b.network;
        staff = b.staff;
        states = P.rows b.states;
        records = C.rows b.records;
        steps = T.rows b.steps;
        holds = H.rows b.holds;
      };
      room = record {
        states = P.room b.states;
        records = C.room b.records;
        open_records = C.room b.open_records;
        steps = T.room b.steps;
        holds = H.room b.holds;
      };
    } };
}

impl<P: Shelf<PointState>, C: Shelf<Record>, T: Shelf<StepRow>, H: Shelf<Hold>> Book<P, C, T, H> {
    /// The book before the first command: each point in the position of its row, and nothing asked
    /// for, ordered or held.
    pub fn opening(alloc: Global, network: Network, staff: Staff) -> Result<Self, AllocError>
        ensures register { IfOk result (λ book. book.register ≡ opening network staff) }
        ensures network { IfOk result (λ book. book.network ≡ network) }
        ensures reached { IfOk result (λ book. IsReached book.register) }
    {
        network.is_network();
        staff.is_staff();
        let states = opening_states(alloc, network.points())?;
        Ok(Book {
            alloc,
            network,
            staff,
            states,
            records: C::empty(alloc),
            open_records: C::empty(alloc),
            steps: T::empty(alloc),
            holds: H::empty(alloc),
        })
    }

    /// The network that the book was opened with and what was added to it, each point in the
    /// position of its row.
    pub fn network(&self) -> &Network
        ensures rows { result.now ≡ self.now.network }
        ensures register { unplaced_net result.now ≡ self.now.register.net }
    {
        &self.network
    }

    /// The staff that the book was opened with.
    pub fn staff(&self) -> &Staff
        ensures { result.now ≡ self.now.register.staff }
    {
        &self.staff
    }

    /// The four shelves: the states of the points, the records, the steps and the holds.
    pub fn shelves(&self) -> (&P, &C, &T, &H)
        ensures { self.now.register ≡ record {
          net = unplaced_net self.now.network;
          staff = self.now.register.staff;
          states = P.rows result.0.now;
          records = C.rows result.1.now;
          steps = T.rows result.2.now;
          holds = H.rows result.3.now;
        } }
    {
        (&self.states, &self.records, &self.steps, &self.holds)
    }

    /// The book with these shelves in place of its own of records, steps and holds. The room is
    /// theirs. The open records are copied, which needs memory and makes any room for more of them.
    pub fn with_shelves(self, records: C, steps: T, holds: H) -> Result<Self, AllocError>
        ensures register { IfOk result (λ book. book.register ≡ record self.register {
          records = C.rows records;
          steps = T.rows steps;
          holds = H.rows holds;
        }) }
        ensures network { IfOk result (λ book. book.network ≡ self.network) }
        ensures room { IfOk result (λ book. book.room ≡ record self.room {
          records = C.room records;
          open_records = book.room.open_records;
          steps = T.room steps;
          holds = H.room holds;
        }) }
    {
        let open_records = open_shelf(self.alloc, &records)?;
        Ok(Book {
            alloc: self.alloc,
            network: self.network,
            staff: self.staff,
            states: self.states,
            records,
            open_records,
            steps,
            holds,
        })
    }

    /// The position of a point, and whose order is at work on it.
    pub fn state(&self, point: &Name) -> Option<&PointState>
        ensures { option_copied result ≡ state_of self.now.register.states point.now }
    {
        self.states.get(point)
    }

    /// What is written down of a clearance, or of a switch order.
    pub fn record(&self, id: &ClearanceId) -> Option<&Record>
        ensures { option_copied result ≡ record_of self.now.register.records id.now }
    {
        self.records.get(id)
    }

    /// All records, in the order of their clearances.
    pub fn records(&self) -> Result<Vec<&Record>, AllocError>
        ensures { IfOk result (λ found. map (λ row. row.now) found.items
            ≡ self.now.register.records) }
    {
        all_rows(self.alloc, &self.records)
    }

    /// The records that are not closed, in the order of their clearances. No closed one is looked
    /// at.
    pub fn open_records(&self) -> Result<Vec<&Record>, AllocError>
        ensures { IfOk result (λ found. map (λ row. row.now) found.items
            ≡ open_in self.now.register.records) }
    {
        all_rows(self.alloc, &self.open_records)
    }

    /// The steps of a clearance, by round and then by their numbers.
    #[tactic(auto, unfolding(clr_rules::specs::Steps::steps_of))]
    pub fn steps(&self, id: &ClearanceId) -> Result<Vec<&StepRow>, AllocError>
        ensures { IfOk result (λ found. map (λ row. row.now) found.items
            ≡ steps_of self.now.register.steps id.now) }
    {
        self.steps.group(id)
    }

    /// Makes the room that a change needs. It changes nothing else, and room that was made stays,
    /// also where memory is refused; that is only asked for where there is less room. The network
    /// needs none: it has that of the greatest one.
    pub fn reserve(&mut self, change: &Change) -> Result<(), AllocError>
        ensures register { self.new.register ≡ self.old.register }
        ensures network { self.new.network ≡ self.old.network }
        ensures room { OnOk result (Fits (needs change.now.edits.items) self.new.room) }
        ensures kept { Fits self.old.room self.new.room }
        ensures succeeds { Fits (needs change.now.edits.items) self.old.room → IsOk result }
    {
        let puts = puts_of(&change.edits);
        self.states.reserve(puts.states)?;
        self.records.reserve(puts.records)?;
        self.open_records.reserve(puts.records)?;
        self.steps.reserve(puts.steps)?;
        self.holds.reserve(puts.holds)?;
        Ok(())
    }

    /// Makes a change, in the room that `reserve` made for it. What it adds has to fit the network,
    /// as it does in each change that `answer` gives. The network has what is added, and no other
    /// row of it changes.
    pub fn apply(&mut self, change: Change)
        requires room { Fits (needs change.edits.items) self.old.room }
        requires fits { fit self.old.register.net change.edits.items ≡ true }
        ensures register { self.new.register ≡ after_edits change.edits.items self.old.register }
        ensures network { self.new.network ≡ network_after_all change.edits.items self.old.network }
    {
        for edit in &change.edits {
            self.make(edit);
        }
    }

    /// Makes one edit.
    fn make(&mut self, edit: &Edit)
        requires room { Fits (need_of edit.now (needs [])) self.old.room }
        requires fits { fits_edit self.old.register.net edit.now ≡ true }
        ensures register { self.new.register ≡ after_edit edit.now self.old.register }
        ensures network { self.new.network ≡ network_after edit.now self.old.network }
        ensures room { Fits self.old.room (need_of edit.now self.new.room) }
    {
        match *edit {
            Edit::SetPosition { point, position } => set_position(
                &mut self.states,
                &point,
                position,
            ),
            Edit::SetHand { point, hand } => set_hand(&mut self.states, &point, hand),
            Edit::PutHold(hold) => self.holds.put(hold),
            Edit::TakeHold(hold) => {
                let _taken = self.holds.take(&hold);
            }
            Edit::PutRecord(record) => self.put_record(record),
            Edit::PutStep(row) => self.steps.put(row),
            Edit::AddSection(section) => self.add_section(section),
            Edit::AddPoint(point) => self.add_point(point),
        }
    }

    /// Puts a record, and among the open ones unless it is closed.
    fn put_record(&mut self, row: Record)
        requires records { 0 < Room.records self.old.room }
        requires open_records { 0 < Room.open_records self.old.room }
        ensures register { self.new.register ≡ after_edit (PutRecord row) self.old.register }
        ensures network { self.new.network ≡ self.old.network }
        ensures room { Fits self.old.room (need_of (PutRecord row) self.new.room) }
    {
        put_if_open(&mut self.open_records, &row);
        self.records.put(row);
    }

    /// Adds a section.
    fn add_section(&mut self, section: SectionRow)
        requires { fits_edit self.old.register.net (AddSection section) ≡ true }
        ensures register { self.new.register ≡ after_edit (AddSection section) self.old.register }
        ensures network { self.new.network ≡ with_section section self.old.network }
        ensures room { self.new.room ≡ self.old.room }
    {
        self.network.add_section(section);
    }

    /// Adds a point, which is open and in nobody's hand.
    fn add_point(&mut self, point: PointRow)
        requires room { 0 < Room.states self.old.room }
        requires fits { fits_edit self.old.register.net (AddPoint point) ≡ true }
        ensures register { self.new.register ≡ after_edit (AddPoint point) self.old.register }
        ensures network { self.new.network ≡ with_point point self.old.network }
        ensures room { Fits self.old.room (need_of (AddPoint point) self.new.room) }
    {
        let state = PointState {
            point: point.name,
            position: Position::Opened,
            hand: None,
        };
        self.network.add_point(point);
        self.states.put(state);
    }
}
