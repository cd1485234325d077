//! The room that a change needs.
ghost use Rattle.std.specs.Prelude.{◌≡◌};
ghost use Rattle.clr_book.specs.Book.{Room, needs};

use clr_rules::Edit;

/// How many rows edits put on the shelves of states, of records, of steps and of holds.
#[derive(Clone, Copy)]
pub(crate) struct Puts {
    pub(crate) states: usize,
    pub(crate) records: usize,
    pub(crate) steps: usize,
    pub(crate) holds: usize,
}

/// The rows that these edits put.
pub(crate) fn puts_of(edits: &[Edit]) -> Puts
    ensures states { result.states ≡ Room.states (needs edits.now) }
    ensures records { result.records ≡ Room.records (needs edits.now) }
    ensures open_records { result.records ≡ Room.open_records (needs edits.now) }
    ensures steps { result.steps ≡ Room.steps (needs edits.now) }
    ensures holds { result.holds ≡ Room.holds (needs edits.now) }
{
    let mut puts = Puts {
        states: 0,
        records: 0,
        steps: 0,
        holds: 0,
    };
    for edit in edits {
        match edit {
            Edit::PutRecord(_) => puts.records += 1,
            Edit::PutStep(_) => puts.steps += 1,
            Edit::PutHold(_) => puts.holds += 1,
            Edit::AddPoint(_) => puts.states += 1,
            Edit::SetPosition { .. }
            | Edit::SetHand { .. }
            | Edit::TakeHold(_)
            | Edit::AddSection(_) => {}
        }
    }
    puts
}
