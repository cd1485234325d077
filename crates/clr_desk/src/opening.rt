//! Opening: the book of the rows that a store has loaded.
ghost use Rattle.std.specs.Prelude.{◌≡◌, ◌⊎◌, ℕ, List, Option, Some, None, IfErr, IfOk, IsErrAnd};
ghost use Rattle.std.specs.Prelude.{IsTrue, OnOk, length, map, nat_lt};
ghost use Rattle.clr_staff.specs.Staff.{IsStaffOf, first_fault as staff_fault};
ghost use Rattle.clr_net.specs.Network.{IsGridOf, first_fault as network_fault};
ghost use Rattle.clr_rules.specs.Edits.{after_edits};
ghost use Rattle.clr_rules.specs.Register.{opening};
ghost use Rattle.clr_load.specs.declared.table_name.TableName.TheVariants as table;
ghost use Rattle.clr_book.specs.Book.{Shelved};
ghost use Rattle.clr_load.specs.Contract.{IsSaved};
ghost use Rattle.clr_load.specs.Cause.{SqlHasCause};
ghost use Rattle.clr_load.specs.Fault.{IsOfDatabase};
ghost use Rattle.clr_load.specs.Stored.{HasTables};
ghost use Rattle.clr_load.specs.RowsRead.{Rows, rows_read};
ghost use Rattle.clr_load.specs.Tables.{Tables};
ghost use Rattle.clr_load.specs.TypedRows.{IsTyped};
ghost use Rattle.sqlite.specs.Held.{state};
ghost use Rattle.sqlite.specs.State.{HasCleanDisk, Survives};
ghost use Rattle.clr_desk.specs.Filling.{hand_edit};
ghost use Rattle.clr_desk.specs.Loaded.{HasRows};
ghost use Rattle.clr_desk.specs.Opening.{FailsToOpen, HasNetworkOf, IsRegisterOf, OpensAs};
ghost use Rattle.clr_desk.specs.Opening.{bad_network, bad_staff, bad_table, table_of};
ghost use Rattle.clr_net.specs.Grid.{Grid};
ghost use Rattle.clr_load.specs.declared.fault.StoreFault.TheVariants.{BadRow, NoMemory};

use crate::book::{DeskBook, make, opening_book};
use crate::shelves::{Shelves, refilled};
use crate::typed::all_typed;
use crate::typed_shelf::TypedShelf;
use clr_load::{Loaded, StoreFault, TableName};
use clr_net::{MAX_SECTIONS, NetFault, Network, PointRow, SectionRow};
use clr_rules::{Edit, Hold, PointState, Record, StepRow};
use clr_shelf::SortedShelf;
use clr_staff::{Staff, StaffFault, StaffRow};
use clr_store::Store;
use sqlite::Alter;
use std::alloc::{AllocError, Global};

/// What a store has loaded: clearances, steps and holds on the shelves of a book.
pub(crate) type LoadedShelves = Loaded<
    TypedShelf<Record, SortedShelf<Record>>,
    TypedShelf<StepRow, SortedShelf<StepRow>>,
    TypedShelf<Hold, SortedShelf<Hold>>,
>;

/// The edits that put each point into the hand that it is in.
pub fn hand_edits(alloc: Global, states: &[PointState]) -> Result<Vec<Edit>, AllocError>
    ensures { IfOk result (λ edits. edits.items ≡ map hand_edit states.now) }
{
    let hands = states.iter().map(|state| Edit::SetHand {
        point: state.point,
        hand: state.hand,
    });
    hands.collect(alloc)
}

/// The book of a network and a staff, with each point in the hand that it is in.
fn handed_book(
    alloc: Global,
    network: Network,
    staff: Staff,
    states: &[PointState],
) -> Result<DeskBook, AllocError>
    ensures register { IfOk result (λ book. book.register
        ≡ after_edits (map hand_edit states.now) (opening network staff)) }
    ensures network { IfOk result (λ book. book.network ≡ network) }
    ensures typed { IfOk result (λ book. IsTyped book.register) }
{
    all_typed(states);
    let mut book = opening_book(alloc, network, staff)?;
    put_in_hands(alloc, &mut book, states)?;
    Ok(book)
}

/// Puts each point of a book into the hand that it is in.
pub(crate) fn put_in_hands(
    alloc: Global,
    book: &mut DeskBook,
    states: &[PointState],
) -> Result<(), AllocError>
    ensures register { OnOk result
        (book.new.register ≡ after_edits (map hand_edit states.now) book.old.register) }
    ensures network { OnOk result (book.new.network ≡ book.old.network) }
{
    let hands = hand_edits(alloc, states)?;
    make(book, hands)?;
    Ok(())
}

/// The network of loaded rows.
fn built_network(
    alloc: Global,
    sections: Vec<SectionRow>,
    points: Vec<PointRow>,
) -> Result<Network, StoreFault>
    ensures built { IfOk result (λ network. IsGridOf sections.items points.items network) }
    ensures none { IfOk result (λ _. network_fault sections.items points.items ≡ None) }
    ensures fault { IfErr result (λ fault. (fault ≡ NoMemory) ⊎ ((cause : _)
        × (network_fault sections.items points.items ≡ Some cause)
        × (fault ≡ BadRow (table_of sections.items cause)))) }
{
    let is_long = sections.len() > MAX_SECTIONS;
    match Network::build(alloc, sections, points) {
        Ok(network) => Ok(network),
        Err(NetFault::NoMemory) => Err(StoreFault::NoMemory),
        Err(fault) => Err(StoreFault::BadRow(table_of(fault, is_long))),
    }
}

/// The table that a fault of a network is in.
fn table_of(fault: NetFault, is_long: bool) -> TableName
    ensures { (sections : List _) → is_long ≡ nat_lt 5000 (length sections)
        → result ≡ table_of sections fault }
{
    match fault {
        NetFault::NoSections | NetFault::SectionTwice(_) | NetFault::NoMemory => TableName::Section,
        NetFault::TooLarge => if is_long {
            TableName::Section
        } else {
            TableName::NetworkPoint
        },
        NetFault::PointTwice(_) | NetFault::UnknownEnd(_) | NetFault::SameEnds(_) =>
            TableName::NetworkPoint,
    }
}

/// The staff of loaded rows.
fn built_staff(alloc: Global, rows: Vec<StaffRow>) -> Result<Staff, StoreFault>
    ensures built { IfOk result (λ staff. IsStaffOf rows.items staff) }
    ensures none { IfOk result (λ _. staff_fault rows.items ≡ None) }
    ensures fault { IfErr result (λ fault. (fault ≡ NoMemory) ⊎ ((cause : _)
        × (staff_fault rows.items ≡ Some cause) × (fault ≡ BadRow table.Staff))) }
{
    match Staff::build(alloc, rows) {
        Ok(staff) => Ok(staff),
        Err(StaffFault::NoMemory) => Err(StoreFault::NoMemory),
        Err(_) => Err(StoreFault::BadRow(TableName::Staff)),
    }
}

/// The book of the rows of a network and a staff, with each point in the hand that it is in, and
/// no clearance.
pub(crate) fn bare_book(
    sections: Vec<SectionRow>,
    points: Vec<PointRow>,
    rows: Vec<StaffRow>,
    states: &[PointState],
) -> Result<DeskBook, StoreFault>
    ensures register { IfOk result (λ book. (grid : Grid) × (staff : List _)
        × IsGridOf sections.items points.items grid × IsStaffOf rows.items staff
        × (book.register ≡ after_edits (map hand_edit states.now) (opening grid staff))) }
    ensures network { IfOk result (λ book. IsGridOf sections.items points.items book.network) }
    ensures typed { IfOk result (λ book. IsTyped book.register) }
    ensures none { IfOk result (λ _. bad_network sections.items
        (network_fault sections.items points.items) (bad_staff (staff_fault rows.items)) ≡ None) }
    ensures fault { IfErr result (λ fault. (fault ≡ NoMemory) ⊎ ((bad : _)
        × (bad_network sections.items (network_fault sections.items points.items)
        (bad_staff (staff_fault rows.items)) ≡ Some bad) × (fault ≡ BadRow bad))) }
{
    let alloc = *sections.allocator();
    match built_network(alloc, sections, points) {
        Ok(network) => match built_staff(alloc, rows) {
            Ok(staff) => match handed_book(alloc, network, staff, states) {
                Ok(book) => Ok(book),
                Err(_) => Err(StoreFault::NoMemory),
            },
            Err(fault) => Err(fault),
        },
        Err(fault) => Err(fault),
    }
}

/// The book of loaded rows. It takes their shelves, and copies of these rows the open records
/// alone.
fn book_of(loaded: LoadedShelves) -> Result<DeskBook, StoreFault>
    ensures register { (rows : Rows) → HasRows loaded rows
        → IfOk result (λ book. IsRegisterOf rows book.register) }
    ensures network { (rows : Rows) → HasRows loaded rows
        → IfOk result (λ book. IsGridOf rows.sections rows.points book.network) }
    ensures typed { IfOk result (λ book. IsTyped book.register) }
    ensures none { (rows : Rows) → HasRows loaded rows
        → IfOk result (λ _. bad_table rows ≡ None) }
    ensures fault { (rows : Rows) → HasRows loaded rows → IfErr result (FailsToOpen rows) }
{
    let Loaded {
        version: _version,
        sections,
        points,
        states,
        staff,
        records,
        steps,
        holds,
    } = loaded;
    let shelves = Shelves {
        records,
        steps,
        holds,
    };
    match bare_book(sections, points, staff, &states) {
        Ok(bare) => match refilled(bare, shelves) {
            Ok(book) => Ok(book),
            Err(_) => Err(StoreFault::NoMemory),
        },
        Err(fault) => Err(fault),
    }
}

/// The book of what a store has. The store is only read.
///
/// `BadRow` names the table with a row that does not read, or whose rows are no network or staff;
/// `Sql` where the database fails; `NoMemory` where memory runs out.
pub(crate) fn book_in<S: Alter + Drop>(store: &mut Store<S>) -> Result<DeskBook, StoreFault>
    ensures tables { HasCleanDisk (state S.Store store.new) → (t : Tables)
        → HasTables (state S.Store store.old).now t
        → OpensAs (λ (book : Shelved). book.register) (rows_read t) result }
    ensures network { HasCleanDisk (state S.Store store.new) → (t : Tables)
        → HasTables (state S.Store store.old).now t
        → IfOk result (λ book. HasNetworkOf (rows_read t) book.network) }
    ensures typed { IfOk result (λ book. IsTyped book.register) }
    ensures cause { HasCleanDisk (state S.Store store.new) → (t : Tables)
        → HasTables (state S.Store store.old).now t
        → IfErr result (SqlHasCause (state S.Store store.old) (state S.Store store.new)) }
    ensures was_open { HasCleanDisk (state S.Store store.new)
        → IsTrue (state S.Store store.old).is_open ⊎ IsErrAnd result IsOfDatabase }
    ensures saved { HasCleanDisk (state S.Store store.new)
        → IsTrue (state S.Store store.new).is_open → IsSaved (state S.Store store.new) }
    ensures same { HasCleanDisk (state S.Store store.new) → IsTrue (state S.Store store.new).is_open
        → (state S.Store store.new).now ≡ (state S.Store store.old).now }
    ensures survives { Survives (state S.Store store.old) (state S.Store store.new) (λ _. ⊥) }
{
    match store.load_into() {
        Ok(loaded) => match book_of(loaded) {
            Ok(book) => Ok(book),
            Err(fault) => Err(fault),
        },
        Err(fault) => Err(fault),
    }
}
