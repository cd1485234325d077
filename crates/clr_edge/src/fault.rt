//! What ends a command before it has its answer.
ghost use Rattle.std.specs.Prelude.{◌≡◌, ◌≤◌, length};
ghost use Rattle.clr_edge.specs.Fault.{file_fault_detail, file_fault_name, file_text};
ghost use Rattle.clr_edge.specs.Fault.{input_fault_name, journal_fault_detail, journal_fault_name};
ghost use Rattle.clr_edge.specs.Fault.{name_fault_detail, name_fault_name, verify_fault_detail};
ghost use Rattle.clr_edge.specs.Fault.{network_fault_detail, network_fault_name};
ghost use Rattle.clr_edge.specs.Fault.{obstacle_detail, obstacle_name};
ghost use Rattle.clr_edge.specs.Fault.{staff_fault_detail, staff_fault_name, store_fault_detail};
ghost use Rattle.clr_edge.specs.Fault.{store_fault_name, verify_fault_name};

use clr_csv::CsvFault;
use clr_desk::DeskFault;
use clr_load::{StoreFault, TableName};
use clr_net::{Name, NameFault, NetFault};
use clr_rules::ClearanceId;
use clr_staff::StaffFault;
use clr_stream::ReadFault;
use clr_update::Obstacle;
use clr_verify::Difference;
use std::alloc::{AllocError, AllocFailed};

/// One of the files that are read into rows.
#[derive(Clone, Copy, Debug, PartialEq, Eq)]
pub enum ImportFile {
    /// The file of sections.
    Sections,
    /// The file of switching points.
    Points,
    /// The file of the staff.
    Staff,
    /// The file of logins.
    Logins,
}

impl ImportFile {
    /// How a fault line calls the file.
    pub fn as_str(self) -> &'static str
        ensures text { result.now ≡ file_text self }
        ensures short { length result.now ≤ 8 }
    {
        match self {
            ImportFile::Sections => "sections",
            ImportFile::Points => "points",
            ImportFile::Staff => "staff",
            ImportFile::Logins => "logins",
        }
    }
}

/// Why standard input gives no commands.
#[derive(Clone, Copy, Debug, PartialEq, Eq)]
pub enum InputFault {
    /// The reader failed.
    ReadFailed,
    /// There are more than 16,777,216 bytes.
    TooLong,
}

/// Why a journal is not read, or not written.
#[derive(Clone, Copy, Debug, PartialEq, Eq)]
pub enum JournalFault {
    /// It was not opened.
    OpenFailed,
    /// The reader failed.
    ReadFailed,
    /// A line has more than 4,194,304 bytes.
    TooLong,
    /// The line of this number does not hold its sum; 0: there is no first line.
    BadLine(u64),
    /// It goes by other rules, of this number.
    OtherRules(u64),
    /// A line was not written, or not synced.
    WriteFailed,
    /// It is another register's: it has another id, or the register has no journal.
    OtherRegister,
    /// It ends before the register's number.
    TooShort,
    /// At this number it has another sum than the register, withdraws the register's deed, or
    /// has another reply than the register gives.
    Differs(u64),
    /// The register has a journal, and none is named.
    Missing,
    /// A journal was to be begun where there are bytes already.
    HasBytes,
    /// It was begun, and the register did not get its place in it: it is to be removed.
    Begun,
    /// Its path leads to a file of the database.
    SameFile,
    /// It is not known if the last change was kept. Opening the register again decides that.
    InDoubt,
}

/// Why a database was not opened, made or closed.
#[derive(Clone, Copy, Debug, PartialEq, Eq)]
pub enum DatabaseFault {
    /// Memory ran out.
    NoMemory,
    /// The database refused or failed.
    Sql,
}

/// Why a database is not what the run of a journal leaves.
#[derive(Clone, Copy, Debug, PartialEq, Eq)]
pub enum VerifyFault {
    /// The first line of the journal is not of these files.
    Files,
    /// The deed of this number has another reply in the run than in its line.
    Reply(u64),
    /// The tables differ, first in this row.
    Differs(Difference),
}

/// What ends a command before it has its answer. Its line on standard error is made of `subject`,
/// `name` and `detail`.
#[derive(Clone, Copy, Debug, PartialEq, Eq)]
pub enum Fault {
    /// Memory ran out, whatever answered it.
    Memory,
    /// A file is not there, cannot be read, or is no table of its kind.
    File(ImportFile, CsvFault),
    /// The rows of the files are no network.
    Network(NetFault),
    /// The rows of the staff's file are no staff.
    Staff(StaffFault),
    /// The staff has no employee of the name in this row of the file of logins.
    UnknownEmployee(usize),
    /// An argument is no name.
    Name(NameFault),
    /// The network has no section of this name.
    UnknownSection(Name),
    /// The network has no switching point of this name.
    UnknownPoint(Name),
    /// Standard input could not be read, or is too long.
    Input(InputFault),
    /// The database could not be opened, its tables are no register, or it refused or failed.
    Store(StoreFault),
    /// The journal could not be opened, or failed.
    Journal(JournalFault),
    /// The database is not what the run of a journal leaves.
    Verify(VerifyFault),
    /// It is in the way of an update of network and staff.
    Update(Obstacle),
    /// An argument names no clearance, or none that has steps in the round that is named.
    NoSuch,
    /// The clearance cannot be given back before the staff has a field employee, since a step of it
    /// is given out.
    NoWay,
    /// The answer could not be written to standard output.
    Output,
    /// The port could not be listened on.
    Listen,
    /// No connection could be taken, several times in a row.
    Accept,
    /// The path of a file leads to one of the database.
    SameFile(ImportFile),
}

impl From<AllocError> for Fault {
    ghost use Rattle.clr_edge.specs.declared.fault.Fault.TheVariants.{Memory};

    ghost from_gives = { λ _ fault. fault ≡ Memory };

    fn from(_error: AllocError) -> Fault {
        Fault::Memory
    }
}

impl<T: Drop> From<AllocFailed<T>> for Fault {
    ghost use Rattle.clr_edge.specs.declared.fault.Fault.TheVariants.{Memory};

    ghost from_gives = { λ _ fault. fault ≡ Memory };

    fn from(_error: AllocFailed<T>) -> Fault {
        Fault::Memory
    }
}

impl From<NetFault> for Fault {
    ghost use Rattle.clr_edge.specs.Fault.{of_network};

    ghost from_gives = { λ cause fault. fault ≡ of_network cause };

    fn from(cause: NetFault) -> Fault {
        match cause {
            NetFault::NoMemory => Fault::Memory,
            _ => Fault::Network(cause),
        }
    }
}

impl From<StaffFault> for Fault {
    ghost use Rattle.clr_edge.specs.Fault.{of_staff};

    ghost from_gives = { λ cause fault. fault ≡ of_staff cause };

    fn from(cause: StaffFault) -> Fault {
        match cause {
            StaffFault::NoMemory => Fault::Memory,
            _ => Fault::Staff(cause),
        }
    }
}

impl From<NameFault> for Fault {
    ghost use Rattle.clr_edge.specs.Fault.{of_name};

    ghost from_gives = { λ cause fault. fault ≡ of_name cause };

    fn from(cause: NameFault) -> Fault {
        match cause {
            NameFault::NoMemory => Fault::Memory,
            _ => Fault::Name(cause),
        }
    }
}

impl From<StoreFault> for Fault {
    ghost use Rattle.clr_edge.specs.Fault.{of_store};

    ghost from_gives = { λ cause fault. fault ≡ of_store cause };

    fn from(cause: StoreFault) -> Fault {
        match cause {
            StoreFault::NoMemory => Fault::Memory,
            _ => Fault::Store(cause),
        }
    }
}

impl DatabaseFault {
    ghost use Rattle.clr_edge.specs.Fault.{database_fault};

    /// Any fault of a store but want of memory is the database's own.
    pub fn of_store(cause: StoreFault) -> DatabaseFault
        ensures { result ≡ database_fault cause }
    {
        match cause {
            StoreFault::NoMemory => DatabaseFault::NoMemory,
            _ => DatabaseFault::Sql,
        }
    }
}

impl From<DatabaseFault> for Fault {
    ghost use Rattle.clr_edge.specs.Fault.{of_database};

    ghost from_gives = { λ cause fault. fault ≡ of_database cause };

    fn from(cause: DatabaseFault) -> Fault {
        match cause {
            DatabaseFault::NoMemory => Fault::Memory,
            DatabaseFault::Sql => Fault::Store(StoreFault::Sql),
        }
    }
}

impl From<DeskFault> for Fault {
    ghost use Rattle.clr_edge.specs.Fault.{of_desk};

    ghost from_gives = { λ cause fault. fault ≡ of_desk cause };

    fn from(cause: DeskFault) -> Fault {
        match cause {
            DeskFault::NoMemory => Fault::Memory,
            DeskFault::Journal => Fault::Journal(JournalFault::WriteFailed),
            DeskFault::Store(cause) => Fault::from(cause),
        }
    }
}

impl Fault {
    ghost use Rattle.clr_edge.specs.Fault.{of_file, of_input};

    /// Why a file gives no rows.
    pub fn of_file(file: ImportFile, cause: CsvFault) -> Fault
        ensures { result ≡ of_file file cause }
    {
        match cause {
            CsvFault::NoMemory => Fault::Memory,
            _ => Fault::File(file, cause),
        }
    }

    /// Why standard input gives no bytes.
    pub fn of_input(cause: ReadFault) -> Fault
        ensures { result ≡ of_input cause }
    {
        match cause {
            ReadFault::ReadFailed => Fault::Input(InputFault::ReadFailed),
            ReadFault::TooLong => Fault::Input(InputFault::TooLong),
            ReadFault::NoMemory => Fault::Memory,
        }
    }
}

/// Where a fault is, or what it names.
#[derive(Clone, Copy, Debug, PartialEq, Eq)]
pub enum Detail {
    /// The line says no more.
    Nothing,
    /// A row, counted from 1 under the header.
    Row(usize),
    /// A row and a column, each counted from 1.
    Field(usize, usize),
    /// The place of a byte in an argument, counted from 0.
    Place(usize),
    /// The section or the point that the network lacks.
    Named(Name),
    /// The version of the tables.
    Version(i64),
    /// The table with a row that does not read.
    Table(TableName),
    /// The number of a line of a journal, or of its deed, each counted from 1.
    Number(u64),
    /// The table and the key of the first row that differs.
    Differs(Difference),
    /// A row, and the clearance that needs it as it is.
    NeededBy(Name, ClearanceId),
}

impl Fault {
    ghost use Rattle.clr_edge.specs.Fault.{detail_of, name_of, subject_of};

    /// What the fault is about, with which its line begins.
    pub fn subject(&self) -> &'static str
        ensures text { result.now ≡ subject_of self.now }
        ensures short { length result.now ≤ 9 }
    {
        match *self {
            Fault::Memory => "memory",
            Fault::File(file, _) => file.as_str(),
            Fault::Network(_) | Fault::UnknownSection(_) | Fault::UnknownPoint(_) => "network",
            Fault::Staff(_) => "staff",
            Fault::UnknownEmployee(_) => "logins",
            Fault::Name(_) => "name",
            Fault::Input(_) => "input",
            Fault::Store(_) => "store",
            Fault::Journal(_) => "journal",
            Fault::Verify(_) => "verify",
            Fault::Update(_) => "update",
            Fault::NoSuch | Fault::NoWay => "clearance",
            Fault::Output => "output",
            Fault::Listen | Fault::Accept => "listen",
            Fault::SameFile(file) => file.as_str(),
        }
    }

    /// The fault's name in its line.
    pub fn name(&self) -> &'static str
        ensures text { result.now ≡ name_of self.now }
        ensures short { length result.now ≤ 17 }
    {
        match *self {
            Fault::Memory => "NoMemory",
            Fault::File(_, fault) => file_fault_name(fault),
            Fault::Network(fault) => network_fault_name(fault),
            Fault::Staff(fault) => staff_fault_name(fault),
            Fault::UnknownEmployee(_) => "UnknownEmployee",
            Fault::Name(fault) => name_fault_name(fault),
            Fault::UnknownSection(_) => "UnknownSection",
            Fault::UnknownPoint(_) => "UnknownPoint",
            Fault::Input(fault) => input_fault_name(fault),
            Fault::Store(fault) => store_fault_name(fault),
            Fault::Journal(fault) => journal_fault_name(fault),
            Fault::Verify(fault) => verify_fault_name(fault),
            Fault::Update(obstacle) => obstacle_name(obstacle),
            Fault::NoSuch => "NoSuch",
            Fault::NoWay => "NoWay",
            Fault::Output => "WriteFailed",
            Fault::Listen => "BindFailed",
            Fault::Accept => "AcceptFailed",
            Fault::SameFile(_) => "SameFile",
        }
    }

    /// Where the fault is, or what it names.
    pub fn detail(&self) -> Detail
        ensures { result ≡ detail_of self.now }
    {
        match *self {
            Fault::Memory | Fault::Input(_) => Detail::Nothing,
            Fault::NoSuch | Fault::NoWay | Fault::Output | Fault::Listen => Detail::Nothing,
            Fault::Accept | Fault::SameFile(_) => Detail::Nothing,
            Fault::File(_, fault) => file_fault_detail(fault),
            Fault::Network(fault) => network_fault_detail(fault),
            Fault::Staff(fault) => staff_fault_detail(fault),
            Fault::UnknownEmployee(row) => Detail::Row(row),
            Fault::Name(fault) => name_fault_detail(fault),
            Fault::Store(fault) => store_fault_detail(fault),
            Fault::Journal(fault) => journal_fault_detail(fault),
            Fault::Verify(fault) => verify_fault_detail(fault),
            Fault::Update(obstacle) => obstacle_detail(obstacle),
            Fault::UnknownSection(name) | Fault::UnknownPoint(name) => Detail::Named(name),
        }
    }
}

fn input_fault_name(fault: InputFault) -> &'static str
    ensures text { result.now ≡ input_fault_name fault }
    ensures short { length result.now ≤ 17 }
{
    match fault {
        InputFault::ReadFailed => "ReadFailed",
        InputFault::TooLong => "TooLong",
    }
}

fn journal_fault_name(fault: JournalFault) -> &'static str
    ensures text { result.now ≡ journal_fault_name fault }
    ensures short { length result.now ≤ 17 }
{
    match fault {
        JournalFault::OpenFailed => "OpenFailed",
        JournalFault::ReadFailed => "ReadFailed",
        JournalFault::TooLong => "TooLong",
        JournalFault::BadLine(_) => "BadLine",
        JournalFault::OtherRules(_) => "OtherRules",
        JournalFault::WriteFailed => "WriteFailed",
        JournalFault::SameFile => "SameFile",
        JournalFault::InDoubt => "InDoubt",
        JournalFault::OtherRegister => "OtherRegister",
        JournalFault::TooShort => "TooShort",
        JournalFault::Differs(_) => "Differs",
        JournalFault::Missing => "Missing",
        JournalFault::HasBytes => "HasBytes",
        JournalFault::Begun => "Begun",
    }
}

fn journal_fault_detail(fault: JournalFault) -> Detail
    ensures { result ≡ journal_fault_detail fault }
{
    match fault {
        JournalFault::BadLine(number)
        | JournalFault::OtherRules(number)
        | JournalFault::Differs(number) => Detail::Number(number),
        JournalFault::OpenFailed
        | JournalFault::ReadFailed
        | JournalFault::TooLong
        | JournalFault::WriteFailed
        | JournalFault::SameFile
        | JournalFault::InDoubt
        | JournalFault::OtherRegister
        | JournalFault::TooShort
        | JournalFault::Missing
        | JournalFault::HasBytes
        | JournalFault::Begun => Detail::Nothing,
    }
}

fn verify_fault_name(fault: VerifyFault) -> &'static str
    ensures text { result.now ≡ verify_fault_name fault }
    ensures short { length result.now ≤ 17 }
{
    match fault {
        VerifyFault::Files => "Files",
        VerifyFault::Reply(_) => "Reply",
        VerifyFault::Differs(_) => "Differs",
    }
}

fn verify_fault_detail(fault: VerifyFault) -> Detail
    ensures { result ≡ verify_fault_detail fault }
{
    match fault {
        VerifyFault::Files => Detail::Nothing,
        VerifyFault::Reply(number) => Detail::Number(number),
        VerifyFault::Differs(found) => Detail::Differs(found),
    }
}

fn obstacle_name(obstacle: Obstacle) -> &'static str
    ensures text { result.now ≡ obstacle_name obstacle }
    ensures short { length result.now ≤ 17 }
{
    match obstacle {
        Obstacle::NoJumper(_) => "NoJumper",
        Obstacle::JumperName(_) => "JumperName",
        Obstacle::TooLarge => "TooLarge",
        Obstacle::Section(..) => "Section",
        Obstacle::Point(..) => "Point",
        Obstacle::Step(..) => "Step",
        Obstacle::Work(..) => "Work",
        Obstacle::Holder(..) => "Holder",
        Obstacle::Reader(..) => "Reader",
        Obstacle::Requester(..) => "Requester",
        Obstacle::NoOperator => "NoOperator",
        Obstacle::NoField => "NoField",
    }
}

fn obstacle_detail(obstacle: Obstacle) -> Detail
    ensures { result ≡ obstacle_detail obstacle }
{
    match obstacle {
        Obstacle::NoJumper(name) | Obstacle::JumperName(name) => Detail::Named(name),
        Obstacle::Section(name, id)
        | Obstacle::Point(name, id)
        | Obstacle::Step(name, id)
        | Obstacle::Work(name, id)
        | Obstacle::Holder(name, id)
        | Obstacle::Reader(name, id)
        | Obstacle::Requester(name, id) => Detail::NeededBy(name, id),
        Obstacle::TooLarge | Obstacle::NoOperator | Obstacle::NoField => Detail::Nothing,
    }
}

fn file_fault_name(fault: CsvFault) -> &'static str
    ensures text { result.now ≡ file_fault_name fault }
    ensures short { length result.now ≤ 17 }
{
    match fault {
        CsvFault::ReadFailed => "ReadFailed",
        CsvFault::TooLong => "TooLong",
        CsvFault::Header => "Header",
        CsvFault::NotText(_) => "NotText",
        CsvFault::FieldCount(_) => "FieldCount",
        CsvFault::BadName(..) => "BadName",
        CsvFault::BadWord(..) => "BadWord",
        CsvFault::NoMemory => "NoMemory",
    }
}

fn file_fault_detail(fault: CsvFault) -> Detail
    ensures { result ≡ file_fault_detail fault }
{
    match fault {
        CsvFault::NotText(row) | CsvFault::FieldCount(row) => Detail::Row(row),
        CsvFault::BadName(row, column) | CsvFault::BadWord(row, column) => {
            Detail::Field(row, column)
        }
        CsvFault::ReadFailed | CsvFault::TooLong | CsvFault::Header | CsvFault::NoMemory => {
            Detail::Nothing
        }
    }
}

fn network_fault_name(fault: NetFault) -> &'static str
    ensures text { result.now ≡ network_fault_name fault }
    ensures short { length result.now ≤ 17 }
{
    match fault {
        NetFault::NoSections => "NoSections",
        NetFault::TooLarge => "TooLarge",
        NetFault::SectionTwice(_) => "SectionTwice",
        NetFault::PointTwice(_) => "PointTwice",
        NetFault::UnknownEnd(_) => "UnknownEnd",
        NetFault::SameEnds(_) => "SameEnds",
        NetFault::NoMemory => "NoMemory",
    }
}

fn network_fault_detail(fault: NetFault) -> Detail
    ensures { result ≡ network_fault_detail fault }
{
    match fault {
        NetFault::SectionTwice(row) | NetFault::PointTwice(row) => Detail::Row(row),
        NetFault::UnknownEnd(row) | NetFault::SameEnds(row) => Detail::Row(row),
        NetFault::NoSections | NetFault::TooLarge | NetFault::NoMemory => Detail::Nothing,
    }
}

fn staff_fault_name(fault: StaffFault) -> &'static str
    ensures text { result.now ≡ staff_fault_name fault }
    ensures short { length result.now ≤ 17 }
{
    match fault {
        StaffFault::Twice(_) => "Twice",
        StaffFault::UnknownSupervisor(_) => "UnknownSupervisor",
        StaffFault::OwnSupervisor(_) => "OwnSupervisor",
        StaffFault::TooMany => "TooMany",
        StaffFault::NoMemory => "NoMemory",
    }
}

fn staff_fault_detail(fault: StaffFault) -> Detail
    ensures { result ≡ staff_fault_detail fault }
{
    match fault {
        StaffFault::Twice(row) => Detail::Row(row),
        StaffFault::UnknownSupervisor(row) | StaffFault::OwnSupervisor(row) => Detail::Row(row),
        StaffFault::TooMany | StaffFault::NoMemory => Detail::Nothing,
    }
}

fn name_fault_name(fault: NameFault) -> &'static str
    ensures text { result.now ≡ name_fault_name fault }
    ensures short { length result.now ≤ 17 }
{
    match fault {
        NameFault::Empty => "Empty",
        NameFault::TooLong => "TooLong",
        NameFault::BadByte(_) => "BadByte",
        NameFault::NoMemory => "NoMemory",
    }
}

fn name_fault_detail(fault: NameFault) -> Detail
    ensures { result ≡ name_fault_detail fault }
{
    match fault {
        NameFault::BadByte(place) => Detail::Place(place),
        NameFault::Empty | NameFault::TooLong | NameFault::NoMemory => Detail::Nothing,
    }
}

fn store_fault_name(fault: StoreFault) -> &'static str
    ensures text { result.now ≡ store_fault_name fault }
    ensures short { length result.now ≤ 17 }
{
    match fault {
        StoreFault::Sql => "Sql",
        StoreFault::WrongVersion(_) => "WrongVersion",
        StoreFault::BadRow(_) => "BadRow",
        StoreFault::NoMemory => "NoMemory",
        StoreFault::OtherTables => "OtherTables",
    }
}

fn store_fault_detail(fault: StoreFault) -> Detail
    ensures { result ≡ store_fault_detail fault }
{
    match fault {
        StoreFault::WrongVersion(version) => Detail::Version(version),
        StoreFault::BadRow(table) => Detail::Table(table),
        StoreFault::Sql | StoreFault::NoMemory | StoreFault::OtherTables => Detail::Nothing,
    }
}
