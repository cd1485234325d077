//! What a command line asks for: one variant a subcommand, with the values of its arguments.
ghost use Rattle.std.specs.Prelude.{◌≤◌, ◌≤ℤ◌, neg_ℤ, pos};

/// What a command line asks for.
#[derive(Drop)]
pub enum Asked<'a> {
    /// The sections that can be reached from one without passing a cut.
    Fence(FenceArgs<'a>),
    /// Warnings about the files of a network and its staff, printed.
    Check(Files<'a>),
    /// The check of the files of a network and its staff, and a register of them.
    Init(InitArgs<'a>),
    /// The answers to the commands of standard input.
    Run(RunArgs<'a>),
    /// One round of a clearance or a switch order, printed.
    Order(OrderArgs<'a>),
    /// The clearances and switch orders that are not closed, printed.
    Board(BoardArgs<'a>),
    /// The commands that give a clearance or a switch order back, printed.
    WayBack(WayBackArgs<'a>),
    /// Answers over HTTP.
    Serve(ServeArgs<'a>),
    /// The commands that a journal keeps, printed.
    Journal(JournalArgs<'a>),
    /// The next part of the journal of a register, begun.
    NextPart(NextPartArgs<'a>),
    /// A register, compared with a run of its journal over the files that it began with.
    Verify(VerifyArgs<'a>),
    /// The same over a copy of the register, in place of the files.
    VerifyFrom(VerifyFromArgs<'a>),
    /// A register whose network and staff become those of three files.
    Update(UpdateArgs<'a>),
    /// The steps of records that were closed before a moment, printed and then removed.
    Archive(ArchiveArgs<'a>),
    /// The tables of a register, brought to the version that is read; or a journal for it, begun.
    Migrate(MigrateArgs<'a>),
}

/// The files of a network and its staff, by their paths.
#[derive(Clone, Copy)]
pub struct Files<'a> {
    pub sections: &'a str,
    pub points: &'a str,
    pub staff: &'a str,
}

/// What `fence` is asked for.
#[derive(Drop)]
pub struct FenceArgs<'a> {
    /// The path of the file of sections.
    pub sections: &'a str,
    /// The path of the file of switching points.
    pub points: &'a str,
    /// The name of the section to work on.
    pub work: &'a str,
    /// The names of the switching points that no walk passes.
    pub cut: Vec<&'a str>,
}

/// What `init` is asked for.
#[derive(Clone, Copy)]
pub struct InitArgs<'a> {
    pub files: Files<'a>,
    /// Where to make the register, if it is to be made.
    pub stored: Option<StoredArgs<'a>>,
}

/// What the commands of `run` are answered over.
#[derive(Clone, Copy)]
pub enum RunArgs<'a> {
    /// The register that three files begin.
    Files(Files<'a>),
    /// The register in a database.
    Stored(StoredArgs<'a>),
}

/// A register in a database.
#[derive(Clone, Copy)]
pub struct StoredArgs<'a> {
    /// The path of the database.
    pub database: &'a str,
    /// The path of its journal.
    pub journal: Option<&'a str>,
}

/// What `order` is asked for.
#[derive(Clone, Copy)]
pub struct OrderArgs<'a> {
    /// The path of the database.
    pub database: &'a str,
    /// The word that names the clearance.
    pub clearance: &'a str,
    /// The word that names the round.
    pub round: &'a str,
    pub offset: Offset,
}

/// What `board` is asked for.
#[derive(Clone, Copy)]
pub struct BoardArgs<'a> {
    /// The path of the database.
    pub database: &'a str,
    pub offset: Offset,
}

/// What `wayback` is asked for.
#[derive(Clone, Copy)]
pub struct WayBackArgs<'a> {
    /// The path of the database.
    pub database: &'a str,
    /// The word that names the clearance.
    pub clearance: &'a str,
}

/// What `serve` is asked for.
#[derive(Clone, Copy)]
pub struct ServeArgs<'a> {
    /// The path of the database.
    pub database: &'a str,
    pub port: u16,
    /// How many connections are served.
    pub count: usize,
    /// After how many seconds a connection is ended that is not over.
    pub deadline: Option<u16>,
    /// Whether the requests of a control desk are answered.
    pub desk: bool,
    /// The path of the file of who may speak for whom, which goes with `desk` alone.
    pub logins: Option<&'a str>,
    /// The path of its journal.
    pub journal: Option<&'a str>,
}

/// What `journal` is asked for.
#[derive(Drop)]
pub struct JournalArgs<'a> {
    /// The path of the journal, or of its first part.
    pub path: &'a str,
    /// The paths of its further parts, in order.
    pub parts: Vec<&'a str>,
    /// The word that names the one clearance that is wanted.
    pub clearance: Option<&'a str>,
    pub offset: Offset,
    /// Whether the commands alone are printed.
    pub commands: bool,
}

/// What `journal --next` is asked for.
#[derive(Clone, Copy)]
pub struct NextPartArgs<'a> {
    /// The path of the last part of the journal.
    pub path: &'a str,
    /// The path of the database.
    pub database: &'a str,
    /// The path of the part to begin.
    pub next: &'a str,
}

/// What `verify` is asked for.
#[derive(Drop)]
pub struct VerifyArgs<'a> {
    /// The path of the database.
    pub database: &'a str,
    /// The path of its journal, or of the first part of that.
    pub journal: &'a str,
    /// The paths of its further parts, in order.
    pub parts: Vec<&'a str>,
    /// The files that it began with.
    pub files: Files<'a>,
}

/// What `verify --from` is asked for.
#[derive(Drop)]
pub struct VerifyFromArgs<'a> {
    /// The path of the database.
    pub database: &'a str,
    /// The path of its journal, or of the first part of that.
    pub journal: &'a str,
    /// The paths of its further parts, in order.
    pub parts: Vec<&'a str>,
    /// The path of a copy of the database, which is at a place in the journal.
    pub copy: &'a str,
}

/// What `migrate` is asked for.
#[derive(Clone, Copy)]
pub struct MigrateArgs<'a> {
    /// The path of the database.
    pub database: &'a str,
    /// The path of the journal to begin, if one is to be.
    pub journal: Option<&'a str>,
    /// The number at which the journal ends that the register has, if it has one.
    pub after: Option<&'a str>,
}

/// What `update` is asked for.
#[derive(Drop)]
pub struct UpdateArgs<'a> {
    /// The path of the database.
    pub database: &'a str,
    /// The files that say what network and staff become.
    pub files: Files<'a>,
    /// The path of its journal.
    pub journal: Option<&'a str>,
    /// Whether nothing is written.
    pub dry_run: bool,
    /// The names of the jumpers that are taken out.
    pub without: Vec<&'a str>,
}

/// What `archive` is asked for.
#[derive(Clone, Copy)]
pub struct ArchiveArgs<'a> {
    /// The path of the database.
    pub database: &'a str,
    /// The path of its journal.
    pub journal: Option<&'a str>,
    /// The moment, in seconds since 1970-01-01T00:00:00Z.
    pub before: u64,
    ghost last: { before ≤ 4102444799 },
}

/// Minutes east of Greenwich, where a clock is.
#[derive(Clone, Copy)]
pub struct Offset {
    pub minutes: i16,
    ghost low: { neg_ℤ (pos 720) ≤ℤ minutes },
    ghost high: { minutes ≤ℤ pos 840 },
}
