//! What the clauses of the other subcommands that use a database say of a machine of which this
//! much is known, to the last byte. What they ask is met by the machine in memory.
ghost use Rattle.std.specs.Prelude.{IfSome, Ok, Some, codes, pos};
ghost use Rattle.clr_stream.specs.Counted.{counted_inner};
ghost use Rattle.clr_edge.specs.Database.{IsDatabaseFault};
ghost use Rattle.clr_print.specs.Printed.{board_text};
ghost use Rattle.clr_rules.specs.IdText.{read_id};
ghost use Rattle.clr_commands.specs.Answers.{GivesText};
ghost use Rattle.clr_commands.specs.Order.{order_told};
ghost use Rattle.clr_commands.specs.WayBack.{way_back_to};
ghost use Rattle.clr_known.specs.Known.{AreAnswers, HasWorkedFiles, IsRunOfJones, IsVersionTwo};
ghost use Rattle.clr_known.specs.Known.{StoresWorked, jones_register};

use crate::blank::Blank;
use crate::databases::{POINTS, SECTIONS, STAFF};
use crate::files::KnownFiles;
use crate::machine::Known;
use crate::visits::JonesMachine;
use clr_args::asked::{
    BoardArgs, Files, InitArgs, MigrateArgs, Offset, OrderArgs, StoredArgs, WayBackArgs,
};
use clr_commands::board::board;
use clr_commands::init::init;
use clr_commands::migrate::migrate;
use clr_commands::order::order;
use clr_commands::replies::Printed;
use clr_commands::run::run_stored;
use clr_commands::wayback::wayback;
use clr_edge::fault::Fault;
use clr_edge::paths::Opens;
use clr_stream::{Counted, CountedRead};
use std::alloc::Global;

/// What the subcommands answer of the register at `jones.db`, and `init` of the worked files.
#[derive(Drop)]
pub struct Answers {
    pub board: Result<String, Fault>,
    pub order: Result<String, Fault>,
    pub way_back: Result<String, Fault>,
    pub moved: Result<String, Fault>,
    pub ran: Result<Printed, Fault>,
    pub made: Result<String, Fault>,
}

/// The board.
fn board_of_jones<R: JonesMachine>(alloc: Global, machine: &mut R) -> Result<String, Fault>
    ensures { GivesText IsDatabaseFault (Ok (board_text jones_register (pos 0))) result }
{
    let args = BoardArgs {
        database: "jones.db",
        offset: Offset { minutes: 0 },
    };
    board(alloc, machine, &args)
}

/// The first round of JONES/1.
fn order_of_jones<R: JonesMachine>(alloc: Global, machine: &mut R) -> Result<String, Fault>
    ensures { GivesText IsDatabaseFault
        (order_told jones_register (codes "JONES/1") (codes "1") (pos 0)) result }
{
    let args = OrderArgs {
        database: "jones.db",
        clearance: "JONES/1",
        round: "1",
        offset: Offset { minutes: 0 },
    };
    order(alloc, machine, &args)
}

/// The commands that give JONES/1 back.
fn way_back_of_jones<R: JonesMachine>(alloc: Global, machine: &mut R) -> Result<String, Fault>
    ensures { GivesText IsDatabaseFault
        (way_back_to jones_register (read_id (codes "JONES/1"))) result }
{
    let args = WayBackArgs {
        database: "jones.db",
        clearance: "JONES/1",
    };
    wayback(alloc, machine, &args)
}

/// The move of its tables, which are of the version that is read.
fn move_of_jones<R: JonesMachine>(alloc: Global, machine: &mut R) -> Result<String, Fault>
    ensures { IsVersionTwo result }
{
    let args = MigrateArgs {
        database: "jones.db",
        journal: None,
        after: None,
    };
    migrate(alloc, machine, &args)
}

/// The replies to an input.
fn run_of_jones<R: JonesMachine, I: CountedRead>(
    alloc: Global,
    machine: &mut R,
    input: &mut I,
) -> Result<Printed, Fault>
    ensures { IfSome (I.remaining input.old) (λ bytes. IsRunOfJones bytes result) }
{
    let args = StoredArgs {
        database: "jones.db",
        journal: None,
    };
    run_stored(alloc, machine, &args, input)
}

/// The register of the worked files, made in a database of its own.
fn made_of_files<'a, R: JonesMachine, O: Opens<'a>>(
    alloc: Global,
    machine: &mut R,
    paths: &O,
) -> Result<String, Fault>
    requires { HasWorkedFiles (O.bytes_at paths.now) }
    ensures { StoresWorked R.Tables.Store R.makes R.ends (codes "new.db") result machine.old
        machine.new }
{
    let files = Files {
        sections: "sections.csv",
        points: "points.csv",
        staff: "staff.csv",
    };
    let stored = StoredArgs {
        database: "new.db",
        journal: None,
    };
    let args = InitArgs {
        files,
        stored: Some(stored),
    };
    init(alloc, machine, paths, &args)
}

/// All of them, one after the other.
fn answers_of<'a, R: JonesMachine, O: Opens<'a>, I: CountedRead>(
    alloc: Global,
    machine: &mut R,
    paths: &O,
    input: &mut I,
) -> Answers
    requires { HasWorkedFiles (O.bytes_at paths.now) }
    ensures { AreAnswers (I.remaining input.old)
        result.board result.order result.way_back result.moved result.made result.ran }
{
    let made = made_of_files(alloc, machine, paths);
    let board = board_of_jones(alloc, machine);
    let order = order_of_jones(alloc, machine);
    let way_back = way_back_of_jones(alloc, machine);
    let moved = move_of_jones(alloc, machine);
    let ran = run_of_jones(alloc, machine, input);
    Answers {
        board,
        order,
        way_back,
        moved,
        ran,
        made,
    }
}

/// The same of such a machine over blank databases, over the worked files.
pub fn known_answers<B: Blank + Drop>(machine: &mut Known<B>, input: &mut Counted<&[u8]>) -> Answers
    ensures { AreAnswers (Some (counted_inner input.old).now)
        result.board result.order result.way_back result.moved result.made result.ran }
{
    let files = [
        ("sections.csv", SECTIONS),
        ("points.csv", POINTS),
        ("staff.csv", STAFF),
    ];
    let paths = KnownFiles { all: &files };
    answers_of(machine.alloc, machine, &paths, input)
}
