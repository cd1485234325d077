//! What the clauses of the subcommands of files alone say of the worked files, to the last byte.
//! Such a subcommand asks nothing of a machine but the bytes of files, and leaves it as it was.
ghost use Rattle.std.specs.Prelude.{◌≡◌, ◌∷◌, [], IfOk, Ok, Some, map};
ghost use Rattle.clr_commands.specs.Answers.{GivesText};
ghost use Rattle.clr_commands.specs.Import.{IsUnreadFile};
ghost use Rattle.clr_examples.specs.Worked.{S2, S3};
ghost use Rattle.clr_known.specs.FilesAlone.{ArePrinted, IsUnreadNetwork, RepliesToRequest};
ghost use Rattle.clr_known.specs.FilesAlone.{l2_fence, request_input, worked_warnings};
ghost use Rattle.clr_known.specs.Known.{HasWorkedFiles, worked_counts};

use crate::blank::Blank;
use crate::databases::{POINTS, SECTIONS, STAFF};
use crate::files::KnownFiles;
use crate::machine::Known;
use clr_args::asked::{FenceArgs, Files, InitArgs, RunArgs};
use clr_commands::check::check;
use clr_commands::fence::fence;
use clr_commands::init::init;
use clr_commands::replies::Printed;
use clr_commands::run::run;
use clr_edge::database::{Databases, Makes};
use clr_edge::fault::Fault;
use clr_edge::journals::Journals;
use clr_edge::paths::Opens;
use clr_stream::{Counted, CountedRead};
use std::alloc::{AllocError, Global};

/// A request of JONES for L2.
const REQUEST: &[u8] = b"{\"at\":100,\"by\":\"JONES\",\"do\":\"request\",\"section\":\"L2\"}\n";

/// What they print of the worked files.
#[derive(Drop)]
pub struct OfFiles {
    /// The fence of L2, cut at S2 and S3.
    pub fenced: Result<String, Fault>,
    /// The warnings about the network and the staff.
    pub checked: Result<String, Fault>,
    /// How many rows each file has.
    pub counted: Result<String, Fault>,
    /// The reply to the request of JONES for L2.
    pub replied: Result<Printed, Fault>,
}

/// The names of the points that the fence is cut at.
fn cut_points<'a>(alloc: Global) -> Result<Vec<&'a str>, AllocError>
    ensures { IfOk result (λ cut. map (λ word. word.now) cut.items ≡ S2 ∷ S3 ∷ []) }
{
    let cut = vec![in alloc; "S2", "S3"]?;
    Ok(cut)
}

/// The fence of L2, cut at S2 and S3.
fn fence_of_l2<'a, O: Opens<'a>>(alloc: Global, paths: &O) -> Result<String, Fault>
    requires { HasWorkedFiles (O.bytes_at paths.now) }
    ensures { GivesText IsUnreadNetwork (Ok l2_fence) result }
{
    let cut = match cut_points(alloc) {
        Ok(cut) => cut,
        Err(_) => return Err(Fault::Memory),
    };
    let args = FenceArgs {
        sections: "sections.csv",
        points: "points.csv",
        work: "L2",
        cut,
    };
    fence(alloc, paths, &args)
}

/// The warnings about the worked files.
fn warnings_of_files<'a, O: Opens<'a>>(alloc: Global, paths: &O) -> Result<String, Fault>
    requires { HasWorkedFiles (O.bytes_at paths.now) }
    ensures { GivesText IsUnreadFile (Ok worked_warnings) result }
{
    let files = Files {
        sections: "sections.csv",
        points: "points.csv",
        staff: "staff.csv",
    };
    check(alloc, paths, &files)
}

/// How many rows they have, where no database is asked for.
fn counts_of_files<'a, R: Makes + Journals, O: Opens<'a>>(
    alloc: Global,
    machine: &mut R,
    paths: &O,
) -> Result<String, Fault>
    requires { HasWorkedFiles (O.bytes_at paths.now) }
    ensures text { GivesText IsUnreadFile (Ok worked_counts) result }
    ensures machine { machine.new ≡ machine.old }
{
    let files = Files {
        sections: "sections.csv",
        points: "points.csv",
        staff: "staff.csv",
    };
    let args = InitArgs {
        files,
        stored: None,
    };
    init(alloc, machine, paths, &args)
}

/// The reply to the request of JONES, where it is the input.
fn reply_over_files<'a, R: Databases + Journals, O: Opens<'a>, I: CountedRead>(
    alloc: Global,
    machine: &mut R,
    paths: &O,
    input: &mut I,
) -> Result<Printed, Fault>
    requires { HasWorkedFiles (O.bytes_at paths.now) }
    ensures text { I.remaining input.old ≡ Some request_input → RepliesToRequest result }
    ensures machine { machine.new ≡ machine.old }
{
    let files = Files {
        sections: "sections.csv",
        points: "points.csv",
        staff: "staff.csv",
    };
    run(alloc, machine, paths, &RunArgs::Files(files), input)
}

/// All of them, one after the other.
fn of_files<'a, R: Makes + Journals, O: Opens<'a>, I: CountedRead>(
    alloc: Global,
    machine: &mut R,
    paths: &O,
    input: &mut I,
) -> OfFiles
    requires { HasWorkedFiles (O.bytes_at paths.now) }
    ensures text { I.remaining input.old ≡ Some request_input
        → ArePrinted result.fenced result.checked result.counted result.replied }
    ensures machine { machine.new ≡ machine.old }
{
    let fenced = fence_of_l2(alloc, paths);
    let checked = warnings_of_files(alloc, paths);
    let counted = counts_of_files(alloc, machine, paths);
    let replied = reply_over_files(alloc, machine, paths, input);
    OfFiles {
        fenced,
        checked,
        counted,
        replied,
    }
}

/// The same with such a machine, over the worked files.
pub fn known_of_files<B: Blank + Drop>(machine: &mut Known<B>) -> OfFiles
    ensures text { ArePrinted result.fenced result.checked result.counted result.replied }
    ensures machine { machine.new ≡ machine.old }
{
    let files = [
        ("sections.csv", SECTIONS),
        ("points.csv", POINTS),
        ("staff.csv", STAFF),
    ];
    let paths = KnownFiles { all: &files };
    let mut input = Counted::new(REQUEST);
    of_files(machine.alloc, machine, &paths, &mut input)
}
