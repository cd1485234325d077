//! The subcommand `check`: warnings about files that `init` accepts.
ghost use Rattle.std.specs.Prelude.{◌≡◌, IfErr, IfOk, string_bytes};
ghost use Rattle.clr_csv.specs.Warnings.{warnings};
ghost use Rattle.clr_csv.specs.WarningText.{warning_lines};
ghost use Rattle.clr_commands.specs.Check.{ChecksAt, ChecksRows};
ghost use Rattle.clr_commands.specs.Faults.{IsOfSubcommand};
ghost use Rattle.clr_commands.specs.Import.{lists_of};
ghost use Rattle.clr_edge.specs.Paths.{at_paths};

use crate::import::{Rows, rows_at};
use clr_args::asked::Files;
use clr_csv::print_warnings;
use clr_edge::fault::Fault;
use clr_edge::paths::Opens;
use clr_net::Network;
use clr_staff::Staff;
use std::alloc::{AllocError, Global};

/// What `check SECTIONS POINTS STAFF` prints: a line for each warning, and nothing
/// where there is none. A file that does not read, and rows that are no network and no staff, have
/// the fault that they have with `init`.
pub fn check<'a, O: Opens<'a>>(alloc: Global, paths: &O, files: &Files<'a>) -> Result<String, Fault>
    ensures answer { ChecksAt
        (at_paths O.File.remaining O.File.failure_count (O.bytes_at paths.now)) files.now result }
    ensures faults { IfErr result IsOfSubcommand }
{
    let rows = rows_at(alloc, paths, files)?;
    check_of_rows(alloc, rows)
}

/// The warnings about the network and the staff of these rows, if they are both.
pub fn check_of_rows(alloc: Global, rows: Rows) -> Result<String, Fault>
    ensures answer { ChecksRows (lists_of rows) result }
    ensures faults { IfErr result IsOfSubcommand }
{
    let network = Network::build(alloc, rows.sections, rows.points)?;
    let staff = Staff::build(alloc, rows.staff)?;
    let text = check_text(alloc, &network, &staff)?;
    Ok(text)
}

/// The lines of the warnings about a network and a staff.
fn check_text(alloc: Global, network: &Network, staff: &Staff) -> Result<String, AllocError>
    ensures { IfOk result (λ text.
        string_bytes text ≡ warning_lines (warnings network.now staff.now)) }
{
    let found = clr_csv::check(alloc, network, staff)?;
    let text = print_warnings(alloc, &found)?;
    Ok(text)
}
