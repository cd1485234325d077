//! The first place of a register in a journal that is begun.
ghost use Rattle.std.specs.Prelude.{◌≡◌, IfOk, string_bytes};
ghost use Rattle.clr_commands.specs.First.{files_of, first_place, made_at};
ghost use Rattle.clr_commands.specs.Import.{contents_of};

use crate::import::Texts;
use clr_chain::first_sum;
use clr_rules::Place;
use std::alloc::{AllocError, Global};

/// The first place of a register of three files in a journal: its id is made of the files, of a
/// moment and of two paths, and its sum of the files and the id.
pub fn first_place(
    alloc: Global,
    texts: &Texts,
    moment: u64,
    database: &str,
    journal: &str,
) -> Result<Place, AllocError>
    ensures { IfOk result (λ place. place ≡ first_place (files_of (contents_of texts.now))
        (made_at moment database.now journal.now)) }
{
    let made = made_at(alloc, moment, database, journal)?;
    let id = first_sum(
        alloc,
        &texts.sections,
        &texts.points,
        &texts.staff,
        made.as_str(),
    )?;
    let sum = first_sum(
        alloc,
        &texts.sections,
        &texts.points,
        &texts.staff,
        id.as_str(),
    )?;
    Ok(Place { id, number: 0, sum })
}

/// When and where a journal is begun: two that are begun in one second are distinguished by their
/// paths.
fn made_at(alloc: Global, moment: u64, database: &str, journal: &str) -> Result<String, AllocError>
    ensures { IfOk result (λ text. string_bytes text ≡ made_at moment database.now journal.now) }
{
    format!(in alloc; "{moment} {database} {journal}")
}
