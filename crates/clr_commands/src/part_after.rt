//! `migrate --after`: a part of a journal is begun for a register whose journal goes by other
//! rules.
ghost use Rattle.std.specs.Prelude.{◌≡◌, ◌≢◌, ◌⊎◌, decimal, false, IfErr, OnOk};
ghost use Rattle.clr_commands.specs.Faults.{IsOfSubcommand};
ghost use Rattle.clr_commands.specs.PartAfter.{BeginsAfter, BeginsPart, PartsFound, PartsOver};
ghost use Rattle.clr_keeping.specs.TakenUp.{logs};

use clr_desk::Desk;
use clr_edge::database::{Databases, close, first_fault};
use clr_edge::fault::{Fault, JournalFault};
use clr_edge::journals::Journals;
use clr_keeping::taking_up::{open_desk, placed};
use clr_rules::Place;
use clr_store::Store;
use sqlite::{Alter, Connection};
use std::alloc::Global;

/// What `migrate DB --journal FILE --after NUMBER` prints: the number after which a part goes on,
/// once it is begun at the place that the register has. The database is only read.
///
/// `Journal(Differs)` where the register is at another number than the one that is named, which is
/// that of the last line of its journal: what comes after the register would be lost.
/// `OtherRegister` where it has no journal.
pub fn begin_after<R: Databases + Journals>(
    alloc: Global,
    rt: &mut R,
    path: &str,
    journal: &str,
    after: &str,
) -> Result<String, Fault>
    ensures visit { BeginsAfter (logs R.Journals R.Log.Journal R.Time.shows)
        R.Tables.Store R.opens R.shuts R.ends path.now journal.now after.now
        result rt.old rt.new }
    ensures faults { IfErr result IsOfSubcommand }
{
    let desk = open_desk(alloc, rt, path)?;
    let (report, connection) = begin_over(alloc, rt, desk, journal, after);
    let closed = close(rt, connection);
    first_fault(report, closed)
}

/// The same over a desk, whose database is given back.
fn begin_over<S: Alter + Drop, R: Journals>(
    alloc: Global,
    rt: &mut R,
    desk: Desk<Store<S>>,
    journal: &str,
    after: &str,
) -> (Result<String, Fault>, Connection<S>)
    ensures begun { PartsOver S.Store (logs R.Journals R.Log.Journal R.Time.shows) journal.now
        after.now result.0 rt.old rt.new desk.store desk.book.register result.1 }
    ensures faults { IfErr result.0 IsOfSubcommand }
    ensures mode { result.1.in_transaction ≡ false }
{
    match placed(desk) {
        Ok((desk, found)) => {
            let begun = begin_found(alloc, rt, found, journal, after);
            (begun, desk.end().end())
        }
        Err((fault, connection)) => (Err(fault), connection),
    }
}

/// The same at the place that a register has, if it has one.
fn begin_found<R: Journals>(
    alloc: Global,
    rt: &mut R,
    found: Option<Place>,
    journal: &str,
    after: &str,
) -> Result<String, Fault>
    ensures begun { PartsFound (logs R.Journals R.Log.Journal R.Time.shows) found journal.now
        after.now result rt.old rt.new }
    ensures faults { IfErr result IsOfSubcommand }
{
    match found {
        Some(place) => begin_part(alloc, rt, &place, journal, after),
        None => Err(Fault::Journal(JournalFault::OtherRegister)),
    }
}

/// The same at a place.
fn begin_part<R: Journals>(
    alloc: Global,
    rt: &mut R,
    place: &Place,
    journal: &str,
    after: &str,
) -> Result<String, Fault>
    ensures begun { BeginsPart (logs R.Journals R.Log.Journal R.Time.shows) place.now journal.now
        after.now result rt.old rt.new }
    ensures faults { IfErr result IsOfSubcommand }
{
    expect_number(alloc, place.number, after)?;
    let line = format!(in alloc; "next part after {}\n", place.number)?;
    let log = rt.begin_journal(journal, place)?;
    rt.let_journal_go(log);
    Ok(line)
}

/// Refuses a word that is not this number.
fn expect_number(alloc: Global, number: u64, word: &str) -> Result<(), Fault>
    ensures same { OnOk result (word.now ≡ decimal number) }
    ensures other { IfErr result (λ fault. (fault ≡ Fault.Memory)
        ⊎ ((fault ≡ Fault.Journal (JournalFault.Differs number)) × (word.now ≢ decimal number))) }
{
    let text = format!(in alloc; "{number}")?;
    if text.as_str() == word {
        Ok(())
    } else {
        Err(Fault::Journal(JournalFault::Differs(number)))
    }
}
