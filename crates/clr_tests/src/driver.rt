//! A book that is asked as a program above the library would ask it: what is near a command, the
//! decision of that part alone, room for the change, the change.
ghost use Rattle.std.specs.Prelude.{◌≡◌, true, IfOk};
ghost use Rattle.clr_rules.specs.Edits.{fit};

use clr_answer::{Decision, Near, decide};
use clr_book::Book;
use clr_rules::{Command, Edit, Hold, PointState, Record, StepRow};
use clr_shelf::{ListShelf, Shelf};
use clr_text::{command_of, reply_text};
use clr_worked::{network, staff};
use std::alloc::Global;
use std::fmt::Write;
use std::process::Abort;
use std::test::Fail;

/// Commands of the worked network, and for each what is near it, what it changes, and its reply.
///
/// An order looks at the fence that it would make; a request at its section alone. A switch order
/// and its steps look at its points, with what others hold there, and never at another's record.
const ASKED: [(&str, &str, &str, &str); 8] = [
    (
        r#"{"at":100,"by":"JONES","do":"request","section":"L2"}"#,
        "greatest 0 fence sections L2 points states records steps holds",
        " record JONES/1",
        r#"{"card":{"clearance":"JONES/1","done":0,"holder":"JONES","phase":"Requested","round":0,"steps":0},"reply":"accepted"}"#,
    ),
    (
        r#"{"at":101,"by":"OPS","clearance":"JONES/1","do":"order","points":["S2","S3"],"steps":["OPEN S2","OPEN S3","BLOCK S2","BLOCK S3","TAG S2","TAG S3"]}"#,
        "greatest 1 fence L2 sections L2 points S2 S3 states S2 S3 records JONES/1 steps holds",
        " record JONES/1 step 1 step 2 step 3 step 4 step 5 step 6",
        r#"{"card":{"clearance":"JONES/1","done":0,"holder":"JONES","phase":"Ordered","round":1,"steps":6},"reply":"accepted"}"#,
    ),
    (
        r#"{"at":102,"by":"OPS","clearance":"JONES/1","do":"instruct","step":1}"#,
        "greatest 1 fence L2 sections L2 points S2 S3 states S2 S3 records JONES/1 steps 1 2 3 4 5 6 holds",
        " hand S2 record JONES/1 step 1",
        r#"{"card":{"clearance":"JONES/1","done":0,"holder":"JONES","phase":"Ordered","round":1,"steps":6},"reply":"accepted"}"#,
    ),
    (
        r#"{"at":103,"by":"REED","clearance":"JONES/1","do":"repeat","step":1,"text":"OPEN S2"}"#,
        "greatest 1 fence L2 sections L2 points S2 S3 states S2 S3 records JONES/1 steps 1 2 3 4 5 6 holds",
        " record JONES/1 step 1",
        r#"{"card":{"clearance":"JONES/1","done":0,"holder":"JONES","phase":"Ordered","round":1,"steps":6},"reply":"accepted"}"#,
    ),
    (
        r#"{"at":104,"by":"REED","clearance":"JONES/1","do":"report","done":true,"step":1}"#,
        "greatest 1 fence L2 sections L2 points S2 S3 states S2 S3 records JONES/1 steps 1 2 3 4 5 6 holds",
        " position S2 hand S2 put S2 record JONES/1 step 1",
        r#"{"card":{"clearance":"JONES/1","done":1,"holder":"JONES","phase":"Ordered","round":1,"steps":6},"reply":"accepted"}"#,
    ),
    (
        r#"{"at":105,"by":"KIM","do":"request","section":"L3"}"#,
        "greatest 0 fence sections L3 points states records steps holds",
        " record KIM/1",
        r#"{"card":{"clearance":"KIM/1","done":0,"holder":"KIM","phase":"Requested","round":0,"steps":0},"reply":"accepted"}"#,
    ),
    (
        r#"{"at":106,"by":"OPS","do":"switch","steps":["CLOSE S2"]}"#,
        "greatest 0 fence sections points S2 states S2 records steps holds S2",
        " record OPS/1 step 1",
        r#"{"card":{"clearance":"OPS/1","done":0,"holder":"OPS","phase":"Switching","round":1,"steps":1},"reply":"accepted"}"#,
    ),
    (
        r#"{"at":107,"by":"OPS","clearance":"OPS/1","do":"instruct","step":1}"#,
        "greatest 1 fence sections points S2 states S2 records OPS/1 steps 1 holds S2",
        "",
        r#"{"by":"JONES/1","kind":"HeldOpen","number":20,"refusal":"HELD","reply":"refused"}"#,
    ),
];

/// What a book gave to a command: what was near it, what it changed, and the reply.
#[derive(Drop)]
struct Given {
    near: String,
    edits: String,
    reply: String,
}

/// Asks a book, and makes the change.
fn asked<P: Shelf<PointState>, C: Shelf<Record>, T: Shelf<StepRow>, H: Shelf<Hold>>(
    alloc: Global,
    book: &mut Book<P, C, T, H>,
    command: &Command,
) -> Result<Given, Fail> {
    let (near, decision) = decided(alloc, book, command)?;
    book.reserve(&decision.change)?;
    let edits = edit_words(alloc, &decision.change.edits)?;
    let reply = reply_text(alloc, &decision.reply)?;
    book.apply(decision.change);
    Ok(Given { near, edits, reply })
}

/// What is near a command, and what is decided of that.
fn decided<P: Shelf<PointState>, C: Shelf<Record>, T: Shelf<StepRow>, H: Shelf<Hold>>(
    alloc: Global,
    book: &Book<P, C, T, H>,
    command: &Command,
) -> Result<(String, Decision), Fail>
    ensures { IfOk result (λ decided.
        fit book.now.register.net decided.1.change.edits.items ≡ true) }
{
    book.network().is_network();
    let near = book.near(command)?;
    let words = near_words(alloc, &near)?;
    let decision = decide(&near, command)?;
    Ok((words, decision))
}

/// What is near a command, each list by the names of its rows.
fn near_words(alloc: Global, near: &Near<'_>) -> Result<String, Fail> {
    let mut words = String::new(alloc);
    write!(words, "greatest {} fence", near.greatest)?;
    for section in &near.fence {
        write!(words, " {section}")?;
    }
    add_network(near, &mut words)?;
    add_rows(near, &mut words)?;
    Ok(words)
}

/// Its sections, points and states.
fn add_network(near: &Near<'_>, words: &mut String) -> Result<(), Fail> {
    write!(words, " sections")?;
    for row in &near.sections {
        write!(words, " {}", row.name)?;
    }
    write!(words, " points")?;
    for row in &near.points {
        write!(words, " {}", row.name)?;
    }
    write!(words, " states")?;
    for row in &near.states {
        write!(words, " {}", row.point)?;
    }
    Ok(())
}

/// Its records, steps and holds.
fn add_rows(near: &Near<'_>, words: &mut String) -> Result<(), Fail> {
    write!(words, " records")?;
    for row in &near.records {
        write!(words, " {}", row.id)?;
    }
    write!(words, " steps")?;
    for row in &near.steps {
        write!(words, " {}", row.ordinal)?;
    }
    write!(words, " holds")?;
    for hold in &near.holds {
        write!(words, " {}", hold.place)?;
    }
    Ok(())
}

/// What a change does, each edit by its kind and its row.
fn edit_words(alloc: Global, edits: &[Edit]) -> Result<String, Fail> {
    let mut words = String::new(alloc);
    for edit in edits {
        add_edit(edit, &mut words)?;
    }
    Ok(words)
}

fn add_edit(edit: &Edit, words: &mut String) -> Result<(), Fail> {
    match edit {
        Edit::SetPosition { point, .. } => write!(words, " position {point}")?,
        Edit::SetHand { point, .. } => write!(words, " hand {point}")?,
        Edit::PutHold(hold) => write!(words, " put {}", hold.place)?,
        Edit::TakeHold(hold) => write!(words, " take {}", hold.place)?,
        Edit::PutRecord(row) => write!(words, " record {}", row.id)?,
        Edit::PutStep(row) => write!(words, " step {}", row.ordinal)?,
        Edit::AddSection(row) => write!(words, " section {}", row.name)?,
        Edit::AddPoint(row) => write!(words, " point {}", row.name)?,
    }
    Ok(())
}

/// Asks a book of the worked network all of these.
fn all_asked<A: Abort, P: Shelf<PointState>, C: Shelf<Record>, T: Shelf<StepRow>, H: Shelf<Hold>>(
    rt: &A,
    alloc: Global,
    mut book: Book<P, C, T, H>,
) -> Result<(), Fail> {
    for (line, near, edits, reply) in ASKED {
        let command = command_of(alloc, line.as_bytes())?;
        let given = asked(alloc, &mut book, &command)?;
        assert_eq!(rt; given.near.as_str(), near, "{line}");
        assert_eq!(rt; given.edits.as_str(), edits, "{line}");
        assert_eq!(rt; given.reply.as_str(), reply, "{line}");
    }
    Ok(())
}

#[test]
fn a_book_is_asked_what_is_near_and_decides_of_that(rt: HostRuntime) -> Result<(), Fail> {
    let alloc = rt.alloc();
    let network = network(alloc)?;
    let staff = staff(alloc)?;
    let book: Book<ListShelf<PointState>, ListShelf<Record>, ListShelf<StepRow>, ListShelf<Hold>> =
        Book::opening(alloc, network, staff)?;
    all_asked(&rt, alloc, book)
}
