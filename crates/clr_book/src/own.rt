//! What a command looks at that needs no fence, and the answer to it.
ghost use Rattle.std.specs.Prelude.{◌≡◌, ◌==◌, ℕ, List, true, IfOk, filter, map};
ghost use Rattle.std.specs.Prelude.{option_copied, option_to_list};
ghost use Rattle.std.specs.List.Sorted.{IsStrictlySortedBy};
ghost use Rattle.clr_net.specs.Name.{name_cmp};
ghost use Rattle.clr_net.specs.Names.{has_name};
ghost use Rattle.clr_rules.specs.Answer.{answer};
ghost use Rattle.clr_rules.specs.Edits.{fit};
ghost use Rattle.clr_rules.specs.Good.{IsGood};
ghost use Rattle.clr_rules.specs.Holds.{has_hold, is_near_hold};
ghost use Rattle.clr_rules.specs.Id.{same_id};
ghost use Rattle.clr_rules.specs.Steps.{points_of};
ghost use Rattle.clr_answer.specs.Decision.{ChangesIfAccepted, answer_of_decision};
ghost use Rattle.clr_book.specs.Own.{always_own, are_few, asked_answer, crews_at, fence_at};
ghost use Rattle.clr_book.specs.Own.{granted_work, is_known_inside, looks_by, own_near, own_of};
ghost use Rattle.clr_book.specs.Own.{own_where, points_among, sections_among};

use crate::{Book, groups_near, rows_in};
use clr_answer::{Decision, Near, decide, in_order};
use clr_net::Name;
use clr_rules::{ClearanceId, Command, Hold, HoldKind, Kind, Phase, PointState, Record, StepRow};
use clr_shelf::{Row, Shelf};
use std::alloc::{AllocError, Global};

/// What a book answers to a command, and what the command would change. It does not search the
/// fence of the clearance where the command needs none; otherwise it is the book's own answer.
pub fn answer<P, C, T, H>(
    book: &Book<P, C, T, H>,
    command: &Command,
) -> Result<Decision, AllocError>
where
    P: Shelf<PointState>,
    C: Shelf<Record>,
    T: Shelf<StepRow>,
    H: Shelf<Hold>,
    ensures asked { IfOk result (λ d.
        asked_answer book.now.register command.now ≡ answer_of_decision d) }
    ensures whole { IsGood book.now.register
        → IfOk result (λ d. answer book.now.register command.now ≡ answer_of_decision d) }
    ensures nothing { IfOk result ChangesIfAccepted }
    ensures fits { IfOk result
        (λ d. fit book.now.register.net d.change.edits.items ≡ true) }
{
    let Some(id) = own_of(book, &command.kind) else {
        let decision = book.answer(command)?;
        return Ok(decision);
    };
    let near = own_near(book, id, &command.kind)?;
    let decision = decide(&near, command)?;
    Ok(decision)
}

/// The clearance of a command that needs no fence. The work section of a granted clearance is in
/// its fence, and so is a section that the clearance has tested or grounded. Where there are few
/// holds at all, a release looks at each of them.
fn own_of<P, C, T, H>(book: &Book<P, C, T, H>, kind: &Kind) -> Option<ClearanceId>
where
    P: Shelf<PointState>,
    C: Shelf<Record>,
    T: Shelf<StepRow>,
    H: Shelf<Hold>,
    ensures { result ≡ own_of book.now.register kind.now }
{
    match kind {
        Kind::Test {
            clearance,
            section,
            ..
        } => { own_where(is_known_inside(book, *clearance, *section), *clearance) }
        Kind::Ground { clearance, section } => {
            own_where(
                holds_there(book, *clearance, HoldKind::Tested, *section),
                *clearance,
            )
        }
        Kind::Unground { clearance, section } => {
            own_where(
                holds_there(book, *clearance, HoldKind::Ground, *section),
                *clearance,
            )
        }
        Kind::Release { clearance, .. } => own_where(are_few(book), *clearance),
        _ => always_own(kind),
    }
}

/// The clearance, where what it asks holds.
fn own_where(holds: bool, id: ClearanceId) -> Option<ClearanceId>
    ensures { result ≡ own_where holds id }
{
    if holds { Some(id) } else { None }
}

/// Whether the clearance has this hold.
fn holds_there<P, C, T, H>(
    book: &Book<P, C, T, H>,
    id: ClearanceId,
    kind: HoldKind,
    place: Name,
) -> bool
where
    P: Shelf<PointState>,
    C: Shelf<Record>,
    T: Shelf<StepRow>,
    H: Shelf<Hold>,
    ensures { result ≡ has_hold book.now.register.holds id kind place }
{
    let (_, _, _, holds) = book.shelves();
    holds.get(&Hold { kind, place, id }).is_some()
}

/// Whether a section is known to be in the fence of the clearance.
fn is_known_inside<P, C, T, H>(book: &Book<P, C, T, H>, id: ClearanceId, section: Name) -> bool
where
    P: Shelf<PointState>,
    C: Shelf<Record>,
    T: Shelf<StepRow>,
    H: Shelf<Hold>,
    ensures { result ≡ is_known_inside book.now.register id section }
{
    let (_, records, _, _) = book.shelves();
    is_granted_work(records.get(&id), section) || holds_there(book, id, HoldKind::Tested, section)
}

/// Whether a section is the work section of a record that is granted.
fn is_granted_work(found: Option<&Record>, section: Name) -> bool
    ensures { result ≡ has_name (granted_work (option_copied found.entry)) section }
{
    let Some(row) = found else {
        return false;
    };
    row.phase == Phase::Granted && row.work == Some(section)
}

/// Whether there are few holds in all.
fn are_few<P, C, T, H>(book: &Book<P, C, T, H>) -> bool
where
    P: Shelf<PointState>,
    C: Shelf<Record>,
    T: Shelf<StepRow>,
    H: Shelf<Hold>,
    ensures { result ≡ are_few book.now.register.holds }
{
    let (_, _, _, holds) = book.shelves();
    holds.len() < 1_000
}

/// The clearance of a command that never needs a fence.
fn always_own(kind: &Kind) -> Option<ClearanceId>
    ensures { result ≡ always_own kind.now }
{
    match kind {
        Kind::Instruct { clearance, .. } => Some(*clearance),
        Kind::Repeat { clearance, .. } => Some(*clearance),
        Kind::Report { clearance, .. } => Some(*clearance),
        Kind::Grant { clearance } => Some(*clearance),
        Kind::SignOn { clearance, .. } => Some(*clearance),
        Kind::SignOff { clearance, .. } => Some(*clearance),
        Kind::Transfer { clearance, .. } => Some(*clearance),
        Kind::Restore { clearance, .. } => Some(*clearance),
        Kind::Amend { clearance, .. } => Some(*clearance),
        _ => None,
    }
}

/// What a command of this clearance looks at: its record and its steps, and what is at few places.
fn own_near<'a, P, C, T, H>(
    book: &'a Book<P, C, T, H>,
    id: ClearanceId,
    kind: &Kind,
) -> Result<Near<'a>, AllocError>
where
    P: Shelf<PointState>,
    C: Shelf<Record>,
    T: Shelf<StepRow>,
    H: Shelf<Hold>,
    ensures { IfOk result (λ near. near ≡ own_near book.now.register id kind.now) }
{
    let (states, records, steps, holds) = book.shelves();
    let steps = steps.group(&id)?;
    let alloc = *steps.allocator();
    let found = records.get(&id);
    let points = points_at(alloc, kind, &steps)?;
    let sections = sections_at(alloc, kind, found)?;
    let records = records_of(alloc, found)?;
    let fence = fence_at(alloc, kind)?;
    let states = rows_in(alloc, states, &points)?;
    let holds = looked_holds(alloc, holds, id, kind, &sections, &points)?;
    let near = Near {
        alloc,
        greatest: 0,
        fence,
        crossed: None,
        sections: Vec::new(alloc),
        points: Vec::new(alloc),
        staff: book.staff(),
        states,
        records,
        steps,
        holds,
    };
    Ok(near)
}

/// The record that was found, as a list.
fn records_of(alloc: Global, found: Option<&Record>) -> Result<Vec<&Record>, AllocError>
    ensures { IfOk result (λ records. map (λ row. row.now) records.items
        ≡ option_to_list (option_copied found.entry)) }
{
    let mut records = Vec::new(alloc);
    if let Some(row) = found {
        records.push(row)?;
    }
    Ok(records)
}

/// The points at which a command looks, in order.
fn points_at(alloc: Global, kind: &Kind, steps: &[&StepRow]) -> Result<Vec<Name>, AllocError>
    ensures rising { IfOk result (λ names. IsStrictlySortedBy name_cmp names.items) }
    ensures same { IfOk result (λ names. (p : List ℕ) → has_name names.items p
        ≡ has_name (points_among (map (λ row. row.now) steps.now) kind.now) p) }
{
    let looked = looked_steps(alloc, kind, steps)?;
    let points = points_of(alloc, &looked)?;
    Ok(in_order(points))
}

/// The steps at whose points a command looks.
fn looked_steps<'a>(
    alloc: Global,
    kind: &Kind,
    steps: &[&'a StepRow],
) -> Result<Vec<&'a StepRow>, AllocError>
    ensures { IfOk result (λ looked. points_of (map (λ row. row.now) looked.items)
        ≡ points_among (map (λ row. row.now) steps.now) kind.now) }
{
    match kind {
        Kind::Instruct { step, .. } => {
            let found = numbered(alloc, steps, *step)?;
            Ok(found)
        }
        Kind::Restore { .. } => {
            let found = of_first_round(alloc, steps)?;
            Ok(found)
        }
        _ => Ok(Vec::new(alloc)),
    }
}

/// The steps that have a number.
fn numbered<'a>(
    alloc: Global,
    steps: &[&'a StepRow],
    number: u16,
) -> Result<Vec<&'a StepRow>, AllocError>
    ensures { IfOk result (λ found. found.items
        ≡ filter (λ row. row.now.ordinal == number) steps.now) }
{
    steps
        .iter()
        .copied()
        .filter(|row| row.ordinal == number)
        .collect(alloc)
}

/// The steps of the first round.
fn of_first_round<'a>(alloc: Global, steps: &[&'a StepRow]) -> Result<Vec<&'a StepRow>, AllocError>
    ensures { IfOk result (λ found. found.items ≡ filter (λ row. row.now.round == 1) steps.now) }
{
    steps
        .iter()
        .copied()
        .filter(|row| row.round == 1)
        .collect(alloc)
}

/// The points of these steps.
fn points_of(alloc: Global, steps: &[&StepRow]) -> Result<Vec<Name>, AllocError>
    ensures { IfOk result (λ points. points.items ≡ map (λ row. row.now.step.point) steps.now) }
{
    steps.iter().map(|row| row.step.point).collect(alloc)
}

/// The sections at which a command looks.
fn sections_at(alloc: Global, kind: &Kind, found: Option<&Record>) -> Result<Vec<Name>, AllocError>
    ensures { IfOk result (λ names. names.items
        ≡ sections_among (option_copied found.entry) kind.now) }
{
    let mut names = Vec::new(alloc);
    match kind {
        Kind::Ground { section, .. } | Kind::Unground { section, .. } => names.push(*section)?,
        Kind::SignOn { .. } => {
            if let Some(row) = found {
                if let Some(work) = row.work {
                    names.push(work)?;
                }
            }
        }
        _ => {}
    }
    Ok(names)
}

/// The clearance whose crews a command looks at.
fn crews_at(kind: &Kind) -> Option<ClearanceId>
    ensures { result ≡ crews_at kind.now }
{
    match kind {
        Kind::SignOn { clearance, .. } => Some(*clearance),
        Kind::SignOff { clearance, .. } => Some(*clearance),
        Kind::Unground { clearance, .. } => Some(*clearance),
        _ => None,
    }
}

/// The sections of the fence of which a command has to know.
fn fence_at(alloc: Global, kind: &Kind) -> Result<Vec<Name>, AllocError>
    ensures { IfOk result (λ names. names.items ≡ fence_at kind.now) }
{
    let mut names = Vec::new(alloc);
    match kind {
        Kind::Test { section, .. } => names.push(*section)?,
        Kind::Ground { section, .. } | Kind::Unground { section, .. } => names.push(*section)?,
        _ => {}
    }
    Ok(names)
}

/// The holds at which a command of this clearance looks.
fn looked_holds<'a, H: Shelf<Hold>>(
    alloc: Global,
    shelf: &'a H,
    id: ClearanceId,
    kind: &Kind,
    sections: &[Name],
    points: &[Name],
) -> Result<Vec<&'a Hold>, AllocError>
    requires sections { IsStrictlySortedBy name_cmp sections.now }
    requires points { IsStrictlySortedBy name_cmp points.now }
    ensures { IfOk result (λ found. map (λ row. row.now) found.items
        ≡ filter (looks_by (has_name sections.now) (has_name points.now) id kind.now)
        (H.rows shelf.now)) }
{
    match kind {
        Kind::Release { .. } => own_holds(alloc, shelf, id),
        _ => {
            let found = holds_at(alloc, shelf, sections, points, crews_at(kind))?;
            Ok(found)
        }
    }
}

/// The holds of a clearance.
fn own_holds<'a, H: Shelf<Hold>>(
    alloc: Global,
    shelf: &'a H,
    id: ClearanceId,
) -> Result<Vec<&'a Hold>, AllocError>
    ensures { IfOk result (λ found. map (λ row. row.now) found.items
        ≡ filter (λ h. same_id id h.id) (H.rows shelf.now)) }
{
    let mut found = Vec::new(alloc);
    for place in 0..shelf.len() {
        let Some(row) = shelf.at(place) else {
            unreachable!()
        };
        if id == row.id {
            found.push(row)?;
        }
    }
    found.sort_unstable_by(|a, b| a.compare_key(b));
    Ok(found)
}

/// The holds at these sections and points, and of the crews of this clearance.
fn holds_at<'a, H: Shelf<Hold>>(
    alloc: Global,
    shelf: &'a H,
    sections: &[Name],
    points: &[Name],
    crews: Option<ClearanceId>,
) -> Result<Vec<&'a Hold>, AllocError>
    requires sections { IsStrictlySortedBy name_cmp sections.now }
    requires points { IsStrictlySortedBy name_cmp points.now }
    ensures { IfOk result (λ found. map (λ row. row.now) found.items
        ≡ filter (is_near_hold (has_name sections.now) (has_name points.now) crews)
        (H.rows shelf.now)) }
{
    let groups = groups_near(alloc, sections, points, crews)?;
    let found = rows_in(alloc, shelf, &groups)?;
    Ok(found)
}
