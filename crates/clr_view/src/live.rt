//! The live sections: those to which closed points lead from a source.
ghost use Rattle.std.specs.Prelude.{◌≡◌, IfOk, filter, map};
ghost use Rattle.std.specs.List.Sorted.{IsStrictlySortedBy};
ghost use Rattle.clr_net.specs.Grid.{section_names};
ghost use Rattle.clr_net.specs.Index.{place_in};
ghost use Rattle.clr_net.specs.Name.{name_cmp};
ghost use Rattle.clr_rules.specs.Live.{is_closed_point, is_live};
ghost use Rattle.clr_view.specs.Live.{AreMarksOf, link_of, section_mark};
ghost use Rattle.clr_view.specs.Spread.{is_marked};

use crate::spread::{Link, spread};
use clr_book::Book;
use clr_net::{Name, PointRow, Position, SectionRow, place_of};
use clr_rules::{Hold, PointState, Record, StepRow};
use clr_shelf::Shelf;
use std::alloc::{AllocError, Global};

/// For each section, at its place in the order of names, whether it is live. The marks of the
/// sources spread over the closed points.
pub(crate) fn live_marks<P, C, T, H>(
    alloc: Global,
    book: &Book<P, C, T, H>,
) -> Result<Vec<bool>, AllocError>
where
    P: Shelf<PointState>,
    C: Shelf<Record>,
    T: Shelf<StepRow>,
    H: Shelf<Hold>,
    ensures { IfOk result (λ marks. AreMarksOf
        (is_live book.now.register.net book.now.register.states)
        book.now.register.net.sections marks.items) }
{
    let network = book.network();
    let links = closed_links(alloc, book, network.sections(), network.points())?;
    let mut marks = source_marks(alloc, network.sections())?;
    spread(&links, &mut marks);
    Ok(marks)
}

/// Whether a section has its mark; the sections are in the order of their names.
pub(crate) fn section_mark(sections: &[SectionRow], marks: &[bool], section: &Name) -> bool
    requires { IsStrictlySortedBy name_cmp (section_names sections.now) }
    ensures { result ≡ section_mark sections.now marks.now section.now }
{
    mark_at(marks, place_in(sections, section))
}

fn mark_at(marks: &[bool], place: usize) -> bool
    ensures { result ≡ is_marked marks.now place }
{
    place < marks.len() && marks[place]
}

/// The sources are marked.
fn source_marks(alloc: Global, sections: &[SectionRow]) -> Result<Vec<bool>, AllocError>
    ensures { IfOk result (λ marks. marks.items ≡ map (λ row. row.source) sections.now) }
{
    sections.iter().map(|section| section.source).collect(alloc)
}

/// The links over those of the points that are closed.
fn closed_links<P, C, T, H>(
    alloc: Global,
    book: &Book<P, C, T, H>,
    sections: &[SectionRow],
    points: &[PointRow],
) -> Result<Vec<Link>, AllocError>
where
    P: Shelf<PointState>,
    C: Shelf<Record>,
    T: Shelf<StepRow>,
    H: Shelf<Hold>,
    requires { IsStrictlySortedBy name_cmp (section_names sections.now) }
    ensures { IfOk result (λ links. links.items ≡ map (link_of sections.now)
        (filter (λ p. is_closed_point book.now.register.states p.name) points.now)) }
{
    points
        .iter()
        .copied()
        .filter(|point| is_closed(book, &point.name))
        .map(|point| link_of(sections, &point))
        .collect(alloc)
}

/// Whether a point is closed.
fn is_closed<P, C, T, H>(book: &Book<P, C, T, H>, point: &Name) -> bool
where
    P: Shelf<PointState>,
    C: Shelf<Record>,
    T: Shelf<StepRow>,
    H: Shelf<Hold>,
    ensures { result ≡ is_closed_point book.now.register.states point.now }
{
    match book.state(point) {
        Some(state) => matches!(state.position, Position::Closed),
        None => false,
    }
}

/// The places of a point's ends.
fn link_of(sections: &[SectionRow], point: &PointRow) -> Link
    requires { IsStrictlySortedBy name_cmp (section_names sections.now) }
    ensures { result ≡ link_of sections.now point.now }
{
    Link {
        from: place_in(sections, &point.from_end),
        to: place_in(sections, &point.to_end),
    }
}

/// The place of a section, or past the last one.
fn place_in(sections: &[SectionRow], name: &Name) -> usize
    requires { IsStrictlySortedBy name_cmp (section_names sections.now) }
    ensures { result ≡ place_in (section_names sections.now) name.now }
{
    match place_of(sections, *name) {
        Some(place) => place,
        None => sections.len(),
    }
}
