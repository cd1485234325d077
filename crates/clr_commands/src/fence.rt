//! The subcommand `fence`: the sections that can be reached from one without passing a cut.
ghost use Rattle.std.specs.Prelude.{◌≡◌, ◌++◌, IfErr, IfOk, IfSome, OnOk, map, string_bytes};
ghost use Rattle.clr_csv.specs.Sections.{sections_of};
ghost use Rattle.clr_commands.specs.Answers.{Gives, GivesText, IsMemory};
ghost use Rattle.clr_commands.specs.Faults.{IsOfSubcommand};
ghost use Rattle.clr_commands.specs.Fence.{FencesAt, FencesFiles, FencesRows, fence_lines};
ghost use Rattle.clr_commands.specs.Fence.{point_named, points_named, section_named};
ghost use Rattle.clr_edge.specs.Files.{HasCause, WaitsFor};
ghost use Rattle.clr_commands.specs.Lines.{line_of, lines_of};
ghost use Rattle.clr_edge.specs.Paths.{at_paths};

use clr_args::asked::FenceArgs;
use clr_edge::fault::{Fault, ImportFile};
use clr_edge::files::{Source, points_from, sections_from};
use clr_edge::paths::Opens;
use clr_net::{Fence, Name, Network, PointRow, SectionRow};
use std::alloc::{AllocError, Global};

/// What `fence SECTIONS POINTS WORK [CUT]...` prints.
pub fn fence<'a, O: Opens<'a>>(
    alloc: Global,
    paths: &O,
    args: &FenceArgs<'a>,
) -> Result<String, Fault>
    ensures answer { FencesAt
        (at_paths O.File.remaining O.File.failure_count (O.bytes_at paths.now)) args.now result }
    ensures faults { IfErr result IsOfSubcommand }
{
    let mut sections = paths.at(args.sections);
    let mut points = paths.at(args.points);
    fence_of_files(
        alloc,
        &mut sections,
        &mut points,
        args.work,
        args.cut.as_slice(),
    )
}

/// The printed fence, in the network of two files, of the section that `work` names, cut at the
/// points that `cut` names. The sections are read before the points are opened.
pub fn fence_of_files<S: Source, P: Source>(
    alloc: Global,
    sections: &mut S,
    points: &mut P,
    work: &str,
    cut: &[&str],
) -> Result<String, Fault>
    ensures answer { IfSome (S.remaining sections.old) (λ section_file.
        IfSome (P.remaining points.old) (λ point_file.
        FencesFiles section_file point_file work.now (map (λ word. word.now) cut.now) result)) }
    ensures sections_cause { HasCause ImportFile.Sections result
        (S.failure_count sections.old) (S.failure_count sections.new) }
    ensures points_cause { HasCause ImportFile.Points result
        (P.failure_count points.old) (P.failure_count points.new) }
    ensures points_wait { WaitsFor (S.remaining sections.old) sections_of ImportFile.Points result
        points.old points.new }
    ensures faults { IfErr result IsOfSubcommand }
{
    let sections = sections_from(alloc, sections)?;
    let points = points_from(alloc, points)?;
    let text = fence_of_rows(alloc, sections, points, work, cut)?;
    Ok(text)
}

/// The printed fence, in the network of these rows, of the section that `work` names, cut at the
/// points that `cut` names.
pub fn fence_of_rows(
    alloc: Global,
    sections: Vec<SectionRow>,
    points: Vec<PointRow>,
    work: &str,
    cut: &[&str],
) -> Result<String, Fault>
    ensures answer { FencesRows sections.items points.items work.now
        (map (λ word. word.now) cut.now) result }
    ensures faults { IfErr result IsOfSubcommand }
{
    let network = Network::build(alloc, sections, points)?;
    let text = fence_between(alloc, &network, work, cut)?;
    Ok(text)
}

/// The printed fence of the section that `work` names, cut at the points that `cut` names.
pub fn fence_between(
    alloc: Global,
    network: &Network,
    work: &str,
    cut: &[&str],
) -> Result<String, Fault>
    ensures answer { GivesText IsMemory
        (fence_lines network.now work.now (map (λ word. word.now) cut.now)) result }
    ensures faults { IfErr result IsOfSubcommand }
{
    let work = section_named(network, work)?;
    let cut = points_named(alloc, network, cut)?;
    let fence = network.fence(&work, cut.as_slice())?;
    let text = fence_text(alloc, &fence)?;
    Ok(text)
}

/// The section that a word names.
fn section_named(network: &Network, word: &str) -> Result<Name, Fault>
    ensures answer { result ≡ section_named network.now word.now }
    ensures faults { IfErr result IsOfSubcommand }
{
    let name = Name::read(word)?;
    match network.section(&name) {
        Some(_) => Ok(name),
        None => Err(Fault::UnknownSection(name)),
    }
}

/// The switching point that a word names.
fn point_named(network: &Network, word: &str) -> Result<Name, Fault>
    ensures answer { result ≡ point_named network.now word.now }
    ensures faults { IfErr result IsOfSubcommand }
{
    let name = Name::read(word)?;
    match network.point(&name) {
        Some(_) => Ok(name),
        None => Err(Fault::UnknownPoint(name)),
    }
}

/// The switching points that words name. The first word from the left that names none is reported.
fn points_named(alloc: Global, network: &Network, words: &[&str]) -> Result<Vec<Name>, Fault>
    ensures answer { Gives IsMemory (λ names. names.items)
        (points_named network.now (map (λ word. word.now) words.now)) result }
    ensures faults { IfErr result IsOfSubcommand }
{
    let mut names = Vec::new(alloc);
    for word in words {
        names.push(point_named(network, word)?)?;
    }
    Ok(names)
}

/// The lines that a fence prints: the names of its sections in order, each with a line feed.
pub fn fence_text(alloc: Global, fence: &Fence<'_>) -> Result<String, AllocError>
    ensures { IfOk result (λ text. string_bytes text ≡ lines_of fence.now.sections) }
{
    let mut text = String::new(alloc);
    for section in fence.sections() {
        push_line(&mut text, section.name)?;
    }
    Ok(text)
}

/// Adds the line of a name.
fn push_line(text: &mut String, name: Name) -> Result<(), AllocError>
    ensures { OnOk result (string_bytes text.new ≡ string_bytes text.old ++ line_of name) }
{
    text.push_str(name.as_str())?;
    text.push_str("\n")?;
    Ok(())
}
