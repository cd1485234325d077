//! All warnings about a network and a staff.
ghost use Rattle.std.specs.Prelude.{◌≡◌, ◌++◌, IfOk, OnOk, filter, map, not};
ghost use Rattle.std.specs.List.{list_any};
ghost use Rattle.clr_net.specs.Fence.{touches};
ghost use Rattle.clr_net.specs.Name.{same_name};
ghost use Rattle.clr_net.specs.Names.{has_name};
ghost use Rattle.clr_csv.specs.Warnings.{alike, apart, holders, is_role, missing, warnings, unless};
ghost use Rattle.clr_csv.specs.Warnings.{unlocked, unreached};
ghost use Rattle.clr_csv.specs.declared.warning.Warning.TheVariants.{NotJoined, NotReached};

use crate::alike::push_alike;
use crate::reached::reached;
use crate::warning::{Names, Warning};
use clr_net::{Name, Named, Network, PointRow, SectionRow, has_name};
use clr_staff::{Role, Staff, StaffRow};
use std::alloc::{AllocError, Global};

/// The warnings about a network and a staff: what is missing from the whole, then
/// the rows of each kind, then the names that are easily taken for one another.
pub fn check(alloc: Global, network: &Network, staff: &Staff) -> Result<Vec<Warning>, AllocError>
    ensures { IfOk result (λ found. found.items ≡ warnings network.now staff.now) }
{
    let mut found = Vec::new(alloc);
    push_missing(&mut found, network.sections(), staff.rows())?;
    push_holders(&mut found, staff.rows())?;
    push_sections(alloc, &mut found, network)?;
    push_points(&mut found, network.points())?;
    push_names(alloc, &mut found, Names::Sections, network.sections())?;
    push_names(alloc, &mut found, Names::Points, network.points())?;
    push_names(alloc, &mut found, Names::Employees, staff.rows())?;
    Ok(found)
}

/// Adds what is missing from the whole.
fn push_missing(
    found: &mut Vec<Warning>,
    sections: &[SectionRow],
    staff: &[StaffRow],
) -> Result<(), AllocError>
    ensures { OnOk result (found.new.items
        ≡ found.old.items ++ missing sections.now staff.now) }
{
    push_unless(found, has_source(sections), Warning::NoSource)?;
    push_unless(found, has_role(staff, Role::Operator), Warning::NoOperator)?;
    push_unless(found, has_role(staff, Role::Field), Warning::NoField)?;
    Ok(())
}

/// Whether one of the sections is a source.
fn has_source(sections: &[SectionRow]) -> bool
    ensures { result ≡ list_any (λ row. row.source) sections.now }
{
    sections.iter().any(|row| row.source)
}

/// Whether an employee has this role.
fn has_role(staff: &[StaffRow], role: Role) -> bool
    ensures { result ≡ list_any (λ row. is_role role row.role) staff.now }
{
    staff.iter().any(|row| row.role == role)
}

/// Adds a warning, unless something rules it out.
fn push_unless(found: &mut Vec<Warning>, is_there: bool, warning: Warning) -> Result<(), AllocError>
    ensures { OnOk result (found.new.items ≡ found.old.items ++ unless is_there warning) }
{
    if !is_there {
        found.push(warning)?;
    }
    Ok(())
}

/// Adds the employees who may hold a clearance and have no supervisor.
fn push_holders(found: &mut Vec<Warning>, staff: &[StaffRow]) -> Result<(), AllocError>
    ensures { OnOk result (found.new.items ≡ found.old.items ++ holders staff.now) }
{
    for row in staff {
        if row.role == Role::Charge && row.supervisor.is_none() {
            found.push(Warning::NoSupervisor(row.name))?;
        }
    }
    Ok(())
}

/// Adds the sections that no point joins to another one, then those that no source reaches.
fn push_sections(
    alloc: Global,
    found: &mut Vec<Warning>,
    network: &Network,
) -> Result<(), AllocError>
    ensures { OnOk result (found.new.items
        ≡ found.old.items ++ apart network.now ++ unreached network.now) }
{
    push_apart(found, network.sections(), network.points())?;
    let reached = reached(alloc, network)?;
    push_unreached(found, network.sections(), &reached)?;
    Ok(())
}

/// Adds the sections that none of the points joins to another one.
fn push_apart(
    found: &mut Vec<Warning>,
    sections: &[SectionRow],
    points: &[PointRow],
) -> Result<(), AllocError>
    ensures { OnOk result (found.new.items
        ≡ found.old.items ++ map (λ row. NotJoined row.name)
        (filter (λ row. not (list_any (touches (same_name row.name)) points.now)) sections.now)) }
{
    for row in sections {
        if !is_joined(points, row.name) {
            found.push(Warning::NotJoined(row.name))?;
        }
    }
    Ok(())
}

/// Whether one of the points joins a section to another one.
fn is_joined(points: &[PointRow], section: Name) -> bool
    ensures { result ≡ list_any (touches (same_name section)) points.now }
{
    points.iter().any(|point| section == point.from_end || section == point.to_end)
}

/// Adds the sections that are not among those that are reached.
fn push_unreached(
    found: &mut Vec<Warning>,
    sections: &[SectionRow],
    reached: &[Name],
) -> Result<(), AllocError>
    ensures { OnOk result (found.new.items ≡ found.old.items ++ map (λ row. NotReached row.name)
        (filter (λ row. not (has_name reached.now row.name)) sections.now)) }
{
    for row in sections {
        if !has_name(reached, row.name) {
            found.push(Warning::NotReached(row.name))?;
        }
    }
    Ok(())
}

/// Adds the points that nothing can lock.
fn push_points(found: &mut Vec<Warning>, points: &[PointRow]) -> Result<(), AllocError>
    ensures { OnOk result (found.new.items ≡ found.old.items ++ unlocked points.now) }
{
    for row in points {
        if !row.lockable {
            found.push(Warning::NotLocked(row.name))?;
        }
    }
    Ok(())
}

/// Adds the pairs of rows whose names differ by one letter.
fn push_names<R: Named>(
    alloc: Global,
    found: &mut Vec<Warning>,
    of: Names,
    rows: &[R],
) -> Result<(), AllocError>
    ensures { OnOk result (found.new.items
        ≡ found.old.items ++ alike of (map R.name_of rows.now)) }
{
    let names = names_of(alloc, rows)?;
    push_alike(found, of, &names)?;
    Ok(())
}

/// The names of rows.
fn names_of<R: Named>(alloc: Global, rows: &[R]) -> Result<Vec<Name>, AllocError>
    ensures { IfOk result (λ names. names.items ≡ map R.name_of rows.now) }
{
    rows.iter().map(|row| row.name()).collect(alloc)
}
