//! The greatest network and the greatest staff, and one row more.
ghost use Rattle.std.specs.Prelude.{◌<◌};

use crate::worked::{chain, numbered};
use clr_net::{Name, NetFault, Network};
use clr_staff::{Role, Staff, StaffFault, StaffRow};
use std::alloc::Global;
use std::test::Fail;

/// How many sections a fence has. Where memory is refused the same fence is asked for again before
/// the test ends.
fn fence_len(alloc: Global, network: &Network, work: &str, cut: &[&str]) -> Result<usize, Fail> {
    let mut cut_at = Vec::new(alloc);
    for point in cut {
        cut_at.push(Name::read(point)?)?;
    }
    let work = Name::read(work)?;
    match network.fence(&work, cut_at.as_slice()) {
        Ok(fence) => Ok(fence.sections().len()),
        Err(refused) => {
            let again = network.fence(&work, cut_at.as_slice())?;
            if again.has(&work) {
                Err(refused.into())
            } else {
                Ok(0)
            }
        }
    }
}

#[test]
fn chain_of_five_thousand_sections(rt: HostRuntime) -> Result<(), Fail> {
    let network = chain(rt.alloc(), 5000, 4999)??;
    let cases: [(&str, &[&str], usize); 3] = [
        ("C5000", &[], 5000),
        ("C2500", &["P2500"], 2500),
        ("C2500", &["P2499", "P2500"], 1),
    ];
    for (work, cut, sections) in cases {
        let len = fence_len(rt.alloc(), &network, work, cut)?;
        assert_eq!(rt; len, sections, "of {work}");
    }
    Ok(())
}

/// The fault of a chain, if it has one. Out of memory ends the test.
fn chain_fault(alloc: Global, sections: u16, points: u16) -> Result<Option<NetFault>, Fail>
    requires { 1 < sections }
{
    match chain(alloc, sections, points)? {
        Err(NetFault::NoMemory) => Err(NetFault::NoMemory.into()),
        outcome => Ok(outcome.err()),
    }
}

#[test]
fn one_section_too_many(rt: HostRuntime) -> Result<(), Fail> {
    for (sections, points, fault) in [
        (5000, 10000, None),
        (5001, 5000, Some(NetFault::TooLarge)),
        (5000, 10001, Some(NetFault::TooLarge)),
    ] {
        let outcome = chain_fault(rt.alloc(), sections, points)?;
        assert_eq!(rt; outcome, fault, "{sections} sections and {points} points");
    }
    Ok(())
}

/// The fault of the staff E0001, E0002 and on, if it has one; each but the first has the one before
/// as supervisor. Out of memory ends the test.
fn staff_fault(alloc: Global, count: u16) -> Result<Option<StaffFault>, Fail> {
    let mut rows = Vec::new(alloc);
    let mut supervisor = None;
    for place in 0..count {
        let name = numbered(alloc, 'E', place)?;
        rows.push(StaffRow {
            name,
            role: Role::Charge,
            supervisor,
        })?;
        supervisor = Some(name);
    }
    match Staff::build(alloc, rows) {
        Err(StaffFault::NoMemory) => Err(StaffFault::NoMemory.into()),
        outcome => Ok(outcome.err()),
    }
}

#[test]
fn two_thousand_employees(rt: HostRuntime) -> Result<(), Fail> {
    assert_eq!(rt; staff_fault(rt.alloc(), 2000)?, None);
    assert_eq!(rt; staff_fault(rt.alloc(), 2001)?, Some(StaffFault::TooMany));
    Ok(())
}
