//! The worked network and staff as the texts of their files.
use clr_csv::{read_points, read_sections, read_staff};
use clr_net::Network;
use clr_staff::Staff;
use clr_stream::Counted;
use std::alloc::Global;
use std::test::Fail;

pub const SECTIONS: &[u8] = b"section,source\nG,yes\nL1,no\nL2,no\nL3,no\nH,yes\n";

pub const POINTS: &[u8] = b"point,from,to,lockable,remote,position
S1,G,L1,yes,no,closed
S2,L1,L2,yes,no,closed
S3,L2,L3,yes,no,closed
S4,L3,H,yes,yes,closed
T1,L1,L3,no,no,open
";

const STAFF: &[u8] = b"employee,role,supervisor
OPS,operator,
REED,field,
DALE,field,
JONES,charge,BOSS
KIM,charge,
BOSS,charge,
";

/// The worked network.
pub fn network(alloc: Global) -> Result<Network, Fail> {
    let sections = read_sections(alloc, &mut Counted::new(SECTIONS))?;
    let points = read_points(alloc, &mut Counted::new(POINTS))?;
    Ok(Network::build(alloc, sections, points)?)
}

/// The worked staff.
pub fn staff(alloc: Global) -> Result<Staff, Fail> {
    let rows = read_staff(alloc, &mut Counted::new(STAFF))?;
    Ok(Staff::build(alloc, rows)?)
}
