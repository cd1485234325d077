//! The worked request and its response, and chains of sections.
ghost use Rattle.std.specs.Prelude.{◌<◌};

use clr_net::{Name, NetFault, Network, PointRow, Position, SectionRow};
use std::alloc::Global;
use std::test::Fail;

/// JONES asks for L2 over HTTP.
pub const REQUEST: &str = "POST /command HTTP/1.1\r\n\
    Host: 127.0.0.1:8080\r\n\
    User-Agent: curl/8.5.0\r\n\
    Accept: */*\r\n\
    Content-Type: application/json\r\n\
    Content-Length: 53\r\n\
    \r\n\
    {\"at\":100,\"by\":\"JONES\",\"do\":\"request\",\"section\":\"L2\"}";

/// What a new register answers to it.
pub const RESPONSE: &str = "HTTP/1.1 200 OK\r\n\
    Content-Type: application/json\r\n\
    Content-Length: 117\r\n\
    Connection: close\r\n\
    \r\n\
    {\"card\":{\"clearance\":\"JONES/1\",\"done\":0,\"holder\":\"JONES\",\"phase\":\"Requested\",\
    \"round\":0,\"steps\":0},\"reply\":\"accepted\"}";

/// The sections C0001, a source, C0002 and on, each joined to the next by a closed point: C0001 and
/// C0002 by P0001. Points that are left over begin again at C0001.
pub fn chain(alloc: Global, sections: u16, points: u16) -> Result<Result<Network, NetFault>, Fail>
    requires { 1 < sections }
{
    let mut section_rows = Vec::new(alloc);
    for place in 0..sections {
        let name = numbered(alloc, 'C', place)?;
        let source = place == 0;
        section_rows.push(SectionRow { name, source })?;
    }
    let mut point_rows = Vec::new(alloc);
    for place in 0..points {
        let from = place % (sections - 1);
        point_rows.push(PointRow {
            name: numbered(alloc, 'P', place)?,
            from_end: numbered(alloc, 'C', from)?,
            to_end: numbered(alloc, 'C', from + 1)?,
            lockable: true,
            remote: false,
            position: Position::Closed,
            jumper: false,
        })?;
    }
    Ok(Network::build(alloc, section_rows, point_rows))
}

/// A letter and a number of four digits or more. Places count from 0, and numbers from 1.
pub fn numbered(alloc: Global, letter: char, place: u16) -> Result<Name, Fail> {
    let number = u32::from(place) + 1;
    let text = format!(in alloc; "{letter}{number:04}")?;
    Ok(Name::read(text.as_str())?)
}
