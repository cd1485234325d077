//! The lines that a server writes. They are made whole, in place, before any of it is written.
ghost use Rattle.std.specs.Prelude.{◌≡◌, ◌≤◌, length};
ghost use Rattle.clr_commands.specs.Connections.{connection_line, http_fault_name};
ghost use Rattle.clr_commands.specs.Serve.{serving_line};

use clr_edge::line::{Line, push_number};
use clr_http::HttpFault;

/// The line that a server begins with.
pub fn serving_line(port: u16) -> Line
    ensures { result.bytes ≡ serving_line port }
{
    let mut line = Line::new();
    push_number(&mut line, "serving 127.0.0.1:", usize::from(port));
    line.push_str("\n");
    line
}

/// The line of a connection that failed. It takes no memory, since it may report that memory ran
/// out.
pub fn connection_line(number: usize, fault: HttpFault) -> Line
    ensures { result.bytes ≡ connection_line number fault }
{
    let mut line = Line::new();
    push_number(&mut line, "connection ", number);
    line.push_str(" ");
    line.push_str(http_fault_name(fault));
    line.push_str("\n");
    line
}

/// The fault's name in that line.
fn http_fault_name(fault: HttpFault) -> &'static str
    ensures text { result.now ≡ http_fault_name fault }
    ensures short { length result.now ≤ 11 }
{
    match fault {
        HttpFault::ReadFailed => "ReadFailed",
        HttpFault::WriteFailed(_) => "WriteFailed",
        HttpFault::NoMemory => "NoMemory",
    }
}
