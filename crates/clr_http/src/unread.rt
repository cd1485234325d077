//! Whether a request may not have been read whole.
ghost use Rattle.std.specs.Prelude.{◌≡◌};
ghost use Rattle.clr_http.specs.Served.{may_be_unread, refuses_unread};

use crate::serve::{HttpFault, Served};
use http::StatusCode;

/// Whether more of a request may come after its response: that refuses it by its head, before its
/// body is read.
pub fn may_be_unread(served: Result<Served, HttpFault>) -> bool
    ensures { result ≡ may_be_unread served }
{
    match &served {
        Ok(Served::Answered(status)) => refuses_unread(*status),
        Ok(Served::Nothing) | Err(_) => false,
    }
}

/// Whether a status is one of those refusals.
fn refuses_unread(status: StatusCode) -> bool
    ensures { result ≡ refuses_unread status }
{
    matches!(status.as_u16(), 400 | 403 | 404 | 405 | 411 | 413)
}
