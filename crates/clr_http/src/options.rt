//! What a service does beside answering requests.
ghost use Rattle.std.specs.Prelude.{◌≡◌};
ghost use Rattle.clr_http.specs.Options.{plain};

use clr_staff::Logins;

/// The options of a service. The plain one has none.
#[derive(Debug, Drop)]
pub struct Service {
    /// It is at a desk: requests that a page of elsewhere may have sent are refused, and it shows
    /// the network and ways back.
    pub desk: bool,
    /// The employees that each login may speak for. `None` where a request may speak for any.
    pub logins: Option<Logins>,
}

impl Service {
    /// The service without an option.
    pub fn plain() -> Service
        ensures { result ≡ plain }
    {
        Service {
            desk: false,
            logins: None,
        }
    }
}
