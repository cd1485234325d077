//! An update, as a value: network and staff as they are to be, and the jumpers that are taken out.
ghost use Rattle.std.specs.Prelude.{◌≡◌};
ghost use Rattle.clr_net.specs.Grid.{section_names};
ghost use Rattle.clr_net.specs.Names.{has_name};
ghost use Rattle.clr_update.specs.Update.{IsRead, is_filed};
ghost use Rattle.clr_changes.specs.Shown.{as_update};

use clr_net::{Name, Network};
use clr_staff::Staff;

/// Network and staff as they are to be from now on, and the jumpers that are taken out.
#[derive(Drop)]
pub struct Update {
    /// The network of the files, each point in the position of its row.
    pub network: Network,
    pub staff: Staff,
    /// The jumpers that are taken out.
    pub without: Vec<Name>,
}

impl Update {
    /// The files of an update are a network and a staff: a law, with nothing to do.
    pub fn is_read(&self)
        ensures { IsRead (as_update self.now) }
    {
        self.network.is_network();
        self.staff.is_staff();
    }

    /// Whether the files have a point of this name.
    pub(crate) fn is_filed(&self, point: Name) -> bool
        ensures { result ≡ is_filed (as_update self.now) point }
    {
        self.network.point(&point).is_some()
    }

    /// Whether the files have a section of this name.
    pub(crate) fn has_section(&self, section: Name) -> bool
        ensures { result ≡ has_name (section_names self.now.network.sections) section }
    {
        self.network.section(&section).is_some()
    }
}
