//! The sections that a source reaches.
ghost use Rattle.std.specs.Prelude.{◌≡◌, ℕ, List, ◌++◌, IfOk, OnOk};
ghost use Rattle.clr_net.specs.Grid.{section_names};
ghost use Rattle.clr_net.specs.Names.{has_name};
ghost use Rattle.clr_csv.specs.Warnings.{is_reached};

use clr_net::{Fence, Name, Network, has_name};
use std::alloc::{AllocError, Global};

/// The names of the sections that a source reaches, in any order. A source that an earlier one
/// reaches has the same fence, so each section is found once.
pub(crate) fn reached(alloc: Global, network: &Network) -> Result<Vec<Name>, AllocError>
    ensures { IfOk result (λ names. (s : List ℕ)
        → has_name names.items s ≡ is_reached network.now s) }
{
    let mut names = Vec::new(alloc);
    for section in network.sections() {
        if section.source && !has_name(&names, section.name) {
            let fence = network.fence(&section.name, &[])?;
            push_sections(&mut names, &fence)?;
        }
    }
    Ok(names)
}

/// Adds the names of the sections of a fence.
fn push_sections(names: &mut Vec<Name>, fence: &Fence<'_>) -> Result<(), AllocError>
    ensures { OnOk result
        (names.new.items ≡ names.old.items ++ section_names fence.now.sections) }
{
    for section in fence.sections() {
        names.push(section.name)?;
    }
    Ok(())
}
