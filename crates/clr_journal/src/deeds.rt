//! The deeds of a journal that were carried out.
ghost use Rattle.std.specs.Prelude.{◌≡◌, ◌&&◌, IfOk, map, not, option_map, None, Some};
ghost use Rattle.std.specs.Prelude.{if◌then◌else◌};
ghost use Rattle.serde_json.specs.View.{view};
ghost use Rattle.clr_changes.specs.Deeds.{deed_of};
ghost use Rattle.clr_journal.specs.Journals.{carried_out, own_pair, withdraws};
ghost use Rattle.clr_journal.specs.Line.{entry_of};

use crate::line::{Carried, Line, is_accepted};
use std::alloc::{AllocError, Global};

/// The deeds of a journal's lines that were carried out, in their order: those that were accepted,
/// but for those that the next line withdraws.
#[tactic(auto, unfolding(crate::specs::Journals::carried_out))]
pub fn carried_out<'a>(alloc: Global, lines: &'a [Line]) -> Result<Vec<&'a Carried>, AllocError>
    ensures { IfOk result (λ found.
        map (λ one. (deed_of one.now.deed, view one.now.reply)) found.items
        ≡ carried_out (map entry_of lines.now)) }
{
    let mut found = Vec::new(alloc);
    let mut rest = lines;
    while let Some((line, after)) = rest.split_first() {
        if let Some(carried) = kept(line, after) {
            found.push(carried)?;
        }
        rest = after;
    }
    Ok(found)
}

/// The deed of a line, where it was carried out.
fn kept<'a>(line: &'a Line, after: &[Line]) -> Option<&'a Carried>
    ensures { option_map (λ one. (deed_of one.now.deed, view one.now.reply)) result
        ≡ own_pair (entry_of line.now) (map entry_of after.now) }
{
    match line {
        Line::Carried(carried) => {
            if is_accepted(&carried.reply) && !withdraws(after) {
                Some(carried)
            } else {
                None
            }
        }
        Line::Withdrawn(_) => None,
    }
}

/// Whether the next line withdraws.
fn withdraws(lines: &[Line]) -> bool
    ensures { result ≡ withdraws (map entry_of lines.now) }
{
    match lines.first() {
        Some(Line::Withdrawn(_)) => true,
        _ => false,
    }
}
