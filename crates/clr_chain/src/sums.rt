//! The sums of a chain.
ghost use Rattle.std.specs.Prelude.{◌≡◌, ◌++◌, IfOk};
ghost use Rattle.clr_chain.specs.Sums.{first_sum, sum_line, sum_of};

use clr_rules::Text;
use sha2::{Digest, Sha256};
use std::alloc::{AllocError, Global};

/// SHA-256 of two texts, one after the other, in hex.
#[tactic(auto, unfolding(crate::specs::Sums::sum_of))]
pub(crate) fn sum_of(alloc: Global, before: &[u8], text: &[u8]) -> Result<Text, AllocError>
    ensures { IfOk result (λ sum. sum ≡ sum_of (before.now ++ text.now)) }
{
    let mut hasher = Sha256::new();
    hasher.update(before);
    hasher.update(text);
    let digest = hasher.finalize();
    let sum = hex::encode(alloc, digest)?;
    Ok(Text::new(sum))
}

/// The sum at the first line of a register's journal, by the three files that the register is made
/// of and by the journal's id.
#[tactic(auto, unfolding(crate::specs::Sums::first_sum))]
pub fn first_sum(
    alloc: Global,
    sections: &[u8],
    points: &[u8],
    staff: &[u8],
    id: &str,
) -> Result<Text, AllocError>
    ensures { IfOk result (λ sum. sum ≡ first_sum
        (record { sections = sections.now; points = points.now; staff = staff.now }) id.now) }
{
    let staff = sum_line(alloc, staff, id.as_bytes())?;
    let points = sum_line(alloc, points, &staff)?;
    let all = sum_line(alloc, sections, &points)?;
    sum_of(alloc, &[], &all)
}

/// The sum of a text on a line of its own, and more.
fn sum_line(alloc: Global, text: &[u8], more: &[u8]) -> Result<Vec<u8>, AllocError>
    ensures { IfOk result (λ line. line.items ≡ sum_line text.now more.now) }
{
    let sum = sum_of(alloc, &[], text)?;
    let mut line = Vec::from_slice(alloc, sum.as_str().as_bytes())?;
    line.push(b'\n')?;
    line.extend_from_slice(more)?;
    Ok(line)
}
