//! Records by their phases.
ghost use Rattle.std.specs.Prelude.{◌≡◌, IfOk, filter, map};
ghost use Rattle.clr_rules.specs.Records.{is_open, is_standing};

use clr_rules::{Phase, Record};
use std::alloc::{AllocError, Global};

/// Those of the records whose orders are in force.
pub(crate) fn standing_of<'a>(
    alloc: Global,
    records: &[&'a Record],
) -> Result<Vec<&'a Record>, AllocError>
    ensures { IfOk result (λ found. map (λ r. r.now) found.items
        ≡ filter (λ r. is_standing r.phase) (map (λ r. r.now) records.now)) }
{
    let mut found = Vec::new(alloc);
    for record in records {
        if is_standing(record.phase) {
            found.push(*record)?;
        }
    }
    Ok(found)
}

/// Those of the records that are open.
pub(crate) fn open_of<'a>(
    alloc: Global,
    records: &[&'a Record],
) -> Result<Vec<&'a Record>, AllocError>
    ensures { IfOk result (λ found. map (λ r. r.now) found.items
        ≡ filter (λ r. is_open r.phase) (map (λ r. r.now) records.now)) }
{
    let mut found = Vec::new(alloc);
    for record in records {
        if is_open(record.phase) {
            found.push(*record)?;
        }
    }
    Ok(found)
}

fn is_standing(phase: Phase) -> bool
    ensures { result ≡ is_standing phase }
{
    match phase {
        Phase::Ordered | Phase::Granted | Phase::Released | Phase::Restoring => true,
        Phase::Requested | Phase::Switching | Phase::Closed => false,
    }
}

fn is_open(phase: Phase) -> bool
    ensures { result ≡ is_open phase }
{
    !matches!(phase, Phase::Closed)
}
