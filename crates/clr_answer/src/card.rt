//! How far the present round of a clearance has come.
ghost use Rattle.std.specs.Prelude.{◌≡◌, true, ◌&&◌, ◌≤◌, ◌<◌, ◌^◌, not, length};
ghost use Rattle.std.specs.List.{count_by};
ghost use Rattle.clr_rules.specs.Steps.{is_done, is_of_round, steps_in};
ghost use Rattle.clr_rules.specs.StepKey.{step_key, step_key_cmp};
ghost use Rattle.clr_shelf.specs.Rows.{in_key_order};
ghost use Rattle.clr_answer.specs.Card.{has_key_of, is_put, progress_of, put_all};

use crate::near::Near;
use clr_rules::{Card, ClearanceId, Record, StepRow};
use clr_shelf::Row;

/// The present round of a clearance, and how many of its steps are done.
#[derive(Clone, Copy)]
pub(crate) struct Progress {
    pub(crate) round: u8,
    pub(crate) done: usize,
    pub(crate) steps: usize,
}

/// How many steps there are, and how many of them are done.
#[derive(Clone, Copy)]
struct Tally {
    done: usize,
    steps: usize,
}

/// Whether one of the rows, which are in key order, has the key of this one.
fn is_put(rows: &[StepRow], row: &StepRow) -> bool
    requires { in_key_order step_key_cmp step_key rows.now ≡ true }
    ensures { result ≡ is_put rows.now row.now }
{
    let key = row.key();
    rows.binary_search_by(|new| new.compare_key(&key)).is_ok()
}

/// The steps of a round that stay where others are put.
fn kept_tally(near: &Near, put: &[StepRow], id: ClearanceId, round: u8) -> Tally
    requires { in_key_order step_key_cmp step_key put.now ≡ true }
    ensures steps { result.steps
        ≡ count_by (λ row. is_of_round id round row
        && not (is_put put.now row)) near.now.rows.steps }
    ensures done { result.done
        ≡ count_by (λ row. (is_of_round id round row && is_done row.step.state)
        && not (is_put put.now row)) near.now.rows.steps }
    ensures fewer { result.done ≤ result.steps }
    ensures few { result.steps < 2 ^ 63 }
{
    let mut tally = Tally { done: 0, steps: 0 };
    for row in &near.steps {
        if row.is_of_round(id, round) && !is_put(put, row) {
            tally.steps += 1;
            if row.is_done() {
                tally.done += 1;
            }
        }
    }
    tally
}

/// The steps of a round among those that are put.
fn added_tally(put: &[StepRow], id: ClearanceId, round: u8) -> Tally
    ensures steps { result.steps ≡ count_by (is_of_round id round) put.now }
    ensures done { result.done
        ≡ count_by (λ row. is_of_round id round row && is_done row.step.state) put.now }
    ensures fewer { result.done ≤ result.steps }
    ensures few { result.steps < 2 ^ 63 }
{
    let mut tally = Tally { done: 0, steps: 0 };
    for row in put {
        if row.is_of_round(id, round) {
            tally.steps += 1;
            if row.is_done() {
                tally.done += 1;
            }
        }
    }
    tally
}

/// The steps of a round once others are put.
fn tally_of(near: &Near, put: &[StepRow], id: ClearanceId, round: u8) -> Tally
    requires { in_key_order step_key_cmp step_key put.now ≡ true }
    ensures steps { result.steps
        ≡ length (steps_in (put_all put.now near.now.rows.steps) id round) }
    ensures done { result.done
        ≡ count_by (λ row. is_done row.step.state)
        (steps_in (put_all put.now near.now.rows.steps) id round) }
{
    let kept = kept_tally(near, put, id, round);
    let added = added_tally(put, id, round);
    Tally {
        done: kept.done + added.done,
        steps: kept.steps + added.steps,
    }
}

/// How far the present round has come once these steps are put.
pub(crate) fn progress_with(near: &Near, put: &[StepRow], id: ClearanceId) -> Progress
    requires { in_key_order step_key_cmp step_key put.now ≡ true }
    ensures { result ≡ progress_of (put_all put.now near.now.rows.steps) id }
{
    let second = tally_of(near, put, id, 2);
    if second.steps > 0 {
        return Progress {
            round: 2,
            done: second.done,
            steps: second.steps,
        };
    }
    let first = tally_of(near, put, id, 1);
    Progress {
        round: if first.steps > 0 { 1 } else { 0 },
        done: first.done,
        steps: first.steps,
    }
}

/// The card of a record, its present round being this far.
pub(crate) fn card_with(clearance: &Record, progress: Progress) -> Card
    ensures { result
        ≡ record {
          clearance = clearance.now.id;
          phase = clearance.now.phase;
          holder = clearance.now.holder;
          round = progress.round;
          done = progress.done;
          steps = progress.steps;
        } }
{
    Card {
        clearance: clearance.id,
        phase: clearance.phase,
        holder: clearance.holder,
        round: progress.round,
        done: progress.done,
        steps: progress.steps,
    }
}
