//! What a delivery hands out, as a copy that is made before it.

ghost use Rattle.std.specs.Prelude.{◌≡◌, ◌<◌, Bool, ℕ, List, length, option_map, IfOk, IfSome};
ghost use Rattle.jm_header.specs.declared.content.Content.{Content};
ghost use Rattle.jm_machine.specs.declared.state.PlacedRow.{PlacedRow};
ghost use Rattle.jm_machine.specs.Machine.{delivery};
ghost use Rattle.jm_stations.specs.Backlogs.{answered_where};
ghost use Rattle.jm_stations.specs.Standing as standing;
ghost use Rattle.jm_queues.specs.Queues.{rows_in};
ghost use Rattle.jm_parts.specs.Takings.{IsPickedAt, IsTakenFrom, IsTold};

use crate::receive::{Receiver, Taking};
use jm_machine::{Answer, Row};
use jm_queues::queues::Queues;
use jm_stations::{Standing, Stations};
use std::alloc::AllocError;

/// What is handed out of a copy of the row, where there is one.
fn copy_handed_out(row: &Option<Standing<'_>>) -> Result<Answer, AllocError>
    ensures { IfOk result (λ answer. answer ≡ delivery (option_map (λ (x : PlacedRow). x.row) (option_map standing.row_of row.now))) }
{
    let Some(row) = row else {
        return Ok(Answer::Nothing);
    };
    let copy = Row {
        message: row.message.copy()?,
        count: row.count,
        state: row.state,
    };
    Ok(copy.hand_out())
}

/// What a delivery that was planned hands out, from a copy of the row that was picked.
pub fn copy_delivery(
    stations: &Stations,
    receiver: &Receiver,
    taking: &Option<Taking>,
) -> Result<Answer, AllocError>
    requires within { IfSome taking.now (λ x. x.index < length stations.now.list) }
    requires picked { IfSome taking.now (IsPickedAt receiver.now stations.now.list) }
    ensures { IfOk result (λ answer. IsTold taking.now receiver.now.moment stations.now.list answer) }
{
    match taking {
        None => Ok(Answer::Nothing),
        Some(taking) => copy_handed_out(&stations.row_picked(taking.index, &taking.picked)),
    }
}

/// The same from a queue.
pub fn copy_delivery_from(
    queues: &Queues,
    receiver: &Receiver,
    taking: &Option<Taking>,
) -> Result<Answer, AllocError>
    requires { (name : List ℕ) × (p : Content → Bool) × IsTakenFrom name p receiver.now queues.now taking.now }
    ensures { (name : List ℕ) (p : Content → Bool) → IsTakenFrom name p receiver.now queues.now taking.now →
        IfOk result (λ answer. answer ≡ answered_where p receiver.now.moment (rows_in queues.now name)) }
{
    match taking {
        None => Ok(Answer::Nothing),
        Some(taking) => copy_handed_out(&queues.row_picked(taking.index, &taking.picked)),
    }
}
