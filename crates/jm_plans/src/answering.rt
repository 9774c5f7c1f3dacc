//! What a plan will answer, as a copy that is made before it is installed.

ghost use Rattle.std.specs.Prelude.{◌<◌, Some, IfOk};
ghost use Rattle.jm_plans.specs.Plans.{IsAnswer, IsPlanned};

use crate::plan::Change;
use crate::state::CoreState;
use jm_machine::Answer;
use jm_parts::answering::{copy_delivery, copy_delivery_from};
use jm_parts::receive::{Receiver, Taking};
use std::alloc::AllocError;

impl CoreState {
    fn copy_received(
        &self,
        receiver: &Receiver,
        taking: &Option<Taking>,
    ) -> Result<Answer, AllocError>
        requires { IsPlanned self.now (Change.Receive receiver.now taking.now) }
        ensures { IfOk result (λ answer. IsAnswer self.now (Change.Receive receiver.now taking.now) answer) }
    {
        copy_delivery(&self.stations, receiver, taking)
    }

    fn copy_received_from(
        &self,
        receiver: &Receiver,
        taking: &Option<Taking>,
    ) -> Result<Answer, AllocError>
        requires { IsPlanned self.now (Change.ReceiveFrom receiver.now taking.now) }
        ensures { IfOk result (λ answer. IsAnswer self.now (Change.ReceiveFrom receiver.now taking.now) answer) }
    {
        copy_delivery_from(&self.queues, receiver, taking)
    }

    fn copy_taken(&self, receiver: &Receiver, taking: &Option<Taking>) -> Result<Answer, AllocError>
        requires { IsPlanned self.now (Change.Take receiver.now taking.now) }
        ensures { IfOk result (λ answer. IsAnswer self.now (Change.Take receiver.now taking.now) answer) }
    {
        copy_delivery(&self.stations, receiver, taking)
    }

    fn copy_taken_from(
        &self,
        receiver: &Receiver,
        taking: &Option<Taking>,
    ) -> Result<Answer, AllocError>
        requires { IsPlanned self.now (Change.TakeFrom receiver.now taking.now) }
        ensures { IfOk result (λ answer. IsAnswer self.now (Change.TakeFrom receiver.now taking.now) answer) }
    {
        copy_delivery_from(&self.queues, receiver, taking)
    }

    /// A copy of the answer to the change that was planned.
    pub fn copy_answer(&self, change: &Change) -> Result<Answer, AllocError>
        requires { IsPlanned self.now change.now }
        ensures { IfOk result (λ answer. IsAnswer self.now change.now answer) }
    {
        match change {
            Change::Receive(receiver, taking) => self.copy_received(receiver, taking),
            Change::ReceiveFrom(receiver, taking) => self.copy_received_from(receiver, taking),
            Change::Take(receiver, taking) => self.copy_taken(receiver, taking),
            Change::TakeFrom(receiver, taking) => self.copy_taken_from(receiver, taking),
            Change::Nothing => Ok(Answer::Nothing),
            Change::Missed(number) => Ok(Answer::Missed(*number)),
            Change::Open(_, _)
            | Change::Start(_)
            | Change::Stop(_)
            | Change::CloseConnection(_)
            | Change::CreateSession(_, _)
            | Change::CloseSession(_)
            | Change::CreateConsumer(_, _, _, _)
            | Change::Unsubscribe(_)
            | Change::CloseConsumer(_, _)
            | Change::SetListener(_, _, _)
            | Change::Done(_, _, _, _)
            | Change::Acknowledge(_, _)
            | Change::Recover(_)
            | Change::Rollback(_)
            | Change::Publish(_)
            | Change::Commit(_, _) => Ok(Answer::Done),
        }
    }
}
