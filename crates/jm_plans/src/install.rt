//! Makes changes that were planned. Nothing here takes memory, or fails.

ghost use Rattle.jm_plans.specs.Plans.{InstallFits, IsPlanned};

use crate::plan::Change;
use crate::state::CoreState;
use jm_base::{Boxed, Mode};
use jm_dest::{ClientId, ConnectionId, ConsumerId, Key, SessionId};
use jm_machine::{Answer, Consumers};
use jm_parts::close::{make_acknowledge, make_end, make_give_back, make_settle};
use jm_parts::create::{make_consumer, make_decided, make_delete};
use jm_parts::life::{
    make_close_connection, make_close_consumer, make_close_session, make_open, make_session,
    make_start, make_stop,
};
use jm_parts::listen::{ending_key, make_busy, make_done, make_free, make_listener};
use jm_parts::publish::{Publication, make_publications};
use jm_parts::receive::{Receiver, Taking, make_delivery, make_delivery_from};
use jm_session::Source;
use jm_sub::Decision;

impl CoreState {
    /// Makes a change that was planned on this core as it stands.
    pub fn install(&mut self, change: Change) -> Answer
        requires { IsPlanned self.old change }
        ensures { InstallFits self.old change result self.new }
    {
        match change {
            Change::Open(id, client) => self.install_open(id, client),
            Change::Start(id) => self.install_start(id),
            Change::Stop(id) => self.install_stop(id),
            Change::CloseConnection(id) => self.install_close_connection(id),
            Change::CreateSession(id, mode) => self.install_session(&id, mode),
            Change::CloseSession(id) => self.install_close_session(&id),
            Change::CreateConsumer(session, id, source, decision) => {
                self.install_consumer(&session, id, source, decision)
            }
            Change::Unsubscribe(key) => self.install_unsubscribe(&key),
            Change::CloseConsumer(session, id) => self.install_close_consumer(&session, id),
            Change::Receive(receiver, taking) => self.install_delivery(&receiver, taking),
            Change::ReceiveFrom(receiver, taking) => self.install_delivery_from(&receiver, taking),
            Change::SetListener(session, id, on) => self.install_listener(&session, id, on),
            Change::Take(receiver, taking) => self.install_take(&receiver, taking),
            Change::TakeFrom(receiver, taking) => self.install_take_from(&receiver, taking),
            Change::Nothing => self.install_nothing(),
            Change::Done(session, id, mode, ok) => self.install_done(&session, id, mode, ok),
            Change::Acknowledge(id, mode) => self.install_acknowledge(&id, mode),
            Change::Recover(id) => self.install_recover(&id),
            Change::Rollback(id) => self.install_rollback(&id),
            Change::Missed(number) => self.install_missed(number),
            Change::Publish(publications) => self.install_publications(publications),
            Change::Commit(id, sent) => self.install_commit(&id, sent),
        }
    }

    fn install_open(&mut self, id: ConnectionId, client: Option<ClientId>) -> Answer
        requires { IsPlanned self.old (Change.Open id client) }
        ensures { InstallFits self.old (Change.Open id client) result self.new }
    {
        make_open(&mut self.sessions, id, client);
        Answer::Done
    }

    fn install_start(&mut self, id: ConnectionId) -> Answer
        requires { IsPlanned self.old (Change.Start id) }
        ensures { InstallFits self.old (Change.Start id) result self.new }
    {
        make_start(&mut self.sessions, id);
        Answer::Done
    }

    fn install_stop(&mut self, id: ConnectionId) -> Answer
        requires { IsPlanned self.old (Change.Stop id) }
        ensures { InstallFits self.old (Change.Stop id) result self.new }
    {
        make_stop(&mut self.sessions, id);
        Answer::Done
    }

    fn install_close_connection(&mut self, id: ConnectionId) -> Answer
        requires { IsPlanned self.old (Change.CloseConnection id) }
        ensures { InstallFits self.old (Change.CloseConnection id) result self.new }
    {
        make_close_connection(&mut self.sessions, id);
        let which = Consumers::OfConnection(id);
        make_give_back(&mut self.stations, &mut self.queues, &which);
        let attached = self.sessions.attached();
        make_end(&mut self.subs, &mut self.stations, &which, attached);
        Answer::Done
    }

    fn install_session(&mut self, id: &SessionId, mode: Mode) -> Answer
        requires { IsPlanned self.old (Change.CreateSession id.now mode) }
        ensures { InstallFits self.old (Change.CreateSession id.now mode) result self.new }
    {
        make_session(&mut self.sessions, id, mode);
        Answer::Done
    }

    fn install_close_session(&mut self, id: &SessionId) -> Answer
        requires { IsPlanned self.old (Change.CloseSession id.now) }
        ensures { InstallFits self.old (Change.CloseSession id.now) result self.new }
    {
        make_close_session(&mut self.sessions, id);
        let which = Consumers::OfSession(*id);
        make_give_back(&mut self.stations, &mut self.queues, &which);
        let attached = self.sessions.attached();
        make_end(&mut self.subs, &mut self.stations, &which, attached);
        Answer::Done
    }

    /// Makes the consumer, after the subscription that was decided, where one was.
    fn install_consumer(
        &mut self,
        session: &SessionId,
        id: ConsumerId,
        source: Boxed<Source>,
        decision: Option<Boxed<(Key, Decision)>>,
    ) -> Answer
        requires { IsPlanned self.old (Change.CreateConsumer session.now id source decision) }
        ensures { InstallFits self.old (Change.CreateConsumer session.now id source decision) result self.new }
    {
        make_decided(&mut self.subs, &mut self.stations, decision, self.limit);
        make_consumer(&mut self.sessions, session, id, source);
        Answer::Done
    }

    fn install_unsubscribe(&mut self, key: &Key) -> Answer
        requires { IsPlanned self.old (Change.Unsubscribe key.now) }
        ensures { InstallFits self.old (Change.Unsubscribe key.now) result self.new }
    {
        make_delete(&mut self.subs, &mut self.stations, key);
        Answer::Done
    }

    fn install_close_consumer(&mut self, session: &SessionId, id: ConsumerId) -> Answer
        requires { IsPlanned self.old (Change.CloseConsumer session.now id) }
        ensures { InstallFits self.old (Change.CloseConsumer session.now id) result self.new }
    {
        make_close_consumer(&mut self.sessions, session, id);
        let which = Consumers::One(*session, id);
        let attached = self.sessions.attached();
        make_end(&mut self.subs, &mut self.stations, &which, attached);
        Answer::Done
    }

    fn install_delivery(&mut self, receiver: &Receiver, taking: Option<Taking>) -> Answer
        requires { IsPlanned self.old (Change.Receive receiver.now taking) }
        ensures { InstallFits self.old (Change.Receive receiver.now taking) result self.new }
    {
        make_delivery(&mut self.stations, receiver, taking)
    }

    /// Delivers what was picked from the queue.
    fn install_delivery_from(&mut self, receiver: &Receiver, taking: Option<Taking>) -> Answer
        requires { IsPlanned self.old (Change.ReceiveFrom receiver.now taking) }
        ensures { InstallFits self.old (Change.ReceiveFrom receiver.now taking) result self.new }
    {
        make_delivery_from(&mut self.queues, receiver, taking)
    }

    fn install_listener(&mut self, session: &SessionId, id: ConsumerId, on: bool) -> Answer
        requires { IsPlanned self.old (Change.SetListener session.now id on) }
        ensures { InstallFits self.old (Change.SetListener session.now id on) result self.new }
    {
        make_listener(&mut self.sessions, session, id, on);
        Answer::Done
    }

    fn install_take(&mut self, receiver: &Receiver, taking: Option<Taking>) -> Answer
        requires { IsPlanned self.old (Change.Take receiver.now taking) }
        ensures { InstallFits self.old (Change.Take receiver.now taking) result self.new }
    {
        let answer = make_delivery(&mut self.stations, receiver, taking);
        make_busy(
            &mut self.sessions,
            &receiver.session,
            receiver.consumer,
            &answer,
        );
        answer
    }

    /// Takes what was picked from the queue.
    fn install_take_from(&mut self, receiver: &Receiver, taking: Option<Taking>) -> Answer
        requires { IsPlanned self.old (Change.TakeFrom receiver.now taking) }
        ensures { InstallFits self.old (Change.TakeFrom receiver.now taking) result self.new }
    {
        let answer = make_delivery_from(&mut self.queues, receiver, taking);
        make_busy(
            &mut self.sessions,
            &receiver.session,
            receiver.consumer,
            &answer,
        );
        answer
    }

    fn install_nothing(&self) -> Answer
        requires { IsPlanned self.now Change.Nothing }
        ensures { InstallFits self.now Change.Nothing result self.now }
    {
        Answer::Nothing
    }

    /// Settles what is out through the consumer, or gives it back, where the mode settles a message in the step that
    /// delivers it. The consumer is not busy any more.
    fn install_done(&mut self, session: &SessionId, id: ConsumerId, mode: Mode, ok: bool) -> Answer
        requires { IsPlanned self.old (Change.Done session.now id mode ok) }
        ensures { InstallFits self.old (Change.Done session.now id mode ok) result self.new }
    {
        let receiver = Consumers::One(*session, id);
        let key = ending_key(&self.sessions, session, id, mode);
        make_done(&mut self.stations, &mut self.queues, key, &receiver, ok);
        make_free(&mut self.sessions, session, id);
        Answer::Done
    }

    /// Settles what is out to the session, where its mode lets the client acknowledge.
    fn install_acknowledge(&mut self, id: &SessionId, mode: Mode) -> Answer
        requires { IsPlanned self.old (Change.Acknowledge id.now mode) }
        ensures { InstallFits self.old (Change.Acknowledge id.now mode) result self.new }
    {
        make_acknowledge(&mut self.stations, &mut self.queues, id, mode);
        Answer::Done
    }

    fn install_recover(&mut self, id: &SessionId) -> Answer
        requires { IsPlanned self.old (Change.Recover id.now) }
        ensures { InstallFits self.old (Change.Recover id.now) result self.new }
    {
        let receivers = Consumers::OfSession(*id);
        make_give_back(&mut self.stations, &mut self.queues, &receivers);
        Answer::Done
    }

    fn install_rollback(&mut self, id: &SessionId) -> Answer
        requires { IsPlanned self.old (Change.Rollback id.now) }
        ensures { InstallFits self.old (Change.Rollback id.now) result self.new }
    {
        let consumers = Consumers::OfSession(*id);
        make_give_back(&mut self.stations, &mut self.queues, &consumers);
        Answer::Done
    }

    fn install_missed(&self, number: u64) -> Answer
        requires { IsPlanned self.now (Change.Missed number) }
        ensures { InstallFits self.now (Change.Missed number) result self.now }
    {
        Answer::Missed(number)
    }

    fn install_publications(&mut self, publications: Vec<Publication>) -> Answer
        requires { IsPlanned self.old (Change.Publish publications) }
        ensures { InstallFits self.old (Change.Publish publications) result self.new }
    {
        make_publications(&mut self.stations, &mut self.queues, publications);
        Answer::Done
    }

    /// Settles all that is out to the session, and then publishes what it sent.
    fn install_commit(&mut self, id: &SessionId, sent: Vec<Publication>) -> Answer
        requires { IsPlanned self.old (Change.Commit id.now sent) }
        ensures { InstallFits self.old (Change.Commit id.now sent) result self.new }
    {
        make_settle(&mut self.stations, &mut self.queues, id);
        make_publications(&mut self.stations, &mut self.queues, sent);
        Answer::Done
    }
}
