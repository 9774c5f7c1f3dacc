//! The accounts of the queue and of all subscriptions, kept by the events of the trace.

use crate::account::{Account, Counts, NONE, name_of, sum};
use crate::worker::is_picky;
use jm_base::Refusal;
use jm_core::{Answer, Call, Core, Request, Who};
use jm_dest::{ConsumerId, Destination, Key, Moment, Name, SessionId, SubscriptionName};
use jm_header::Message;
use jm_machine::Event;
use std::alloc::{AllocError, Global};
use tests_calls::session_of;

/// A thread's client: the account of its own subscription, and the names of what is out to its transacted session, from the
/// queue, and to the one that acknowledges, from the shared subscription.
#[derive(Drop)]
struct Client {
    own: Account,
    kept: Vec<u64>,
    lent: Vec<u64>,
}

/// All accounts.
#[derive(Drop)]
pub(crate) struct Book {
    heap: Global,
    clients: Vec<Client>,
    queue: Account,
    shared: Account,
    faults: u64,
}

fn clients(heap: Global, threads: u32) -> Result<Vec<Client>, AllocError> {
    let mut clients = Vec::new(heap);
    for _ in 0..threads {
        clients.push(Client {
            own: Account::new(heap),
            kept: Vec::new(heap),
            lent: Vec::new(heap),
        })?;
    }
    Ok(clients)
}

/// The place of the session's client.
fn place_of(session: &SessionId) -> usize {
    session.connection.get().saturating_sub(1) as usize
}

fn has_x(message: &Message) -> bool {
    matches!(message.properties().get_long("x"), Ok(1))
}

fn own_key(connection: u32) -> Result<Key, Refusal> {
    Ok(Key::Own(session_of((connection, 1))?, ConsumerId::new(1)?))
}

fn shared_key(heap: Global) -> Result<Key, Refusal> {
    Ok(Key::SharedOwn(None, SubscriptionName::new(heap, "g")?))
}

/// Closes the account of a subscription by what the core holds; whether it is there.
fn is_closed(heap: Global, account: &mut Account, core: &Core, key: &Key) -> bool {
    match core.station(key) {
        Ok(Some(station)) => {
            account.close(heap, station.rows.as_slice(), station.missed);
            true
        }
        _ => false,
    }
}

fn is_own_closed(heap: Global, account: &mut Account, core: &Core, connection: u32) -> bool {
    match own_key(connection) {
        Ok(key) => is_closed(heap, account, core, &key),
        Err(_) => false,
    }
}

fn is_shared_closed(heap: Global, account: &mut Account, core: &Core) -> bool {
    match shared_key(heap) {
        Ok(key) => is_closed(heap, account, core, &key),
        Err(_) => false,
    }
}

fn is_named_closed(heap: Global, account: &mut Account, core: &Core, name: &Name) -> bool {
    match core.queue_rows(name) {
        Ok(rows) => {
            account.close(heap, rows.as_slice(), 0);
            true
        }
        Err(_) => false,
    }
}

fn is_queue_closed(heap: Global, account: &mut Account, core: &Core) -> bool {
    match Name::new(heap, "q") {
        Ok(name) => is_named_closed(heap, account, core, &name),
        Err(_) => false,
    }
}

impl Book {
    /// The accounts of so many threads' clients.
    pub(crate) fn new(heap: Global, threads: u32) -> Result<Book, AllocError> {
        Ok(Book {
            heap,
            clients: clients(heap, threads)?,
            queue: Account::new(heap),
            shared: Account::new(heap),
            faults: 0,
        })
    }

    fn note_done(&mut self, is_done: bool) {
        if !is_done {
            self.faults = self.faults.saturating_add(1);
        }
    }

    /// The message comes to all own subscriptions that select it.
    fn come_to_own(&mut self, message: &Message) {
        let has_x = has_x(message);
        let mut connection = 0u32;
        for client in self.clients.iter_mut() {
            connection = connection.saturating_add(1);
            if has_x || !is_picky(connection) {
                client.own.come(message);
            }
        }
    }

    fn publish(&mut self, message: &Message) {
        match message.destination() {
            Destination::Queue(_) => self.queue.come(message),
            Destination::Topic(_) => {
                self.shared.come(message);
                self.come_to_own(message);
            }
        }
    }

    fn publish_all(&mut self, messages: &[Message]) {
        for message in messages {
            self.publish(message);
        }
    }

    /// What is out to the client's transacted session is settled.
    fn settle_kept(&mut self, place: usize) {
        let Book { clients, queue, .. } = self;
        if place < clients.len() {
            queue.settle_all(clients[place].kept.as_slice());
            clients[place].kept.clear();
        }
    }

    /// What is out to the client's session that acknowledges is settled.
    fn settle_lent(&mut self, place: usize) {
        let Book {
            clients,
            shared,
            ..
        } = self;
        if place < clients.len() {
            shared.settle_all(clients[place].lent.as_slice());
            clients[place].lent.clear();
        }
    }

    fn give_kept_back(&mut self, place: usize) {
        if place < self.clients.len() {
            self.clients[place].kept.clear();
        }
    }

    fn give_lent_back(&mut self, place: usize) {
        if place < self.clients.len() {
            self.clients[place].lent.clear();
        }
    }

    /// The consumer of the client's session with these numbers was given the message of that name.
    fn deliver(&mut self, place: usize, session: u32, consumer: u32, name: u64) {
        if place >= self.clients.len() {
            return self.note_done(false);
        }
        match (session, consumer) {
            (1, 1) => self.clients[place].own.settle(name),
            (1, _) => self.queue.settle(name),
            (2, _) => {
                let is_noted = self.clients[place].kept.push(name).is_ok();
                self.note_done(is_noted);
            }
            _ => {
                let is_noted = self.clients[place].lent.push(name).is_ok();
                self.note_done(is_noted);
            }
        }
    }

    /// The consumer of that session received at that moment, and was answered so.
    fn receive(&mut self, session: &SessionId, consumer: ConsumerId, now: Moment, answer: &Answer) {
        let number = session.number.get();
        let consumer = consumer.get();
        if number == 2 || consumer == 2 {
            self.queue.receive(now.get());
        }
        if let Answer::Delivered(delivery) = answer {
            let name = name_of(&delivery.message);
            self.deliver(place_of(session), number, consumer, name);
        }
    }

    fn answer(&mut self, session: &SessionId, request: &Request, answer: &Answer) {
        match request {
            Request::Receive { consumer, now } => self.receive(session, *consumer, *now, answer),
            Request::Acknowledge => self.settle_lent(place_of(session)),
            Request::Recover => self.give_lent_back(place_of(session)),
            Request::Rollback => self.give_kept_back(place_of(session)),
            _ => {}
        }
    }

    fn note(&mut self, event: &Event) {
        match (&event.step.who, &event.step.call, &event.reply) {
            (Who::Session(session), Call::Ask(request), Ok(answer)) => {
                self.answer(session, request, answer)
            }
            (Who::Session(_), Call::Publish(messages), Ok(_)) => {
                self.publish_all(messages.as_slice())
            }
            (Who::Session(session), Call::Commit(messages), Ok(_)) => {
                self.settle_kept(place_of(session));
                self.publish_all(messages.as_slice());
            }
            _ => {}
        }
    }

    /// The events came next.
    pub(crate) fn note_all(&mut self, events: &[Event]) {
        for event in events {
            self.note(event);
        }
    }

    fn close_own(&mut self, core: &Core) {
        let heap = self.heap;
        let mut connection = 0u32;
        let mut are_closed = true;
        for client in self.clients.iter_mut() {
            connection = connection.saturating_add(1);
            are_closed = are_closed && is_own_closed(heap, &mut client.own, core, connection);
        }
        self.note_done(are_closed);
    }

    /// The accounts are closed by what the core holds after all events.
    pub(crate) fn close(&mut self, core: &Core) {
        self.close_own(core);
        let is_closed = is_shared_closed(self.heap, &mut self.shared, core);
        self.note_done(is_closed);
        let is_closed = is_queue_closed(self.heap, &mut self.queue, core);
        self.note_done(is_closed);
    }

    fn own_counts(&self) -> Counts {
        let mut counts = NONE;
        for client in &self.clients {
            counts = sum(counts, client.own.became());
        }
        counts
    }

    /// What became of the messages.
    pub(crate) fn became(&self) -> [(&'static str, Counts); 3] {
        [
            ("own subscriptions", self.own_counts()),
            ("shared subscription", self.shared.became()),
            ("queue", self.queue.became()),
        ]
    }

    fn own_faults(&self) -> u64 {
        let mut faults = 0u64;
        for client in &self.clients {
            faults = faults.saturating_add(client.own.faults());
        }
        faults
    }

    /// How many faults were found.
    pub(crate) fn faults(&self) -> u64 {
        self.faults
            .saturating_add(self.own_faults())
            .saturating_add(self.shared.faults())
            .saturating_add(self.queue.faults())
    }
}
