//! Publishes messages. A publication is prepared first, which finds where the message goes and takes all
//! room, and then made, which takes no memory.

ghost use Rattle.std.specs.Prelude.{◌≡◌, ◌≤◌, ◌<◌, ◌+◌, ℕ, List, [], ◌∷◌, Some, All, map, length, IfOk, IfErr, OnOk};
ghost use Rattle.std.specs.List.{IsDistinct};
ghost use Rattle.jm_base.specs.declared.refusal.Refusal.TheVariants.{Memory};
ghost use Rattle.jm_dest.specs.declared.destination.Destination.TheVariants as destination;
ghost use Rattle.jm_dest.specs.declared.key.Key.TheVariants as key;
ghost use Rattle.jm_dest.specs.Keys.{key_eq};
ghost use Rattle.jm_machine.specs.Machine.{places_end, publisher_of, queued};
ghost use Rattle.jm_stations.specs.Backlogs.{HasMoreRoom, IsPublished};
ghost use Rattle.jm_stations.specs.Stations.{index_in};
ghost use Rattle.jm_sub.specs.Subscriptions.{accepting_places};
ghost use Rattle.jm_parts.specs.State.{keys_of};
ghost use Rattle.jm_queues.specs.Queues.{HaveMoreRoom, IsQueued, published_queues, rows_in, IsReserved};
ghost use Rattle.jm_parts.specs.Publications.{ArePublished, HasRoom, IsReady, IsRouted, queue_indexes, station_indexes};

use jm_base::Refusal;
use jm_dest::Destination;
use jm_header::Message;
use jm_queues::queues::Queues;
use jm_session::Sessions;
use jm_stations::Stations;
use jm_sub::Subs;
use std::alloc::Global;

/// Where a message goes.
#[derive(Drop)]
pub enum Goal {
    /// To the subscriptions that accept it: the indexes of their keys.
    Subscriptions(Vec<usize>),
    /// To its queue: the index of its key.
    Queue(usize),
}

/// A message that is to be published, and where it goes.
#[derive(Drop)]
pub struct Publication {
    pub message: Message,
    pub goal: Goal,
}

/// Where the subscriptions stand that accept the message of its publisher.
fn places_accepting(
    sessions: &Sessions,
    subs: &Subs,
    message: &Message,
) -> Result<Vec<usize>, Refusal>
    ensures ok { IfOk result (λ places.
        places.items ≡ accepting_places (publisher_of sessions.now.life message.now) message.now subs.now.list) }
    ensures err { IfErr result (λ refusal. refusal ≡ Memory) }
{
    let client = sessions.client_of(message.sender().session.connection);
    subs.accepting_places(message, client)
}

/// Finds the subscriptions that accept the message of its publisher, and makes room for that many more messages there: what is
/// held for a subscription stands at the same index.
fn prepare_subscriptions(
    sessions: &Sessions,
    subs: &Subs,
    stations: &mut Stations,
    message: &Message,
    additional: usize,
) -> Result<Vec<usize>, Refusal>
    requires same { keys_of subs.now.list ≡ stations.old.keys }
    requires number { length stations.old.list ≡ length subs.now.list }
    requires once { IsDistinct key_eq stations.old.keys }
    ensures routed { IfOk result (λ is. IsRouted sessions.now.life subs.now.list message.now is.items) }
    ensures reserved { IfOk result (λ is. IsReserved additional stations.new.list is.items) }
    ensures messages { OnOk result (additional ≤ stations.new.message_room) }
    ensures err { IfErr result (λ refusal. refusal ≡ Memory) }
    ensures keys { stations.new.keys ≡ stations.old.keys }
    ensures list { HasMoreRoom stations.old.list stations.new.list }
    ensures next_place { stations.new.next_place ≡ stations.old.next_place }
    ensures room { stations.old.message_room ≤ stations.new.message_room }
{
    let indexes = places_accepting(sessions, subs, message)?;
    stations.reserve(&indexes, additional)?;
    Ok(indexes)
}

/// Finds where the message goes, and makes room for that many more messages there.
fn prepare_goal(
    sessions: &Sessions,
    subs: &Subs,
    stations: &mut Stations,
    queues: &mut Queues,
    message: &Message,
    additional: usize,
) -> Result<Goal, Refusal>
    requires same { keys_of subs.now.list ≡ stations.old.keys }
    requires number { length stations.old.list ≡ length subs.now.list }
    requires once { IsDistinct key_eq stations.old.keys }
    ensures ready { IfOk result (λ goal. IsReady additional sessions.now.life subs.now.list stations.new queues.new
        (record { message = message.now; goal = goal })) }
    ensures err { IfErr result (λ refusal. refusal ≡ Memory) }
    ensures keys { stations.new.keys ≡ stations.old.keys }
    ensures list { HasMoreRoom stations.old.list stations.new.list }
    ensures next_place { stations.new.next_place ≡ stations.old.next_place }
    ensures room { stations.old.message_room ≤ stations.new.message_room }
    ensures queues { HaveMoreRoom queues.old queues.new }
{
    match message.destination() {
        Destination::Queue(name) => Ok(Goal::Queue(queues.reserve(name, additional)?)),
        Destination::Topic(_) => Ok(Goal::Subscriptions(prepare_subscriptions(
            sessions, subs, stations, message, additional,
        )?)),
    }
}

/// Prepares the publication of the message, with room for that many more messages where it goes.
pub fn prepare_publication(
    sessions: &Sessions,
    subs: &Subs,
    stations: &mut Stations,
    queues: &mut Queues,
    message: Message,
    additional: usize,
) -> Result<Publication, Refusal>
    requires same { keys_of subs.now.list ≡ stations.old.keys }
    requires number { length stations.old.list ≡ length subs.now.list }
    requires once { IsDistinct key_eq stations.old.keys }
    ensures message { IfOk result (λ x. x.message ≡ message) }
    ensures ready { IfOk result (λ x. IsReady additional sessions.now.life subs.now.list stations.new queues.new x) }
    ensures err { IfErr result (λ refusal. refusal ≡ Memory) }
    ensures keys { stations.new.keys ≡ stations.old.keys }
    ensures list { HasMoreRoom stations.old.list stations.new.list }
    ensures next_place { stations.new.next_place ≡ stations.old.next_place }
    ensures room { stations.old.message_room ≤ stations.new.message_room }
    ensures queues { HaveMoreRoom queues.old queues.new }
{
    let goal = prepare_goal(sessions, subs, stations, queues, &message, additional)?;
    Ok(Publication { message, goal })
}

/// Prepares the publication of a copy of the message, as `prepare_publication` does.
fn prepare_copy(
    sessions: &Sessions,
    subs: &Subs,
    stations: &mut Stations,
    queues: &mut Queues,
    message: &Message,
    additional: usize,
) -> Result<Publication, Refusal>
    requires same { keys_of subs.now.list ≡ stations.old.keys }
    requires number { length stations.old.list ≡ length subs.now.list }
    requires once { IsDistinct key_eq stations.old.keys }
    ensures message { IfOk result (λ x. x.message ≡ message.now) }
    ensures ready { IfOk result (λ x. IsReady additional sessions.now.life subs.now.list stations.new queues.new x) }
    ensures err { IfErr result (λ refusal. refusal ≡ Memory) }
    ensures keys { stations.new.keys ≡ stations.old.keys }
    ensures list { HasMoreRoom stations.old.list stations.new.list }
    ensures next_place { stations.new.next_place ≡ stations.old.next_place }
    ensures room { stations.old.message_room ≤ stations.new.message_room }
    ensures queues { HaveMoreRoom queues.old queues.new }
{
    let goal = prepare_goal(sessions, subs, stations, queues, message, additional)?;
    Ok(Publication {
        message: message.copy()?,
        goal,
    })
}

/// Finds where copies of the messages go, and makes room for all of them there.
pub fn prepare_publications(
    alloc: Global,
    sessions: &Sessions,
    subs: &Subs,
    stations: &mut Stations,
    queues: &mut Queues,
    messages: &[Message],
) -> Result<Vec<Publication>, Refusal>
    requires same { keys_of subs.now.list ≡ stations.old.keys }
    requires number { length stations.old.list ≡ length subs.now.list }
    requires once { IsDistinct key_eq stations.old.keys }
    ensures messages { IfOk result (λ xs. map (λ x. x.message) xs.items ≡ messages.now) }
    ensures ready { IfOk result (λ xs.
        All (IsReady (length messages.now) sessions.now.life subs.now.list stations.new queues.new) xs.items) }
    ensures err { IfErr result (λ refusal. refusal ≡ Memory) }
    ensures keys { stations.new.keys ≡ stations.old.keys }
    ensures list { HasMoreRoom stations.old.list stations.new.list }
    ensures next_place { stations.new.next_place ≡ stations.old.next_place }
    ensures queues { HaveMoreRoom queues.old queues.new }
{
    let mut publications = Vec::with_capacity(alloc, messages.len())?;
    for message in messages {
        let number = messages.len();
        let publication = prepare_copy(sessions, subs, stations, queues, message, number)?;
        publications.push_reserved(publication);
    }
    Ok(publications)
}

/// A message comes to the queue with that index: it takes the next place.
fn make_queued(stations: &mut Stations, queues: &mut Queues, message: Message, index: usize)
    requires places { stations.old.next_place < places_end }
    requires from { queues.old.next_place ≤ stations.old.next_place }
    requires messages { 0 < queues.old.message_room }
    requires reserved { IsReserved 1 queues.old.list (index ∷ []) }
    ensures skipped { stations.new ≡ record stations.old { next_place = stations.old.next_place + 1 } }
    ensures keys { queues.new.keys ≡ queues.old.keys }
    ensures list { IsPublished (index ∷ []) stations.old.next_place message queues.old.list queues.new.list }
    ensures rows { (name : List ℕ) → index_in queues.old.keys (key.Queue name) ≡ Some index →
        rows_in queues.new ≡ queued (destination.Queue name) message stations.old.next_place (rows_in queues.old) }
    ensures next_place { queues.new.next_place ≡ stations.old.next_place + 1 }
    ensures room { queues.old.message_room ≤ queues.new.message_room + 1 }
{
    let place = stations.next_place();
    queues.publish(message, index, place);
    stations.skip_to(place + 1);
}

/// Publishes a message: it takes the next place.
pub fn make_publication(stations: &mut Stations, queues: &mut Queues, publication: Publication)
    requires places { stations.old.next_place < places_end }
    requires from { queues.old.next_place ≤ stations.old.next_place }
    requires reserved { HasRoom 1 stations.old queues.old publication.goal }
    requires queued { IsQueued queues.old.keys publication.message.destination (queue_indexes publication.goal) }
    ensures keys { stations.new.keys ≡ stations.old.keys }
    ensures list { IsPublished (station_indexes publication.goal) stations.old.next_place publication.message
        stations.old.list stations.new.list }
    ensures next_place { stations.new.next_place ≡ stations.old.next_place + 1 }
    ensures room { stations.old.message_room ≤ stations.new.message_room + 1 }
    ensures queue_keys { queues.new.keys ≡ queues.old.keys }
    ensures queue_list { IsPublished (queue_indexes publication.goal) stations.old.next_place publication.message
        queues.old.list queues.new.list }
    ensures queues { rows_in queues.new ≡
        queued publication.message.destination publication.message stations.old.next_place (rows_in queues.old) }
    ensures queue_place { queues.new.next_place ≤ stations.new.next_place }
    ensures queue_room { queues.old.message_room ≤ queues.new.message_room + 1 }
{
    let Publication { message, goal } = publication;
    match goal {
        Goal::Subscriptions(indexes) => stations.publish(message, &indexes),
        Goal::Queue(index) => make_queued(stations, queues, message, index),
    }
}

/// Publishes the messages in turn, each at a place of its own.
pub fn make_publications(
    stations: &mut Stations,
    queues: &mut Queues,
    publications: Vec<Publication>,
)
    requires places { stations.old.next_place + length publications.items ≤ places_end }
    requires from { queues.old.next_place ≤ stations.old.next_place }
    requires reserved { All (λ (x : Publication).
        HasRoom (length publications.items) stations.old queues.old x.goal) publications.items }
    requires queued { All (λ (x : Publication).
        IsQueued queues.old.keys x.message.destination (queue_indexes x.goal)) publications.items }
    ensures keys { stations.new.keys ≡ stations.old.keys }
    ensures list { ArePublished publications.items stations.old.next_place stations.old.list stations.new.list }
    ensures next_place { stations.new.next_place ≡ stations.old.next_place + length publications.items }
    ensures queues { rows_in queues.new ≡ published_queues stations.old.next_place
        (map (λ (x : Publication). x.message) publications.items) (rows_in queues.old) }
    ensures queue_place { queues.new.next_place ≤ stations.new.next_place }
{
    for publication in publications {
        make_publication(stations, queues, publication);
    }
}
