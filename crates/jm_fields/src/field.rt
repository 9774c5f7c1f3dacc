ghost use Rattle.std.specs.Prelude.{◌≡◌, ◌≢◌, ◌⊎◌, true, false, IfNone, OnSome};
ghost use Rattle.serde_json.specs.View.{view, members_view};
ghost use Rattle.jm_fields.specs.Fields as spec;

use crate::misfit::Misfit;
use jm_base::Str;
use serde_json::{Map, Value};
use std::alloc::Global;
use std::fmt;

/// A field of a scenario, or of one of its calls.
#[derive(Clone, Copy, Debug, PartialEq, Eq)]
pub enum Field {
    /// The calls of the scenario, in order, with its forks and joins.
    Calls,
    /// How many rows a subscription that is not durable may hold.
    Held,
    /// Which call it is, or that it is a fork or a join.
    Operation,
    /// The number of the connection that is opened, started, stopped or closed.
    Connection,
    /// The client identifier of a connection that is opened.
    Client,
    /// The session of the call: the number of its connection, and its own.
    Session,
    /// The mode of a new session: how it acknowledges, or that it is transacted.
    Mode,
    /// The number of the consumer within its session.
    Consumer,
    /// The name of the queue that a consumer receives from, or that a message is sent to. A fault names it, too, where a
    /// call has both a queue and a topic, or neither.
    Queue,
    /// The name of the topic that a consumer listens to, or that a message is sent to.
    Topic,
    /// The name of a durable or shared subscription.
    Name,
    /// The text of the selector of a new consumer.
    Selector,
    /// Whether a new consumer gets nothing that its own connection publishes; of a durable subscription, nothing that
    /// connections with its client identifier publish.
    NoLocal,
    /// Whether the consumer listens from then on.
    Listening,
    /// The moment of a send, of a receive or of a take.
    Now,
    /// Whether what a listener is done with is settled, and not given back.
    Settled,
    /// JMSPriority, from 0 to 9.
    Priority,
    /// Whether the delivery mode is PERSISTENT.
    Persistent,
    /// The time to live in milliseconds, where 0 means that the message does not expire.
    TimeToLive,
    /// The delivery delay in milliseconds, for which the message is held back.
    DeliveryDelay,
    /// JMSCorrelationID.
    Correlation,
    /// JMSType.
    Type,
    /// The properties, each with its name, its type and its value.
    Properties,
    /// The text of a text body.
    Text,
    /// The bytes of a bytes body, in hexadecimal digits.
    Bytes,
}

/// The name of a field that a fault names.
#[derive(Debug, PartialEq, Drop)]
pub enum FieldName {
    Known(Field),
    /// A field that is not known where it stands.
    Unknown(Str),
}

/// What has fields: a scenario, or a call by its operation, or a fork or a join.
#[derive(Clone, Copy, Debug, PartialEq, Eq)]
pub enum Owner {
    Scenario,
    Open,
    Start,
    Stop,
    CloseConnection,
    Session,
    CloseSession,
    Acknowledge,
    Recover,
    Commit,
    Rollback,
    Consumer,
    Durable,
    Shared,
    SharedDurable,
    CloseConsumer,
    Missed,
    Unsubscribe,
    Listener,
    Send,
    Receive,
    Take,
    Done,
    ForkOrJoin,
}

impl Field {
    /// The name of the field as it is written in a scenario.
    pub fn name(self) -> &'static str
        ensures { result.now ≡ spec.field_name self }
    {
        match self {
            Field::Calls => "calls",
            Field::Held => "held",
            Field::Operation => "op",
            Field::Connection => "c",
            Field::Client => "client",
            Field::Session => "s",
            Field::Mode => "mode",
            Field::Consumer => "k",
            Field::Queue => "queue",
            Field::Topic => "topic",
            Field::Name => "name",
            Field::Selector => "selector",
            Field::NoLocal => "noLocal",
            Field::Listening => "on",
            Field::Now => "now",
            Field::Settled => "ok",
            Field::Priority => "priority",
            Field::Persistent => "persistent",
            Field::TimeToLive => "ttl",
            Field::DeliveryDelay => "delay",
            Field::Correlation => "correlation",
            Field::Type => "type",
            Field::Properties => "props",
            Field::Text => "text",
            Field::Bytes => "bytes",
        }
    }
}

impl fmt::Display for FieldName {
    ghost use Rattle.std.specs.Prelude.{Some};
    ghost use Rattle.jm_fields.specs.Fields.{told_name};

    ghost output = { λ name. Some (told_name name) };

    /// The name.
    fn fmt<W: fmt::Write>(&self, f: &mut fmt::Formatter<W>) -> fmt::Result {
        match self {
            FieldName::Known(field) => f.write_str(field.name()),
            FieldName::Unknown(name) => f.write_str(name.as_str()),
        }
    }
}

/// Whether a draft has a field of that name.
fn is_draft_field(name: &str) -> bool
    ensures { result ≡ spec.is_draft_field name.now }
{
    matches!(
        name,
        "priority" | "persistent" | "ttl" | "delay" | "correlation"
    ) || matches!(name, "type" | "props" | "text" | "bytes")
}

impl Owner {
    /// The call of that operation, or none where no call has that name.
    pub fn of_operation(name: &str) -> Option<Owner>
        ensures { result ≡ spec.operation_named name.now }
    {
        match name {
            "open" => Some(Owner::Open),
            "start" => Some(Owner::Start),
            "stop" => Some(Owner::Stop),
            "close-connection" => Some(Owner::CloseConnection),
            "session" => Some(Owner::Session),
            "close-session" => Some(Owner::CloseSession),
            "acknowledge" => Some(Owner::Acknowledge),
            "recover" => Some(Owner::Recover),
            "commit" => Some(Owner::Commit),
            "rollback" => Some(Owner::Rollback),
            "consumer" => Some(Owner::Consumer),
            "durable" => Some(Owner::Durable),
            "shared" => Some(Owner::Shared),
            "shared-durable" => Some(Owner::SharedDurable),
            "close-consumer" => Some(Owner::CloseConsumer),
            "missed" => Some(Owner::Missed),
            "unsubscribe" => Some(Owner::Unsubscribe),
            "listener" => Some(Owner::Listener),
            "send" => Some(Owner::Send),
            "receive" => Some(Owner::Receive),
            "take" => Some(Owner::Take),
            "done" => Some(Owner::Done),
            _ => None,
        }
    }

    /// Whether a call of that operation has its place where a fork is open, or where none is: where one is open, those have
    /// that have a session.
    pub fn is_in_place(self, is_forked: bool) -> bool
        ensures { result ≡ spec.is_operation_in_place is_forked self }
    {
        !is_forked || self.has(Field::Session.name())
    }

    /// Whether it has a field of that name.
    fn has(self, name: &str) -> bool
        ensures { result ≡ spec.has self name.now }
    {
        match self {
            Owner::Scenario => matches!(name, "calls" | "held"),
            Owner::Open => matches!(name, "op" | "c" | "client"),
            Owner::Start | Owner::Stop | Owner::CloseConnection => matches!(name, "op" | "c"),
            Owner::Session => matches!(name, "op" | "s" | "mode"),
            Owner::CloseSession
            | Owner::Acknowledge
            | Owner::Recover
            | Owner::Commit
            | Owner::Rollback => matches!(name, "op" | "s"),
            Owner::Consumer => {
                matches!(
                    name,
                    "op" | "s" | "k" | "queue" | "topic" | "selector" | "noLocal"
                )
            }
            Owner::Durable => {
                matches!(name, "op" | "s" | "k" | "queue")
                    || matches!(name, "topic" | "name" | "selector" | "noLocal")
            }
            Owner::Shared | Owner::SharedDurable => {
                matches!(name, "op" | "s" | "k" | "queue")
                    || matches!(name, "topic" | "name" | "selector")
            }
            Owner::CloseConsumer | Owner::Missed => matches!(name, "op" | "s" | "k"),
            Owner::Unsubscribe => matches!(name, "op" | "s" | "name"),
            Owner::Listener => matches!(name, "op" | "s" | "k" | "on"),
            Owner::Send => {
                matches!(name, "op" | "s" | "queue" | "topic" | "now") || is_draft_field(name)
            }
            Owner::Receive | Owner::Take => matches!(name, "op" | "s" | "k" | "now"),
            Owner::Done => matches!(name, "op" | "s" | "k" | "ok"),
            Owner::ForkOrJoin => matches!(name, "op"),
        }
    }
}

/// The first member, in the order of bytes, whose name its owner does not have.
fn unknown_member(members: &Map<String, Value>, owner: Owner) -> Option<&str>
    ensures none { IfNone result (spec.has_each owner (members_view members.now.entries) ≡ true) }
    ensures some { OnSome result (spec.has_each owner (members_view members.now.entries) ≡ false) }
{
    for (name, _) in members.iter() {
        if !owner.has(name.as_str()) {
            return Some(name.as_str());
        }
    }
    None
}

/// The first field of the object, in the order of bytes, that its owner does not have; or none.
pub fn unknown(object: &Value, owner: Owner) -> Option<&str>
    ensures none { IfNone result (spec.is_known owner (view object.now) ≡ true) }
    ensures some { OnSome result (spec.is_known owner (view object.now) ≡ false) }
{
    match object.as_object() {
        Some(members) => unknown_member(members, owner),
        None => None,
    }
}

/// The misfit of a field that is not known. `Memory` where its name cannot be kept.
pub fn not_known(alloc: Global, name: &str) -> Misfit
    ensures { (result ≡ Misfit.Memory) ⊎ (result ≡ Misfit.Unknown name.now) }
{
    match String::from_str(alloc, name) {
        Ok(name) => Misfit::Unknown(Str::new(name)),
        Err(_) => Misfit::Memory,
    }
}
