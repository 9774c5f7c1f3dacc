//! The values of selectors over a message, and the text of JMSMessageID.

use crate::parsed::{Parsed, tree_of};
use crate::told::{holds, is_text};
use jm_base::Refusal;
use jm_dest::{ConnectionId, Destination, Moment, Number, SessionId};
use jm_eval::{
    Value, condition, eval, law_between, law_fits, law_in, law_names, law_negations, selects,
};
use jm_header::{Draft, Message, Sender, stamp};
use std::alloc::{AllocError, Global};

/// A send of a session, all of whose numbers are that one, at 1000 to a topic.
fn sent(alloc: Global, number: u32) -> Result<Message, Refusal> {
    let opening = Number::new(number)?;
    let session = SessionId::new(ConnectionId::new(number)?, number)?;
    let now = Moment::new(1000)?;
    let topic = Destination::topic(alloc, "t")?;
    let sender = Sender { opening, session };
    stamp(Draft::new(alloc), topic, sender, u64::from(number), now)
}

/// The value as it is printed.
fn shown(alloc: Global, value: Value<'_>) -> Result<String, AllocError> {
    match value {
        Value::Unknown => String::from_str(alloc, "unknown"),
        Value::Bool(truth) => format!(in alloc; "{truth}"),
        Value::Number(number) => format!(in alloc; "{number}"),
        Value::Text(text) => format!(in alloc; "text {text}"),
        Value::MessageId(message) => {
            let text = message.message_id();
            let text = text.as_str();
            format!(in alloc; "id {text}")
        }
    }
}

/// The value of the tree over the message, the value as a condition, and whether the message is selected.
fn told_of_tree(alloc: Global, parsed: &Parsed, message: &Message) -> Result<String, AllocError> {
    match &parsed.tree {
        None => Err(AllocError),
        Some(tree) => {
            let value = shown(alloc, eval(tree, message))?;
            let truth = condition(tree, message);
            let is_selected = selects(&parsed.tree, message);
            format!(in alloc; "{value}, {truth:?}, {is_selected}")
        }
    }
}

/// The same of the tree of the text.
fn told_of_text(alloc: Global, text: &str, message: &Message) -> Result<String, AllocError> {
    match tree_of(alloc, text) {
        Ok(parsed) => told_of_tree(alloc, &parsed, message),
        Err(_) => Err(AllocError),
    }
}

/// The same over the message all of whose numbers are that one.
fn told(alloc: Global, number: u32, text: &str) -> Result<String, AllocError> {
    match sent(alloc, number) {
        Ok(message) => told_of_text(alloc, text, &message),
        Err(_) => Err(AllocError),
    }
}

/// Selectors, and what is told of them.
static SELECTORS: [(&str, &str); 9] = [
    ("TRUE", "true, True, true"),
    ("FALSE", "false, False, false"),
    ("x", "unknown, Unknown, false"),
    ("JMSPriority", "4, Unknown, false"),
    ("JMSTimestamp", "1000, Unknown, false"),
    ("JMSDeliveryMode", "text PERSISTENT, Unknown, false"),
    ("JMSMessageID", "id ID:1-1.1.1, Unknown, false"),
    ("JMSMessageID = 'ID:1-1.1.1'", "true, True, true"),
    ("x = 1", "unknown, Unknown, false"),
];

#[test]
fn values_of_selectors(rt: HostRuntime) {
    for (text, wanted) in &SELECTORS {
        is_text(&rt, wanted, told(rt.alloc(), 1, text));
    }
}

/// Numbers of all that a message's JMSMessageID has, and what is told of it.
static IDS: [(u32, &str); 2] = [
    (1, "id ID:1-1.1.1, Unknown, false"),
    (
        4294967295,
        "id ID:4294967295-4294967295.4294967295.4294967295, Unknown, false",
    ),
];

#[test]
fn message_ids(rt: HostRuntime) {
    for (number, wanted) in &IDS {
        is_text(&rt, wanted, told(rt.alloc(), *number, "JMSMessageID"));
    }
}

#[test]
fn laws_are_stated() {
    law_between();
    law_in();
    law_names();
    law_negations();
    law_fits();
}
