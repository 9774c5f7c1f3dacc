//! IN and LIKE over a property, and sets of many texts.

use crate::parsed::{Parsed, tree_of};
use crate::told::holds;
use jm_base::{List, Refusal, Str};
use jm_dest::{ConnectionId, Destination, Moment, Number, SessionId};
use jm_eval::{Truth, condition};
use jm_header::{Draft, Message, Sender, stamp};
use jm_property::Property;
use jm_shared::SharedStr;
use jm_syntax::{Identifier, Texts, Tree};
use std::alloc::{AllocError, Global};

/// The property x of a message.
#[derive(Clone, Copy)]
enum Given {
    Nothing,
    Text(&'static str),
    Long(i64),
}

/// A draft with that property.
fn draft(alloc: Global, given: Given) -> Option<Draft> {
    let mut draft = Draft::new(alloc);
    let set = match given {
        Given::Nothing => Ok(()),
        Given::Text(text) => match SharedStr::from_str(alloc, text) {
            Ok(text) => draft.set_property("x", Property::Text(text)),
            Err(_) => return None,
        },
        Given::Long(number) => draft.set_property("x", Property::Long(number)),
    };
    match set {
        Ok(()) => Some(draft),
        Err(_) => None,
    }
}

/// A send of that draft.
fn sent(alloc: Global, draft: Draft) -> Result<Message, Refusal> {
    let one = Number::new(1)?;
    let session = SessionId::new(ConnectionId::new(1)?, 1)?;
    let now = Moment::new(1000)?;
    let topic = Destination::topic(alloc, "t")?;
    let sender = Sender {
        opening: one,
        session,
    };
    stamp(draft, topic, sender, 1, now)
}

fn truth_of_tree(parsed: &Parsed, message: &Message) -> Option<Truth> {
    match &parsed.tree {
        None => None,
        Some(tree) => Some(condition(tree, message)),
    }
}

fn truth_of_text(alloc: Global, text: &str, message: &Message) -> Option<Truth> {
    match tree_of(alloc, text) {
        Ok(parsed) => truth_of_tree(&parsed, message),
        Err(_) => None,
    }
}

fn truth_of_draft(alloc: Global, text: &str, draft: Draft) -> Option<Truth> {
    match sent(alloc, draft) {
        Ok(message) => truth_of_text(alloc, text, &message),
        Err(_) => None,
    }
}

/// What the selector is over a message with that property.
fn truth(alloc: Global, text: &str, given: Given) -> Option<Truth> {
    match draft(alloc, given) {
        Some(draft) => truth_of_draft(alloc, text, draft),
        None => None,
    }
}

/// Selectors, the property x, and what the selector is.
static ROWS: [(&str, Given, Truth); 21] = [
    ("x IN ('a','a','b')", Given::Text("a"), Truth::True),
    ("x IN ('a','a','b')", Given::Text("b"), Truth::True),
    ("x IN ('a','a','b')", Given::Text("c"), Truth::False),
    ("x IN ('a','a','b')", Given::Nothing, Truth::Unknown),
    ("x IN ('a','a','b')", Given::Long(1), Truth::False),
    ("x NOT IN ('b','a')", Given::Text("a"), Truth::False),
    ("x NOT IN ('b','a')", Given::Text("c"), Truth::True),
    (
        "x LIKE '\\_%' ESCAPE '\\'",
        Given::Text("_abc"),
        Truth::True,
    ),
    (
        "x LIKE '\\_%' ESCAPE '\\'",
        Given::Text("abc"),
        Truth::False,
    ),
    ("x LIKE 'a\\' ESCAPE '\\'", Given::Text("a\\"), Truth::True),
    ("x LIKE '%'", Given::Text(""), Truth::True),
    ("x LIKE '_'", Given::Text(""), Truth::False),
    ("x LIKE '%'", Given::Long(1), Truth::False),
    ("x NOT LIKE '%'", Given::Long(1), Truth::True),
    ("JMSPriority IN ('4')", Given::Nothing, Truth::False),
    ("x IN ('ab','ac','ad')", Given::Text("ad"), Truth::True),
    ("x IN ('ab','ac','ad')", Given::Text("ae"), Truth::False),
    ("x IN ('ab','ac','ad')", Given::Text("a"), Truth::False),
    ("x IN ('a','')", Given::Text(""), Truth::True),
    (
        "x IN ('1','2','3','4','5','6','7','8','9')",
        Given::Text("9"),
        Truth::True,
    ),
    (
        "x IN ('1','2','3','4','5','6','7','8','9')",
        Given::Text("0"),
        Truth::False,
    ),
];

#[test]
fn memberships(rt: HostRuntime) {
    for (text, given, wanted) in &ROWS {
        holds(&rt, text, truth(rt.alloc(), text, *given) == Some(*wanted));
    }
}

/// How many texts a long list has.
const MANY: u32 = 10_000;

/// The numbers below that one as texts.
fn numbers(alloc: Global, end: u32) -> Result<Vec<Str>, AllocError> {
    let mut texts = Vec::new(alloc);
    for number in 0..end {
        texts.push(Str::new(format!(in alloc; "{number}")?))?;
    }
    Ok(texts)
}

/// The set of many texts.
fn many(alloc: Global) -> Result<Texts, AllocError> {
    Texts::new(alloc, List::new(numbers(alloc, MANY)?))
}

/// Texts, and whether a list of many has them.
static MEMBERS: [(&str, bool); 5] = [
    ("0", true),
    ("5000", true),
    ("9999", true),
    ("10000", false),
    ("", false),
];

fn has_member(texts: &Option<Texts>, text: &str) -> Option<bool> {
    match texts {
        Some(texts) => Some(texts.contains(text)),
        None => None,
    }
}

#[test]
fn members_of_many(rt: HostRuntime) {
    let texts = many(rt.alloc()).ok();
    for (text, is_member) in &MEMBERS {
        holds(&rt, text, has_member(&texts, text) == Some(*is_member));
    }
}

/// IN over many texts.
fn in_many(alloc: Global) -> Result<Tree, AllocError> {
    let name = Identifier::new(Str::new(String::from_str(alloc, "x")?));
    Ok(Tree::In {
        negated: false,
        name,
        list: many(alloc)?,
    })
}

fn is_in_many(alloc: Global, message: &Message) -> Option<Truth> {
    match in_many(alloc) {
        Ok(tree) => Some(condition(&tree, message)),
        Err(_) => None,
    }
}

fn sent_in_many(alloc: Global, draft: Draft) -> Option<Truth> {
    match sent(alloc, draft) {
        Ok(message) => is_in_many(alloc, &message),
        Err(_) => None,
    }
}

#[test]
fn in_of_many(rt: HostRuntime) {
    for (text, is_member) in &MEMBERS {
        let wanted = if *is_member {
            Truth::True
        } else {
            Truth::False
        };
        let told = match draft(rt.alloc(), Given::Text(text)) {
            Some(draft) => sent_in_many(rt.alloc(), draft),
            None => None,
        };
        holds(&rt, text, told == Some(wanted));
    }
}
