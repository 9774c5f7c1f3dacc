//! Properties: how each type is read, names, and order.

use crate::told::{holds, is_text};
use jm_base::MessageFault;
use jm_property::{Properties, Property, is_identifier, is_settable};
use jm_shared::SharedStr;
use std::alloc::{AllocError, Global};

/// The value of a property.
#[derive(Clone, Copy)]
enum Value {
    Bool(bool),
    Byte(i8),
    Short(i16),
    Int(i32),
    Long(i64),
    Text(&'static str),
}

fn property(alloc: Global, value: &Value) -> Result<Property, AllocError> {
    match value {
        Value::Bool(value) => Ok(Property::Bool(*value)),
        Value::Byte(value) => Ok(Property::Byte(*value)),
        Value::Short(value) => Ok(Property::Short(*value)),
        Value::Int(value) => Ok(Property::Int(*value)),
        Value::Long(value) => Ok(Property::Long(*value)),
        Value::Text(text) => Ok(Property::Text(SharedStr::from_str(alloc, text)?)),
    }
}

/// Sets the property, and gives the fault of it if it is refused.
fn set(
    alloc: Global,
    properties: &mut Properties,
    name: &str,
    value: &Value,
) -> Option<MessageFault> {
    match property(alloc, value) {
        Ok(value) => properties.set(name, value).err(),
        Err(_) => Some(MessageFault::Memory),
    }
}

/// Properties of which the only one is `x`.
fn only(alloc: Global, value: &Value) -> Properties {
    let mut properties = Properties::new(alloc);
    let _ = set(alloc, &mut properties, "x", value);
    properties
}

/// What is read as a number: a truth value as 1 or 0, and what does not convert as none.
fn as_long(read: Result<impl Into<i64>, MessageFault>) -> Option<i64> {
    match read {
        Ok(value) => Some(value.into()),
        Err(_) => None,
    }
}

/// `x` read as a boolean, a byte, a short, an int and a long.
fn reads(properties: &Properties) -> [Option<i64>; 5] {
    [
        as_long(properties.get_bool("x")),
        as_long(properties.get_byte("x")),
        as_long(properties.get_short("x")),
        as_long(properties.get_int("x")),
        as_long(properties.get_long("x")),
    ]
}

/// A value, what is read of it, and its text.
type Read = (Value, [Option<i64>; 5], &'static str);

static READS: [Read; 12] = [
    (
        Value::Bool(false),
        [Some(0), None, None, None, None],
        "false",
    ),
    (
        Value::Byte(-128),
        [None, Some(-128), Some(-128), Some(-128), Some(-128)],
        "-128",
    ),
    (
        Value::Short(5),
        [None, None, Some(5), Some(5), Some(5)],
        "5",
    ),
    (Value::Int(-3), [None, None, None, Some(-3), Some(-3)], "-3"),
    (
        Value::Long(i64::MAX),
        [None, None, None, None, Some(i64::MAX)],
        "9223372036854775807",
    ),
    (
        Value::Text("TrUe"),
        [Some(1), None, None, None, None],
        "TrUe",
    ),
    (Value::Text("yes"), [Some(0), None, None, None, None], "yes"),
    (
        Value::Text("+7"),
        [Some(0), Some(7), Some(7), Some(7), Some(7)],
        "+7",
    ),
    (
        Value::Text("128"),
        [Some(0), None, Some(128), Some(128), Some(128)],
        "128",
    ),
    (
        Value::Text("32768"),
        [Some(0), None, None, Some(32768), Some(32768)],
        "32768",
    ),
    (
        Value::Text("2147483648"),
        [Some(0), None, None, None, Some(2147483648)],
        "2147483648",
    ),
    (
        Value::Text("9223372036854775808"),
        [Some(0), None, None, None, None],
        "9223372036854775808",
    ),
];

/// The table, which stands once.
fn all_reads() -> &'static [Read] {
    &READS
}

/// Whether that is read of the value, where it is the only property.
fn is_read(alloc: Global, row: &Read) -> bool {
    reads(&only(alloc, &row.0)) == row.1
}

#[test]
fn each_type_is_read(rt: HostRuntime) {
    for row in all_reads() {
        holds(&rt, row.2, is_read(rt.alloc(), row));
    }
}

/// The text of `x` where it is the only property.
fn text_of(alloc: Global, value: &Value) -> Result<String, AllocError> {
    match only(alloc, value).get_text("x") {
        Ok(text) => String::from_str(alloc, text.as_str()),
        Err(_) => Err(AllocError),
    }
}

#[test]
fn each_type_has_a_text(rt: HostRuntime) {
    for row in all_reads() {
        is_text(&rt, row.2, text_of(rt.alloc(), &row.0));
    }
}

/// Texts, and the longs that they are read as.
static LONGS: [(&str, Option<i64>); 12] = [
    ("-9223372036854775808", Some(i64::MIN)),
    ("-9223372036854775809", None),
    ("9223372036854775807", Some(i64::MAX)),
    ("-0", Some(0)),
    ("007", Some(7)),
    ("", None),
    ("+", None),
    ("-", None),
    ("+-1", None),
    (" 1", None),
    ("1.0", None),
    ("0x1", None),
];

/// Whether the text is read as that long, or not at all.
fn is_long(alloc: Global, text: &'static str, wanted: Option<i64>) -> bool {
    as_long(only(alloc, &Value::Text(text)).get_long("x")) == wanted
}

#[test]
fn texts_are_read_as_longs(rt: HostRuntime) {
    for (text, wanted) in &LONGS {
        holds(&rt, text, is_long(rt.alloc(), text, *wanted));
    }
}

/// The fault of reading the property of that name as an int, where `x` is a long and there is no other.
fn fault_of_read(alloc: Global, name: &str) -> Option<MessageFault> {
    only(alloc, &Value::Long(5)).get_int(name).err()
}

#[test]
fn faults_of_reads(rt: HostRuntime) {
    let converted = fault_of_read(rt.alloc(), "x");
    holds(&rt, "x", converted == Some(MessageFault::MessageFormat));
    let missing = fault_of_read(rt.alloc(), "missing");
    holds(&rt, "missing", missing == Some(MessageFault::Unset));
}

/// Names, whether each is an identifier, and whether a client may set a property of that name.
static NAMES: [(&str, bool, bool); 18] = [
    ("x", true, true),
    ("_", true, true),
    ("$1", true, true),
    ("nullable", true, true),
    ("A1_$", true, true),
    ("JMSXGroupID", true, true),
    ("JMSXGroupSeq", true, true),
    ("JMSPriority", true, false),
    ("JMSx", true, false),
    ("", false, false),
    ("1x", false, false),
    ("a-b", false, false),
    ("a b", false, false),
    ("\u{e4}", false, false),
    ("escape", false, false),
    ("Between", false, false),
    ("iS", false, false),
    ("Null", false, false),
];

/// Whether that is said of the name.
fn is_named(name: &str, is_name: bool, may_be_set: bool) -> bool {
    is_identifier(name) == is_name && is_settable(name) == may_be_set
}

#[test]
fn names_of_properties(rt: HostRuntime) {
    for (name, is_name, may_be_set) in &NAMES {
        holds(&rt, name, is_named(name, *is_name, *may_be_set));
    }
}

/// Names, and whether a first property of that name may be a number, and a text.
static ALLOWED: [(&str, bool, bool); 6] = [
    ("x", true, true),
    ("JMSXGroupID", false, true),
    ("JMSXGroupSeq", true, false),
    ("JMSx", false, false),
    ("", false, false),
    ("Null", false, false),
];

/// Whether the property, the first, is set; else it is refused for its name.
fn sets_first(
    alloc: Global,
    properties: &mut Properties,
    name: &str,
    value: &Value,
) -> Option<bool> {
    match set(alloc, properties, name, value) {
        None => Some(properties.len() == 1),
        Some(MessageFault::BadName) if properties.is_empty() => Some(false),
        Some(_) => None,
    }
}

/// Whether a first property of that name and value is set, or refused for its name, as it is allowed.
fn is_allowed(alloc: Global, name: &str, value: &Value, allowed: bool) -> bool {
    sets_first(alloc, &mut Properties::new(alloc), name, value) == Some(allowed)
}

const NUMBER: Value = Value::Int(1);

const TEXT: Value = Value::Text("1");

#[test]
fn names_and_values_are_refused(rt: HostRuntime) {
    for (name, number, text) in &ALLOWED {
        let number = is_allowed(rt.alloc(), name, &NUMBER, *number);
        holds(&rt, name, number);
        holds(&rt, name, is_allowed(rt.alloc(), name, &TEXT, *text));
    }
}

const IN_TURN: [(&str, i32); 4] = [("a", 1), ("JMSXGroupSeq", 2), ("A", 3), ("a", 4)];

/// The properties that are set in turn.
fn in_turn(alloc: Global) -> Properties {
    let mut properties = Properties::new(alloc);
    for (name, value) in &IN_TURN {
        let _ = set(alloc, &mut properties, name, &Value::Int(*value));
    }
    properties
}

fn is_int(property: Option<&Property>, value: i32) -> bool {
    match property {
        Some(Property::Int(number)) => *number == value,
        _ => false,
    }
}

fn is_entry(entry: Option<(&str, &Property)>, name: &str, value: i32) -> bool {
    match entry {
        Some((its_name, property)) => its_name == name && is_int(Some(property), value),
        None => false,
    }
}

/// Whether the property at that place has that name and value, by each way to ask.
fn is_at(properties: &Properties, place: usize, name: &str, value: i32) -> bool {
    properties.name_at(place) == Some(name)
        && is_entry(properties.entry_at(place), name, value)
        && is_int(properties.get(name), value)
}

/// The same of the properties that are set in turn.
fn is_in_turn_at(alloc: Global, place: usize, name: &str, value: i32) -> bool {
    is_at(&in_turn(alloc), place, name, value)
}

static PLACES: [(usize, &str, i32); 3] = [(0, "a", 4), (1, "JMSXGroupSeq", 2), (2, "A", 3)];

fn has_no_more(alloc: Global) -> bool {
    in_turn(alloc).name_at(3).is_none()
}

#[test]
fn order_is_that_of_first_setting(rt: HostRuntime) {
    for (place, name, value) in &PLACES {
        holds(&rt, name, is_in_turn_at(rt.alloc(), *place, name, *value));
    }
    holds(&rt, "no more", has_no_more(rt.alloc()));
}

/// More properties than are looked through in turn, in no order of their names.
static MANY: [(&str, i32); 40] = [
    ("mango", 0),
    ("Zulu", 1),
    ("kiwi", 2),
    ("a", 3),
    ("b2", 4),
    ("delta", 5),
    ("_x", 6),
    ("quince", 7),
    ("e1", 8),
    ("fig", 9),
    ("$g", 10),
    ("ibis", 11),
    ("JMSXGroupSeq", 12),
    ("lime", 13),
    ("north", 14),
    ("oboe", 15),
    ("pear", 16),
    ("A", 17),
    ("red", 18),
    ("sable", 19),
    ("tulip", 20),
    ("umber", 21),
    ("vetch", 22),
    ("willow", 23),
    ("xylem", 24),
    ("yew", 25),
    ("zinc", 26),
    ("aa", 27),
    ("Ab", 28),
    ("aB", 29),
    ("bb0", 30),
    ("bb1", 31),
    ("cc10", 32),
    ("cc9", 33),
    ("dd", 34),
    ("ee_", 35),
    ("ff$", 36),
    ("g", 37),
    ("hh", 38),
    ("i", 39),
];

/// The properties of them, each set twice.
fn many(alloc: Global) -> Properties {
    let mut properties = Properties::new(alloc);
    for (name, _) in &MANY {
        let _ = set(alloc, &mut properties, name, &Value::Int(-1));
    }
    for (name, value) in &MANY {
        let _ = set(alloc, &mut properties, name, &Value::Int(*value));
    }
    properties
}

/// Whether each of them stands where it was first set, and nothing else.
fn are_in_turn(properties: &Properties) -> bool {
    for (place, (name, value)) in MANY.iter().enumerate() {
        if !is_at(properties, place, name, *value) {
            return false;
        }
    }
    properties.len() == MANY.len() && properties.get("m").is_none()
}

#[test]
fn many_are_found(rt: HostRuntime) {
    let are_found = are_in_turn(&many(rt.alloc()));
    holds(&rt, "many", are_found);
}

fn written(alloc: Global) -> Result<String, AllocError> {
    format!(in alloc; "{:?}", in_turn(alloc))
}

#[test]
fn properties_are_written_as_a_map(rt: HostRuntime) {
    is_text(
        &rt,
        "Properties { entries: {\"a\": Int(4), \"JMSXGroupSeq\": Int(2), \"A\": Int(3)} }",
        written(rt.alloc()),
    );
}

/// Whether the copy is the same, and not when the first is cleared.
fn is_same(copy: &Properties, properties: &mut Properties) -> bool {
    let is_same = copy.is(properties);
    properties.clear();
    is_same && !copy.is(properties) && properties.is_empty()
}

fn is_copied(properties: &mut Properties) -> bool {
    match properties.copy() {
        Ok(copy) => is_same(&copy, properties),
        Err(_) => false,
    }
}

#[test]
fn copies_are_equal(rt: HostRuntime) {
    let is_copied = is_copied(&mut in_turn(rt.alloc()));
    holds(&rt, "a copy", is_copied);
}
