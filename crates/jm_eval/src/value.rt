ghost use Rattle.std.specs.Prelude.{◌≡◌, ◌↔◌, IsTrue};
ghost use Rattle.std.specs.Str.{chars};
ghost use Rattle.jm_tree.specs.Names as names;
ghost use Rattle.jm_tree.specs.Patterns as patterns;
ghost use Rattle.jm_eval.specs.Patterns as fits;
ghost use Rattle.jm_eval.specs.Same as same;
ghost use Rattle.jm_eval.specs.Values as spec;
ghost use Rattle.jm_eval.specs.Values.{Number, Text};
ghost use Rattle.jm_header.specs.MessageIds.{message_id};
ghost use Rattle.jm_eval.specs.Seen.{seen};

use crate::arithmetic::{difference_of, negative_of, product_of, quotient_of, sum_of};
use crate::items::is_match_of;
use crate::pattern::is_match;
use crate::truth::{Truth, and_of, or_of, truth_of};
use jm_header::Message;
use jm_tree::{Additive, Comparison, Multiplicative, Pattern, Texts};

/// The value of a selector or of a part of it. `==` is that of what contracts see: a `MessageId` equals
/// the `Text` of its text.
#[derive(Clone, Copy, Debug)]
pub enum Value<'a> {
    /// None of the others: of an identifier that is NULL, and of a condition that is neither TRUE
    /// nor FALSE.
    Unknown,
    /// A truth value.
    Bool(bool),
    /// A whole number, -2^63 to 2^63-1.
    Number(i64),
    /// A text.
    Text(&'a str),
    /// The text of the JMSMessageID of this message, which is not written until it is asked for.
    MessageId(&'a Message),
}

/// Two values by what contracts see of them.
fn is_same(left: Value<'_>, right: Value<'_>) -> bool
    ensures { result ≡ same.value_eq (seen left.entry) (seen right.entry) }
{
    match (left, right) {
        (Value::Unknown, Value::Unknown) => true,
        (Value::Bool(left), Value::Bool(right)) => left == right,
        (Value::Number(left), Value::Number(right)) => left == right,
        (Value::Text(left), Value::Text(right)) => left == right,
        (Value::Text(left), Value::MessageId(right)) => left == right.message_id().as_str(),
        (Value::MessageId(left), Value::Text(right)) => left.message_id().as_str() == right,
        (Value::MessageId(left), Value::MessageId(right)) => {
            left.message_id().as_str() == right.message_id().as_str()
        }
        _ => false,
    }
}

impl<'a> Value<'a> {
    /// Whether both values are the same in all that contracts see. Takes no memory.
    pub fn is(self, other: Value<'_>) -> bool
        ensures { IsTrue result ↔ (seen self.entry ≡ seen other.entry) }
    {
        is_same(self, other)
    }
}

impl<'a> PartialEq for Value<'a> {
    ghost use Rattle.jm_eval.specs.Same.{seen_eq, seen_laws};

    ghost eq = { seen_eq };

    ghost laws = { seen_laws };

    fn eq(&self, other: &Value<'a>) -> bool {
        is_same(*self, *other)
    }
}

/// A number, or UNKNOWN where there is none.
fn number_of<'a>(number: Option<i64>) -> Value<'a>
    ensures { seen result ≡ spec.number_of number }
{
    match number {
        None => Value::Unknown,
        Some(number) => Value::Number(number),
    }
}

/// The value of a condition.
pub(crate) fn value_of<'a>(truth: Truth) -> Value<'a>
    ensures { seen result ≡ spec.value_of truth }
{
    match truth {
        Truth::True => Value::Bool(true),
        Truth::False => Value::Bool(false),
        Truth::Unknown => Value::Unknown,
    }
}

/// A value as a condition: a number or a text is UNKNOWN.
pub(crate) fn condition_of(value: Value<'_>) -> Truth
    ensures { result ≡ spec.condition_of (seen value.entry) }
{
    match value {
        Value::Bool(truth) => truth_of(truth),
        _ => Truth::Unknown,
    }
}

/// The unary plus.
pub(crate) fn kept(value: Value<'_>) -> Value<'_>
    ensures { seen result ≡ spec.kept (seen value.entry) }
{
    match value {
        Value::Number(number) => Value::Number(number),
        _ => Value::Unknown,
    }
}

/// The unary minus.
pub(crate) fn negative(value: Value<'_>) -> Value<'_>
    ensures { seen result ≡ spec.negative (seen value.entry) }
{
    match value {
        Value::Number(number) => number_of(negative_of(number)),
        _ => Value::Unknown,
    }
}

fn additive(op: Additive, left: i64, right: i64) -> Option<i64>
    ensures { result ≡ spec.additive op left right }
{
    match op {
        Additive::Plus => sum_of(left, right),
        Additive::Minus => difference_of(left, right),
    }
}

fn multiplicative(op: Multiplicative, left: i64, right: i64) -> Option<i64>
    ensures { result ≡ spec.multiplicative op left right }
{
    match op {
        Multiplicative::Times => product_of(left, right),
        Multiplicative::Divide => quotient_of(left, right),
    }
}

/// One step of a sum.
pub(crate) fn add<'a>(left: Value<'a>, op: Additive, right: Value<'a>) -> Value<'a>
    ensures { seen result ≡ spec.add (seen left.entry) (op, seen right.entry) }
{
    match (left, right) {
        (Value::Number(left), Value::Number(right)) => number_of(additive(op, left, right)),
        _ => Value::Unknown,
    }
}

/// One step of a product.
pub(crate) fn multiply<'a>(left: Value<'a>, op: Multiplicative, right: Value<'a>) -> Value<'a>
    ensures { seen result ≡ spec.multiply (seen left.entry) (op, seen right.entry) }
{
    match (left, right) {
        (Value::Number(left), Value::Number(right)) => number_of(multiplicative(op, left, right)),
        _ => Value::Unknown,
    }
}

pub(crate) fn numbers_compare(op: Comparison, left: i64, right: i64) -> bool
    ensures { result ≡ spec.numbers_compare op left right }
{
    match op {
        Comparison::Equal => left == right,
        Comparison::NotEqual => left != right,
        Comparison::Less => left < right,
        Comparison::LessOrEqual => left <= right,
        Comparison::Greater => left > right,
        Comparison::GreaterOrEqual => left >= right,
    }
}

fn equality_compares(op: Comparison, equal: bool) -> bool
    ensures { result ≡ spec.equality_compares op equal }
{
    match op {
        Comparison::Equal => equal,
        Comparison::NotEqual => !equal,
        _ => false,
    }
}

/// Two texts by an operator; an ordering of them is FALSE.
pub(crate) fn texts_compare(op: Comparison, left: &str, right: &str) -> Truth
    ensures { result ≡ spec.truth_of (spec.equality_compares op (names.texts_equal left.now right.now)) }
{
    truth_of(equality_compares(op, left == right))
}

/// A comparison of a value with a number.
#[inline(always)]
pub(crate) fn number_comparison(op: Comparison, left: Value<'_>, right: i64) -> Truth
    ensures { result ≡ spec.comparison op (seen left.entry) (Number right) }
{
    match left {
        Value::Unknown => Truth::Unknown,
        Value::Number(left) => truth_of(numbers_compare(op, left, right)),
        _ => Truth::False,
    }
}

/// A comparison of the text of a JMSMessageID with a text.
#[cold]
#[inline(never)]
fn id_comparison(op: Comparison, left: &Message, right: &str) -> Truth
    ensures { result ≡ spec.truth_of (spec.equality_compares op (names.texts_equal (message_id left.now) right.now)) }
{
    texts_compare(op, left.message_id().as_str(), right)
}

/// A comparison of a value with a text.
#[inline(always)]
pub(crate) fn text_comparison(op: Comparison, left: Value<'_>, right: &str) -> Truth
    ensures { result ≡ spec.comparison op (seen left.entry) (Text right.now) }
{
    match left {
        Value::Unknown => Truth::Unknown,
        Value::Text(left) => texts_compare(op, left, right),
        Value::MessageId(message) => id_comparison(op, message, right),
        _ => Truth::False,
    }
}

/// BETWEEN of a value and two numbers, or NOT BETWEEN where it is negated.
#[inline(always)]
pub(crate) fn number_between(negated: bool, operand: Value<'_>, low: i64, high: i64) -> Truth
    ensures { result ≡ spec.between negated (seen operand.entry) (Number low) (Number high) }
{
    match operand {
        Value::Unknown => Truth::Unknown,
        Value::Number(number) => truth_of((low <= number && number <= high) != negated),
        _ => Truth::False,
    }
}

/// A comparison of two values.
pub(crate) fn comparison(op: Comparison, left: Value<'_>, right: Value<'_>) -> Truth
    ensures { result ≡ spec.comparison op (seen left.entry) (seen right.entry) }
{
    match (left, right) {
        (Value::Unknown, _) | (_, Value::Unknown) => Truth::Unknown,
        (Value::Number(left), Value::Number(right)) => truth_of(numbers_compare(op, left, right)),
        (Value::Bool(left), Value::Bool(right)) => truth_of(equality_compares(op, left == right)),
        (Value::Text(left), Value::Text(right)) => texts_compare(op, left, right),
        (Value::Text(left), Value::MessageId(right)) => {
            texts_compare(op, left, right.message_id().as_str())
        }
        (Value::MessageId(left), Value::Text(right)) => {
            texts_compare(op, left.message_id().as_str(), right)
        }
        (Value::MessageId(left), Value::MessageId(right)) => {
            texts_compare(op, left.message_id().as_str(), right.message_id().as_str())
        }
        _ => Truth::False,
    }
}

/// BETWEEN, or NOT BETWEEN where it is negated.
pub(crate) fn between<'a>(
    negated: bool,
    operand: Value<'a>,
    low: Value<'a>,
    high: Value<'a>,
) -> Truth
    ensures { result ≡ spec.between negated (seen operand.entry) (seen low.entry) (seen high.entry) }
{
    if negated {
        let below = comparison(Comparison::Less, operand, low);
        or_of(below, comparison(Comparison::Greater, operand, high))
    } else {
        let from_low = comparison(Comparison::GreaterOrEqual, operand, low);
        and_of(from_low, comparison(Comparison::LessOrEqual, operand, high))
    }
}

/// IN: a look-up in the set of the texts.
pub(crate) fn is_in(value: Value<'_>, list: &Texts) -> Truth
    ensures { result ≡ spec.is_in (seen value.entry) list.now }
{
    match value {
        Value::Unknown => Truth::Unknown,
        Value::Text(text) => truth_of(list.contains(text)),
        Value::MessageId(message) => truth_of(list.contains(message.message_id().as_str())),
        _ => Truth::False,
    }
}

/// Whether the text fits the pattern, by the items that it keeps.
fn is_fit(text: &str, pattern: &Pattern, escape: Option<char>) -> bool
    ensures { result ≡ fits.matches (patterns.items escape (chars pattern.now)) (chars text.now) }
{
    match pattern.items(escape) {
        Some(items) => is_match_of(text, items),
        None => is_match(text, pattern.as_str(), escape),
    }
}

/// LIKE.
pub(crate) fn is_like(value: Value<'_>, pattern: &Pattern, escape: Option<char>) -> Truth
    ensures { result ≡ spec.is_like (seen value.entry) pattern.now escape }
{
    match value {
        Value::Unknown => Truth::Unknown,
        Value::Text(text) => truth_of(is_fit(text, pattern, escape)),
        Value::MessageId(message) => {
            truth_of(is_fit(message.message_id().as_str(), pattern, escape))
        }
        _ => Truth::False,
    }
}

/// IS NULL.
pub(crate) fn is_null(value: Value<'_>) -> Truth
    ensures { result ≡ spec.is_null (seen value.entry) }
{
    truth_of(matches!(value, Value::Unknown))
}
