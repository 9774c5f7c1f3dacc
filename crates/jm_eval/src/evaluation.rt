ghost use Rattle.std.specs.Prelude.{◌≡◌, ◌↔◌, fold, map, IsTrue};
ghost use Rattle.jm_eval.specs.Evaluation as spec;
ghost use Rattle.jm_eval.specs.Seen.{seen};
ghost use Rattle.jm_eval.specs.Values as tables;
ghost use Rattle.jm_eval.specs.Values.{add, multiply};
ghost use Rattle.jm_eval.specs.Views.{view};
ghost use Rattle.jm_eval.specs.declared.truth.Truth.TheVariants.{True, False};

use crate::truth::{Truth, and_of, negated_if, not_of, or_of, truth_of};
use crate::value::{
    Value, add, between, comparison, condition_of, is_in, is_like, is_null, kept, multiply,
    negative, number_between, value_of,
};
use crate::view::{name_against_number, name_against_text, named};
use jm_header::Message;
use jm_tree::{Additive, Comparison, Identifier, Multiplicative, Pattern, Texts, Tree};

/// The value of a tree over a message (Jakarta Messaging 3.1, section 3.8.1). Takes no memory.
#[cycle(evaluation)]
#[tactic(auto, unfolding(crate::specs::Evaluation::value))]
pub fn eval<'a>(tree: &'a Tree, message: &'a Message) -> Value<'a>
    ensures { seen result ≡ spec.value (view message.now) tree.now }
{
    match tree {
        Tree::Num(number) => Value::Number(*number),
        Tree::Text(text) => Value::Text(text.as_str()),
        Tree::Truth(truth) => Value::Bool(*truth),
        Tree::Name(name) => named(name, message),
        Tree::Plus(inner) => kept(operand(inner.get(), message)),
        Tree::Neg(inner) => negative(operand(inner.get(), message)),
        Tree::Sum { first, rest } => sum(operand(first.get(), message), rest.as_slice(), message),
        Tree::Product { first, rest } => {
            product(operand(first.get(), message), rest.as_slice(), message)
        }
        Tree::Compare { .. }
        | Tree::Between { .. }
        | Tree::In { .. }
        | Tree::Like { .. }
        | Tree::IsNull { .. }
        | Tree::Not(_)
        | Tree::All(_)
        | Tree::AnyOf(_) => value_of(condition(tree, message)),
    }
}

/// The value of a whole selector over a message as a condition: a number or a text is UNKNOWN
/// (Jakarta Messaging 3.1, section 3.8.1). Takes no memory.
#[cycle(evaluation)]
#[tactic(auto, unfolding(crate::specs::Evaluation::value))]
pub fn condition(tree: &Tree, message: &Message) -> Truth
    ensures { result ≡ spec.condition (view message.now) tree.now }
{
    match tree {
        Tree::Compare { op, left, right } => compare(*op, left.get(), right.get(), message),
        Tree::All(members) => all(members.as_slice(), message),
        Tree::AnyOf(members) => any_of(members.as_slice(), message),
        Tree::Not(operand) => not_of(condition(operand.get(), message)),
        Tree::Between {
            negated,
            operand,
            low,
            high,
        } => is_between(*negated, operand.get(), low.get(), high.get(), message),
        Tree::In {
            negated,
            name,
            list,
        } => membership(*negated, name, list, message),
        Tree::Like {
            negated,
            name,
            pattern,
            escape,
        } => likeness(*negated, name, pattern, *escape, message),
        Tree::IsNull { negated, name } => absence(*negated, name, message),
        Tree::Truth(truth) => truth_of(*truth),
        Tree::Name(name) => name_condition(name, message),
        Tree::Sum { first, rest } => sum_condition(first.get(), rest.as_slice(), message),
        Tree::Product { first, rest } => product_condition(first.get(), rest.as_slice(), message),
        Tree::Num(_) | Tree::Text(_) | Tree::Plus(_) | Tree::Neg(_) => Truth::Unknown,
    }
}

/// The value of an identifier as a condition.
#[inline(never)]
fn name_condition(name: &Identifier, message: &Message) -> Truth
    ensures { result ≡ tables.condition_of (view message.now name.now) }
{
    condition_of(named(name, message))
}

/// A chain of `+` and `-` as a condition: a number is UNKNOWN.
#[cycle(evaluation)]
#[inline(never)]
fn sum_condition(first: &Tree, rest: &[(Additive, Tree)], message: &Message) -> Truth
    ensures { result ≡ tables.condition_of (fold add (spec.value (view message.now) first.now) (map (λ p. (p.0, spec.value (view message.now) p.1)) rest.now)) }
{
    if rest.is_empty() {
        return condition(first, message);
    }
    Truth::Unknown
}

/// A chain of `*` and `/` as a condition: a number is UNKNOWN.
#[cycle(evaluation)]
#[inline(never)]
fn product_condition(first: &Tree, rest: &[(Multiplicative, Tree)], message: &Message) -> Truth
    ensures { result ≡ tables.condition_of (fold multiply (spec.value (view message.now) first.now) (map (λ p. (p.0, spec.value (view message.now) p.1)) rest.now)) }
{
    if rest.is_empty() {
        return condition(first, message);
    }
    Truth::Unknown
}

/// The value of an operand; that of a name or a literal without a call of `eval`.
#[cycle(evaluation)]
#[inline(always)]
#[tactic(auto, unfolding(crate::specs::Evaluation::value))]
fn operand<'a>(tree: &'a Tree, message: &'a Message) -> Value<'a>
    ensures { seen result ≡ spec.value (view message.now) tree.now }
{
    match tree {
        Tree::Num(number) => Value::Number(*number),
        Tree::Text(text) => Value::Text(text.as_str()),
        Tree::Name(name) => named(name, message),
        _ => eval(tree, message),
    }
}

/// A comparison; that of a name with a literal at once.
#[cycle(evaluation)]
#[inline(never)]
#[tactic(auto, unfolding(crate::specs::Evaluation::value))]
fn compare(op: Comparison, left: &Tree, right: &Tree, message: &Message) -> Truth
    ensures { result ≡ tables.comparison op (spec.value (view message.now) left.now) (spec.value (view message.now) right.now) }
{
    match (left, right) {
        (Tree::Name(name), Tree::Num(number)) => { name_against_number(op, name, *number, message) }
        (Tree::Name(name), Tree::Text(text)) => {
            name_against_text(op, name, text.as_str(), message)
        }
        _ => compare_operands(op, left, right, message),
    }
}

/// A comparison of two operands.
#[cycle(evaluation)]
#[inline(never)]
fn compare_operands(op: Comparison, left: &Tree, right: &Tree, message: &Message) -> Truth
    ensures { result ≡ tables.comparison op (spec.value (view message.now) left.now) (spec.value (view message.now) right.now) }
{
    let left = operand(left, message);
    comparison(op, left, operand(right, message))
}

/// BETWEEN, or NOT BETWEEN where it is negated; that of a name between two literal numbers at once.
#[cycle(evaluation)]
#[inline(never)]
#[tactic(auto, unfolding(crate::specs::Evaluation::value))]
fn is_between(negated: bool, value: &Tree, low: &Tree, high: &Tree, message: &Message) -> Truth
    ensures { result ≡ tables.between negated (spec.value (view message.now) value.now) (spec.value (view message.now) low.now) (spec.value (view message.now) high.now) }
{
    match (value, low, high) {
        (Tree::Name(name), Tree::Num(low), Tree::Num(high)) => {
            number_between(negated, named(name, message), *low, *high)
        }
        _ => is_operand_between(negated, value, low, high, message),
    }
}

/// The same of three operands.
#[cycle(evaluation)]
#[inline(never)]
fn is_operand_between(
    negated: bool,
    value: &Tree,
    low: &Tree,
    high: &Tree,
    message: &Message,
) -> Truth
    ensures { result ≡ tables.between negated (spec.value (view message.now) value.now) (spec.value (view message.now) low.now) (spec.value (view message.now) high.now) }
{
    let value = operand(value, message);
    let low = operand(low, message);
    between(negated, value, low, operand(high, message))
}

/// IN, or NOT IN where it is negated.
#[inline(never)]
fn membership(negated: bool, name: &Identifier, list: &Texts, message: &Message) -> Truth
    ensures { result ≡ tables.negated_if negated (tables.is_in (view message.now name.now) list.now) }
{
    negated_if(negated, is_in(named(name, message), list))
}

/// LIKE, or NOT LIKE where it is negated.
#[inline(never)]
fn likeness(
    negated: bool,
    name: &Identifier,
    pattern: &Pattern,
    escape: Option<char>,
    message: &Message,
) -> Truth
    ensures { result ≡ tables.negated_if negated (tables.is_like (view message.now name.now) pattern.now escape) }
{
    negated_if(negated, is_like(named(name, message), pattern, escape))
}

/// IS NULL, or IS NOT NULL where it is negated.
#[inline(never)]
fn absence(negated: bool, name: &Identifier, message: &Message) -> Truth
    ensures { result ≡ tables.negated_if negated (tables.is_null (view message.now name.now)) }
{
    negated_if(negated, is_null(named(name, message)))
}

/// A chain of `+` and `-`, from the left.
#[cycle(evaluation)]
#[inline(never)]
fn sum<'a>(first: Value<'a>, rest: &'a [(Additive, Tree)], message: &'a Message) -> Value<'a>
    ensures { seen result ≡ fold add (seen first.entry) (map (λ p. (p.0, spec.value (view message.now) p.1)) rest.now) }
{
    let mut total = first;
    for (op, addend) in rest {
        total = add(total, *op, operand(addend, message));
    }
    total
}

/// A chain of `*` and `/`, from the left.
#[cycle(evaluation)]
#[inline(never)]
fn product<'a>(
    first: Value<'a>,
    rest: &'a [(Multiplicative, Tree)],
    message: &'a Message,
) -> Value<'a>
    ensures { seen result ≡ fold multiply (seen first.entry) (map (λ p. (p.0, spec.value (view message.now) p.1)) rest.now) }
{
    let mut total = first;
    for (op, factor) in rest {
        total = multiply(total, *op, operand(factor, message));
    }
    total
}

/// A chain of AND, up to the first member that is FALSE.
#[cycle(evaluation)]
#[inline(never)]
fn all(members: &[Tree], message: &Message) -> Truth
    ensures { result ≡ fold spec.and_next True (map (spec.value (view message.now)) members.now) }
{
    let mut truth = Truth::True;
    for member in members {
        truth = and_of(truth, condition(member, message));
        if let Truth::False = truth {
            return Truth::False;
        }
    }
    truth
}

/// A chain of OR, up to the first member that is TRUE.
#[cycle(evaluation)]
#[inline(never)]
fn any_of(members: &[Tree], message: &Message) -> Truth
    ensures { result ≡ fold spec.or_next False (map (spec.value (view message.now)) members.now) }
{
    let mut truth = Truth::False;
    for member in members {
        truth = or_of(truth, condition(member, message));
        if let Truth::True = truth {
            return Truth::True;
        }
    }
    truth
}

/// Whether the selector selects the message: it is absent, or its value is TRUE (Jakarta Messaging
/// 3.1, section 3.8.1). Takes no memory.
pub fn selects(selector: &Option<Tree>, message: &Message) -> bool
    ensures { IsTrue result ↔ spec.Selects (view message.now) selector.now }
{
    match selector {
        None => true,
        Some(tree) => condition(tree, message) == Truth::True,
    }
}
