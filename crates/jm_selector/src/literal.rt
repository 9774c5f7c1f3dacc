ghost use Rattle.std.specs.Prelude.{◌≡◌, ◌++◌, ℕ, List, Option, IfOk, OnOk};
ghost use Rattle.std.specs.Option.{option_copied, option_to_list};
ghost use Rattle.jm_header.specs.declared.content.Content.{Content};
ghost use Rattle.jm_tree.specs.Names.{field_of};
ghost use Rattle.jm_tree.specs.declared.tree.Tree.{out-Tree};
ghost use Rattle.jm_selector.specs.Literals as spec;
ghost use Rattle.jm_selector.specs.Literals.{HasItsLiteral};

use jm_header::Message;
use jm_property::{Properties, Property};
use jm_shared::SharedStr;
use jm_tree::{Comparison, Field, Identifier, Tree};
use std::alloc::{AllocError, Global};

/// A literal that a selector may ask a value of a message to be equal to.
#[derive(Clone, Debug, PartialEq, Eq, PartialOrd, Ord, Drop)]
pub enum Literal {
    /// A whole number.
    Number(i64),
    /// A text.
    Text(SharedStr),
}

/// The literal that the node is: a whole number or a text.
fn node_literal(alloc: Global, tree: &Tree) -> Result<Option<Literal>, AllocError>
    ensures { IfOk result (λ literal. literal ≡ spec.node_literal (out-Tree tree.now)) }
{
    match tree {
        Tree::Num(number) => Ok(Some(Literal::Number(*number))),
        Tree::Text(text) => {
            let text = SharedStr::from_str(alloc, text.as_str())?;
            Ok(Some(Literal::Text(text)))
        }
        _ => Ok(None),
    }
}

/// Whether the name is that of a property, of JMSCorrelationID or of JMSType.
fn is_free(name: &Identifier) -> bool
    ensures { result ≡ spec.is_free (field_of name.now) }
{
    match name.field() {
        None => true,
        Some(Field::CorrelationId) => true,
        Some(Field::Type) => true,
        Some(_) => false,
    }
}

/// Whether the node is such a name.
fn is_name(tree: &Tree) -> bool
    ensures { result ≡ spec.node_is_name (out-Tree tree.now) }
{
    match tree {
        Tree::Name(name) => is_free(name),
        _ => false,
    }
}

/// The literal of two sides, of which one is a name and the other a literal.
fn sides_literal(alloc: Global, left: &Tree, right: &Tree) -> Result<Option<Literal>, AllocError>
    ensures { IfOk result (λ literal. literal ≡ spec.sides_literal (out-Tree left.now) (out-Tree right.now)) }
{
    if is_name(left) {
        node_literal(alloc, right)
    } else if is_name(right) {
        node_literal(alloc, left)
    } else {
        Ok(None)
    }
}

/// The literal that the node asks for, where it is an equality.
fn equality_literal(alloc: Global, tree: &Tree) -> Result<Option<Literal>, AllocError>
    ensures { IfOk result (λ literal. literal ≡ spec.equality_literal (out-Tree tree.now)) }
{
    match tree {
        Tree::Compare { op, left, right } => match op {
            Comparison::Equal => sides_literal(alloc, left.get(), right.get()),
            _ => Ok(None),
        },
        _ => Ok(None),
    }
}

/// The first literal that one of the members of an AND asks for.
fn first_literal(alloc: Global, members: &[Tree]) -> Result<Option<Literal>, AllocError>
    ensures { IfOk result (λ literal. literal ≡ spec.first_literal members.now) }
{
    for member in members {
        if let Some(literal) = equality_literal(alloc, member)? {
            return Ok(Some(literal));
        }
    }
    Ok(None)
}

/// The literal that the tree asks for, where it is an equality or an AND of one.
pub(crate) fn literal_of(alloc: Global, tree: &Tree) -> Result<Option<Literal>, AllocError>
    ensures { IfOk result (λ literal. literal ≡ spec.asked_by (out-Tree tree.now)) }
{
    match tree {
        Tree::All(members) => first_literal(alloc, members.as_slice()),
        _ => equality_literal(alloc, tree),
    }
}

/// The value of a property as a literal; a boolean is none.
fn property_literal(property: &Property) -> Result<Option<Literal>, AllocError>
    ensures { IfOk result (λ literal. literal ≡ spec.property_literal property.now) }
{
    Ok(match property {
        Property::Bool(_) => None,
        Property::Byte(value) => Some(Literal::Number(i64::from(*value))),
        Property::Short(value) => Some(Literal::Number(i64::from(*value))),
        Property::Int(value) => Some(Literal::Number(i64::from(*value))),
        Property::Long(value) => Some(Literal::Number(*value)),
        Property::Text(text) => Some(Literal::Text(text.copy()?)),
    })
}

/// How many literals the message has at most.
fn room(message: &Message) -> usize {
    let count = message.properties().len();
    let count = match message.correlation() {
        None => count,
        Some(_) => count.saturating_add(1),
    };
    match message.message_type() {
        None => count,
        Some(_) => count.saturating_add(1),
    }
}

/// Puts the value of the property behind the others, where it is a literal. `AllocError` where a request for memory was
/// refused.
fn add_property(literals: &mut Vec<Literal>, property: &Property) -> Result<(), AllocError>
    ensures { OnOk result (literals.new.items ≡ literals.old.items ++ option_to_list (spec.property_literal property.now)) }
{
    match property_literal(property)? {
        None => Ok(()),
        Some(literal) => {
            literals.push(literal)?;
            Ok(())
        }
    }
}

/// Puts the literals of the properties behind the others. `AllocError` where a request for memory was refused.
fn add_properties(literals: &mut Vec<Literal>, properties: &Properties) -> Result<(), AllocError>
    ensures { OnOk result (literals.new.items ≡ literals.old.items ++ spec.properties_literals properties.now) }
{
    for index in 0..properties.len() {
        if let Some((_, value)) = properties.entry_at(index) {
            add_property(literals, value)?;
        }
    }
    Ok(())
}

/// Puts the text behind the others, where it is set. `AllocError` where a request for memory was refused.
fn add_text(literals: &mut Vec<Literal>, text: Option<&SharedStr>) -> Result<(), AllocError>
    ensures { OnOk result (literals.new.items ≡ literals.old.items ++ option_to_list (spec.text_literal (option_copied text.entry))) }
{
    match text {
        None => Ok(()),
        Some(text) => {
            literals.push(Literal::Text(text.copy()?))?;
            Ok(())
        }
    }
}

/// The values of the message that a selector may ask to be equal to a literal: those of its properties in order,
/// numbers and texts, then JMSCorrelationID and JMSType where they are set. The texts are shared.
///
/// Room for all is asked for once, and none where the message has no property and neither field. `AllocError` where that
/// request was refused, or a text has 9,223,372,036,854,775,807 owners.
#[tactic(auto, unfolding(crate::specs::Literals::literals_of))]
pub fn literals(alloc: Global, message: &Message) -> Result<Vec<Literal>, AllocError>
    ensures { IfOk result (λ literals. literals.items ≡ spec.literals_of message.now) }
{
    let mut literals = Vec::with_capacity(alloc, room(message))?;
    add_properties(&mut literals, message.properties())?;
    add_text(&mut literals, message.correlation())?;
    add_text(&mut literals, message.message_type())?;
    Ok(literals)
}

/// The law of the literal: a message that a selector selects has the literal that the selector asks for (of the
/// definitions of Jakarta Messaging 3.1, section 3.8.1).
pub fn law_literal()
    ensures { (selector : Option (List ℕ)) (m : Content) → HasItsLiteral selector m }
{}
