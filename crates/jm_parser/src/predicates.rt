ghost use Rattle.std.specs.Prelude.{◌≡◌};
ghost use Rattle.jm_tree.specs.FaultOrder as spec;
ghost use Rattle.jm_tree.specs.Input.{Reads};
ghost use Rattle.jm_tree.specs.Sorts as sorts;

use crate::cursor::Cursor;
use crate::growth::push;
use crate::operand::{Operand, unless};
use jm_base::{List, Str};
use jm_lexer::{Mark, SyntaxFault};
use jm_tree::{Pattern, Texts, Tree};
use std::alloc::Global;

#[tactic(auto, unfolding(jm_tree::specs::FaultOrder::named))]
fn is_null(tokens: &mut Cursor<'_>, negated: bool, operand: Operand) -> Tree
    ensures { spec.named (Tree.IsNull negated) operand.tree operand.at tokens.old ≡ Ok (result, tokens.new) }
{
    let at = operand.at;
    match operand.into_tree() {
        Tree::Name(name) => Tree::IsNull { negated, name },
        other => {
            tokens.note(Some(at));
            other
        }
    }
}

#[tactic(auto, unfolding(jm_tree::specs::FaultOrder::named, jm_tree::specs::FaultOrder::in_of))]
fn is_in(tokens: &mut Cursor<'_>, negated: bool, operand: Operand, list: Texts) -> Tree
    ensures { spec.named (spec.in_of negated list) operand.tree operand.at tokens.old ≡ Ok (result, tokens.new) }
{
    let at = operand.at;
    match operand.into_tree() {
        Tree::Name(name) => Tree::In {
            negated,
            name,
            list,
        },
        other => {
            tokens.note(Some(at));
            other
        }
    }
}

#[tactic(auto, unfolding(jm_tree::specs::FaultOrder::named, jm_tree::specs::FaultOrder::like_of))]
fn is_like(
    tokens: &mut Cursor<'_>,
    negated: bool,
    operand: Operand,
    pattern: Pattern,
    escape: Option<char>,
) -> Tree
    ensures { spec.named (spec.like_of negated pattern escape) operand.tree operand.at tokens.old ≡ Ok (result, tokens.new) }
{
    let at = operand.at;
    match operand.into_tree() {
        Tree::Name(name) => Tree::Like {
            negated,
            name,
            pattern,
            escape,
        },
        other => {
            tokens.note(Some(at));
            other
        }
    }
}

/// `IS [NOT] NULL`, after the operand.
#[tactic(auto, unfolding(jm_tree::specs::FaultOrder::null_test))]
pub(crate) fn null_test(tokens: &mut Cursor<'_>, operand: Operand) -> Result<Tree, SyntaxFault>
    ensures { Reads (spec.null_test operand.tree operand.at tokens.old) result tokens.new }
{
    tokens.pass();
    let negated = tokens.eat(Mark::Not);
    tokens.expect(Mark::Null)?;
    Ok(is_null(tokens, negated, operand))
}

/// `text { , text }`.
#[tactic(auto, unfolding(jm_tree::specs::FaultOrder::texts, jm_tree::specs::FaultOrder::texts_from))]
fn texts(alloc: Global, tokens: &mut Cursor<'_>) -> Result<List<Str>, SyntaxFault>
    ensures { Reads (spec.texts tokens.old) result tokens.new }
{
    let mut found = Vec::new(alloc);
    push(&mut found, tokens.text()?)?;
    for _turn in 0..tokens.left() {
        if !tokens.eat(Mark::Comma) {
            return Ok(List::new(found));
        }
        push(&mut found, tokens.text()?)?;
    }
    Ok(List::new(found))
}

/// `[NOT] IN ( text { , text } )`, after the operand.
#[tactic(auto, unfolding(jm_tree::specs::FaultOrder::membership))]
pub(crate) fn membership(
    alloc: Global,
    tokens: &mut Cursor<'_>,
    negated: bool,
    operand: Operand,
) -> Result<Tree, SyntaxFault>
    ensures { Reads (spec.membership negated operand.tree operand.at tokens.old) result tokens.new }
{
    tokens.pass();
    tokens.expect(Mark::Open)?;
    let list = texts(alloc, tokens)?;
    tokens.expect(Mark::Close)?;
    Ok(is_in(tokens, negated, operand, Texts::new(alloc, list)?))
}

/// The character of a text that is one Unicode scalar value.
#[tactic(auto, unfolding(jm_tree::specs::Sorts::single))]
fn single(text: &str) -> Option<char>
    ensures { result ≡ sorts.single text.now }
{
    let mut chars = text.chars();
    let first = chars.next()?;
    match chars.next() {
        None => Some(first),
        Some(_) => None,
    }
}

/// `ESCAPE text`: the left operand is checked before it.
#[tactic(auto, unfolding(jm_tree::specs::FaultOrder::escaped))]
fn escaped(
    alloc: Global,
    tokens: &mut Cursor<'_>,
    negated: bool,
    operand: Operand,
    pattern: Str,
) -> Result<Tree, SyntaxFault>
    ensures { Reads (spec.escaped negated operand.tree operand.at pattern tokens.old) result tokens.new }
{
    let place = tokens.start();
    let text = tokens.text()?;
    let escape = single(text.as_str());
    let pattern = Pattern::new(alloc, pattern, escape)?;
    let tree = is_like(tokens, negated, operand, pattern, escape);
    tokens.note(unless(escape.is_some(), place));
    Ok(tree)
}

/// `[NOT] LIKE text [ ESCAPE text ]`, after the operand.
#[tactic(auto, unfolding(jm_tree::specs::FaultOrder::likeness))]
pub(crate) fn likeness(
    alloc: Global,
    tokens: &mut Cursor<'_>,
    negated: bool,
    operand: Operand,
) -> Result<Tree, SyntaxFault>
    ensures { Reads (spec.likeness negated operand.tree operand.at tokens.old) result tokens.new }
{
    tokens.pass();
    let pattern = tokens.text()?;
    if tokens.eat(Mark::Escape) {
        return escaped(alloc, tokens, negated, operand, pattern);
    }
    let pattern = Pattern::new(alloc, pattern, None)?;
    Ok(is_like(tokens, negated, operand, pattern, None))
}
