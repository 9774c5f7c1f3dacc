ghost use Rattle.std.specs.Prelude.{◌<◌};
ghost use Rattle.jm_parser.specs.Leaves as leaves;
ghost use Rattle.jm_tree.specs.FaultOrder as spec;
ghost use Rattle.jm_tree.specs.Input.{Reads};

use crate::cursor::{Cursor, comparison_of};
use crate::growth::push;
use crate::leaves::{LIMIT, leaf};
use crate::nodes::{
    compared_node, denied_node, ranged_node, settle_all, settle_any, settle_product, settle_sum,
    signed_node,
};
use crate::operand::{Operand, or_else};
use crate::predicates::{likeness, membership, null_test};
use jm_base::Cause;
use jm_lexer::{Kind, Mark, SyntaxFault};
use jm_tree::{Additive, Comparison, Tree};
use std::alloc::Global;

/// `number | text | TRUE | FALSE | identifier | ( or )`.
#[cycle(rules)]
#[tactic(auto, using(crate::proofs::Primaries::primary_leaf, crate::proofs::Primaries::primary_open, crate::proofs::Levels::below_ors), unfolding(jm_tree::specs::FaultOrder::opened))]
fn primary(alloc: Global, tokens: &mut Cursor<'_>, levels: usize) -> Result<Tree, SyntaxFault>
    ensures { Reads (spec.primary levels (spec.below levels) tokens.old) result tokens.new }
{
    if !tokens.sees(Mark::Open) {
        return leaf(tokens);
    }
    if levels == 0 {
        return Err(tokens.stop(Cause::TooDeep));
    }
    tokens.pass();
    let at = tokens.start();
    let tree = either(alloc, tokens, levels - 1)?;
    let inner = Operand { tree, at };
    tokens.expect(Mark::Close)?;
    Ok(inner.into_tree())
}

/// The operand of a sign that was passed.
#[cycle(rules)]
#[tactic(auto, using(crate::proofs::Levels::below_signs), unfolding(jm_tree::specs::FaultOrder::signed, crate::specs::Nodes::signed))]
fn signed(
    alloc: Global,
    tokens: &mut Cursor<'_>,
    levels: usize,
    sign: Additive,
) -> Result<Tree, SyntaxFault>
    requires { 0 < levels }
    ensures { Reads (spec.signed levels (spec.below levels) (leaves.signed_by sign) tokens.old) result tokens.new }
{
    let at = tokens.start();
    let tree = unary(alloc, tokens, levels - 1)?;
    signed_node(alloc, tokens, sign, Operand { tree, at })
}

#[cycle(rules)]
#[tactic(auto, unfolding(jm_tree::specs::FaultOrder::minus))]
fn minus(alloc: Global, tokens: &mut Cursor<'_>, levels: usize) -> Result<Tree, SyntaxFault>
    requires { 0 < levels }
    ensures { Reads (spec.minus levels (spec.below levels) tokens.old) result tokens.new }
{
    tokens.pass();
    match tokens.kind() {
        Some(Kind::Number(LIMIT)) => {
            tokens.pass();
            Ok(Tree::Num(i64::MIN))
        }
        _ => signed(alloc, tokens, levels, Additive::Minus),
    }
}

/// `( + | - ) unary | primary`.
#[cycle(rules)]
#[tactic(auto, unfolding(jm_tree::specs::FaultOrder::unary, jm_tree::specs::FaultOrder::plus))]
fn unary(alloc: Global, tokens: &mut Cursor<'_>, levels: usize) -> Result<Tree, SyntaxFault>
    ensures { Reads (spec.unary levels (spec.below levels) tokens.old) result tokens.new }
{
    let negated = tokens.sees(Mark::Minus);
    if !negated && !tokens.sees(Mark::Plus) {
        return primary(alloc, tokens, levels);
    }
    if levels == 0 {
        return Err(tokens.stop(Cause::TooDeep));
    }
    if negated {
        return minus(alloc, tokens, levels);
    }
    tokens.pass();
    signed(alloc, tokens, levels, Additive::Plus)
}

/// `unary { ( * | / ) unary }`.
#[cycle(rules)]
#[tactic(auto, unfolding(jm_tree::specs::FaultOrder::product, jm_tree::specs::FaultOrder::chain))]
fn product(alloc: Global, tokens: &mut Cursor<'_>, levels: usize) -> Result<Tree, SyntaxFault>
    ensures { Reads (spec.product levels (spec.below levels) tokens.old) result tokens.new }
{
    let at = tokens.start();
    let tree = unary(alloc, tokens, levels)?;
    let first = Operand { tree, at };
    let mut own = first.no_number();
    let mut rest = Vec::new(alloc);
    for _turn in 0..tokens.left() {
        let Some(operator) = tokens.eat_multiplicative() else {
            return settle_product(alloc, tokens, first, rest, own);
        };
        let at = tokens.start();
        let tree = unary(alloc, tokens, levels)?;
        let operand = Operand { tree, at };
        own = or_else(own, operand.no_number());
        push(&mut rest, (operator, operand.into_tree()))?;
    }
    settle_product(alloc, tokens, first, rest, own)
}

/// `product { ( + | - ) product }`.
#[cycle(rules)]
#[tactic(auto, unfolding(jm_tree::specs::FaultOrder::sum, jm_tree::specs::FaultOrder::chain))]
fn sum(alloc: Global, tokens: &mut Cursor<'_>, levels: usize) -> Result<Tree, SyntaxFault>
    ensures { Reads (spec.sum levels (spec.below levels) tokens.old) result tokens.new }
{
    let at = tokens.start();
    let tree = product(alloc, tokens, levels)?;
    let first = Operand { tree, at };
    let mut own = first.no_number();
    let mut rest = Vec::new(alloc);
    for _turn in 0..tokens.left() {
        let Some(operator) = tokens.eat_additive() else {
            return settle_sum(alloc, tokens, first, rest, own);
        };
        let at = tokens.start();
        let tree = product(alloc, tokens, levels)?;
        let operand = Operand { tree, at };
        own = or_else(own, operand.no_number());
        push(&mut rest, (operator, operand.into_tree()))?;
    }
    settle_sum(alloc, tokens, first, rest, own)
}

/// `BETWEEN sum AND sum`, after the operand.
#[cycle(rules)]
#[tactic(auto, unfolding(jm_tree::specs::FaultOrder::between, crate::specs::Nodes::ranged))]
fn between(
    alloc: Global,
    tokens: &mut Cursor<'_>,
    levels: usize,
    negated: bool,
    operand: Operand,
) -> Result<Tree, SyntaxFault>
    ensures { Reads (spec.between levels (spec.below levels) negated operand.tree operand.at tokens.old) result tokens.new }
{
    tokens.pass();
    let at = tokens.start();
    let tree = sum(alloc, tokens, levels)?;
    let low = Operand { tree, at };
    tokens.expect(Mark::And)?;
    let at = tokens.start();
    let tree = sum(alloc, tokens, levels)?;
    ranged_node(alloc, tokens, negated, operand, low, Operand { tree, at })
}

/// A comparison, after its left operand.
#[cycle(rules)]
#[tactic(auto, unfolding(jm_tree::specs::FaultOrder::compared, crate::specs::Nodes::compared))]
fn compared(
    alloc: Global,
    tokens: &mut Cursor<'_>,
    levels: usize,
    op: Comparison,
    operand: Operand,
) -> Result<Tree, SyntaxFault>
    ensures { Reads (spec.compared levels (spec.below levels) op operand.tree operand.at tokens.old) result tokens.new }
{
    tokens.pass();
    let at = tokens.start();
    let tree = sum(alloc, tokens, levels)?;
    compared_node(alloc, tokens, op, operand, Operand { tree, at })
}

/// `NOT` with what may follow it, after the operand.
#[cycle(rules)]
#[tactic(auto, unfolding(jm_tree::specs::FaultOrder::negated_tail))]
fn negated_tail(
    alloc: Global,
    tokens: &mut Cursor<'_>,
    levels: usize,
    operand: Operand,
) -> Result<Tree, SyntaxFault>
    ensures { Reads (spec.negated_tail levels (spec.below levels) operand.tree operand.at tokens.old) result tokens.new }
{
    tokens.pass();
    match tokens.kind() {
        Some(Kind::Mark(Mark::Between)) => between(alloc, tokens, levels, true, operand),
        Some(Kind::Mark(Mark::In)) => membership(alloc, tokens, true, operand),
        Some(Kind::Mark(Mark::Like)) => likeness(alloc, tokens, true, operand),
        _ => Err(tokens.stop(Cause::Expected)),
    }
}

/// What may follow the operand, where this mark does.
#[cycle(rules)]
fn tail(
    alloc: Global,
    tokens: &mut Cursor<'_>,
    levels: usize,
    operand: Operand,
    mark: Mark,
) -> Result<Tree, SyntaxFault>
    ensures { Reads (spec.tail levels (spec.below levels) operand.tree operand.at mark tokens.old) result tokens.new }
{
    if let Some(op) = comparison_of(mark) {
        return compared(alloc, tokens, levels, op, operand);
    }
    match mark {
        Mark::Between => between(alloc, tokens, levels, false, operand),
        Mark::In => membership(alloc, tokens, false, operand),
        Mark::Like => likeness(alloc, tokens, false, operand),
        Mark::Is => null_test(tokens, operand),
        Mark::Not => negated_tail(alloc, tokens, levels, operand),
        _ => Ok(operand.into_tree()),
    }
}

/// `sum [ tail ]`.
#[cycle(rules)]
#[tactic(auto, unfolding(jm_tree::specs::FaultOrder::tested))]
fn tested(alloc: Global, tokens: &mut Cursor<'_>, levels: usize) -> Result<Tree, SyntaxFault>
    ensures { Reads (spec.tested levels (spec.below levels) tokens.old) result tokens.new }
{
    let at = tokens.start();
    let tree = sum(alloc, tokens, levels)?;
    let operand = Operand { tree, at };
    match tokens.kind() {
        Some(Kind::Mark(mark)) => tail(alloc, tokens, levels, operand, *mark),
        _ => Ok(operand.into_tree()),
    }
}

/// `NOT condition | tested`.
#[cycle(rules)]
#[tactic(auto, using(crate::proofs::Levels::below_nots), unfolding(jm_tree::specs::FaultOrder::condition, jm_tree::specs::FaultOrder::denied, crate::specs::Nodes::denied))]
fn condition(alloc: Global, tokens: &mut Cursor<'_>, levels: usize) -> Result<Tree, SyntaxFault>
    ensures { Reads (spec.condition levels (spec.below levels) tokens.old) result tokens.new }
{
    if !tokens.sees(Mark::Not) {
        return tested(alloc, tokens, levels);
    }
    if levels == 0 {
        return Err(tokens.stop(Cause::TooDeep));
    }
    tokens.pass();
    let at = tokens.start();
    let tree = condition(alloc, tokens, levels - 1)?;
    denied_node(alloc, tokens, Operand { tree, at })
}

/// `condition { AND condition }`.
#[cycle(rules)]
#[tactic(auto, unfolding(jm_tree::specs::FaultOrder::both, jm_tree::specs::FaultOrder::chain))]
fn both(alloc: Global, tokens: &mut Cursor<'_>, levels: usize) -> Result<Tree, SyntaxFault>
    ensures { Reads (spec.both levels (spec.below levels) tokens.old) result tokens.new }
{
    let at = tokens.start();
    let tree = condition(alloc, tokens, levels)?;
    let first = Operand { tree, at };
    let mut own = first.no_truth();
    let mut rest = Vec::new(alloc);
    for _turn in 0..tokens.left() {
        if !tokens.eat(Mark::And) {
            return settle_all(tokens, first, rest, own);
        }
        let at = tokens.start();
        let tree = condition(alloc, tokens, levels)?;
        let operand = Operand { tree, at };
        own = or_else(own, operand.no_truth());
        push(&mut rest, operand.into_tree())?;
    }
    settle_all(tokens, first, rest, own)
}

/// `both { OR both }`.
#[cycle(rules)]
#[tactic(auto, unfolding(jm_tree::specs::FaultOrder::either, jm_tree::specs::FaultOrder::chain))]
pub(crate) fn either(
    alloc: Global,
    tokens: &mut Cursor<'_>,
    levels: usize,
) -> Result<Tree, SyntaxFault>
    ensures { Reads (spec.either levels (spec.below levels) tokens.old) result tokens.new }
{
    let at = tokens.start();
    let tree = both(alloc, tokens, levels)?;
    let first = Operand { tree, at };
    let mut own = first.no_truth();
    let mut rest = Vec::new(alloc);
    for _turn in 0..tokens.left() {
        if !tokens.eat(Mark::Or) {
            return settle_any(tokens, first, rest, own);
        }
        let at = tokens.start();
        let tree = both(alloc, tokens, levels)?;
        let operand = Operand { tree, at };
        own = or_else(own, operand.no_truth());
        push(&mut rest, operand.into_tree())?;
    }
    settle_any(tokens, first, rest, own)
}
