ghost use Rattle.std.specs.Prelude.{◌≡◌, ◌∷◌, IfOk};
ghost use Rattle.jm_parser.specs.Nodes as nodes;
ghost use Rattle.jm_tree.specs.FaultOrder as spec;
ghost use Rattle.jm_tree.specs.Input.{Reads};

use crate::cursor::Cursor;
use crate::operand::Operand;
use jm_base::List;
use jm_lexer::SyntaxFault;
use jm_tree::{Additive, Comparison, Multiplicative, Tree};
use std::alloc::{AllocError, Global};

/// A sign, after its operand.
#[tactic(auto, unfolding(crate::specs::Nodes::signed))]
pub(crate) fn signed_node(
    alloc: Global,
    tokens: &mut Cursor<'_>,
    sign: Additive,
    operand: Operand,
) -> Result<Tree, SyntaxFault>
    ensures { Reads (nodes.signed sign operand.tree operand.at tokens.old) result tokens.new }
{
    tokens.note(operand.no_number());
    let operand = operand.boxed(alloc)?;
    Ok(match sign {
        Additive::Plus => Tree::Plus(operand),
        Additive::Minus => Tree::Neg(operand),
    })
}

/// NOT, after its operand.
#[tactic(auto, unfolding(crate::specs::Nodes::denied))]
pub(crate) fn denied_node(
    alloc: Global,
    tokens: &mut Cursor<'_>,
    operand: Operand,
) -> Result<Tree, SyntaxFault>
    ensures { Reads (nodes.denied operand.tree operand.at tokens.old) result tokens.new }
{
    tokens.note(operand.no_truth());
    Ok(Tree::Not(operand.boxed(alloc)?))
}

/// A comparison, after its operands.
#[tactic(auto, unfolding(crate::specs::Nodes::compared))]
pub(crate) fn compared_node(
    alloc: Global,
    tokens: &mut Cursor<'_>,
    op: Comparison,
    left: Operand,
    right: Operand,
) -> Result<Tree, SyntaxFault>
    ensures { Reads (nodes.compared op left.tree left.at right.tree right.at tokens.old) result tokens.new }
{
    tokens.note(left.not_for(op));
    tokens.note(right.not_for(op));
    Ok(Tree::Compare {
        op,
        left: left.boxed(alloc)?,
        right: right.boxed(alloc)?,
    })
}

/// BETWEEN, after its operands.
#[tactic(auto, unfolding(crate::specs::Nodes::ranged))]
pub(crate) fn ranged_node(
    alloc: Global,
    tokens: &mut Cursor<'_>,
    negated: bool,
    operand: Operand,
    low: Operand,
    high: Operand,
) -> Result<Tree, SyntaxFault>
    ensures { Reads (nodes.ranged negated operand.tree operand.at low.tree low.at high.tree high.at tokens.old) result tokens.new }
{
    tokens.note(operand.no_number());
    tokens.note(low.no_number());
    tokens.note(high.no_number());
    Ok(Tree::Between {
        negated,
        operand: operand.boxed(alloc)?,
        low: low.boxed(alloc)?,
        high: high.boxed(alloc)?,
    })
}

/// One operand stands for itself.
#[tactic(auto, unfolding(jm_tree::specs::FaultOrder::settle))]
pub(crate) fn settle_product(
    alloc: Global,
    tokens: &mut Cursor<'_>,
    first: Operand,
    rest: Vec<(Multiplicative, Tree)>,
    own: Option<usize>,
) -> Result<Tree, SyntaxFault>
    ensures { Reads (spec.settle Tree.Product first.tree rest.items own tokens.old) result tokens.new }
{
    if rest.is_empty() {
        return Ok(first.into_tree());
    }
    tokens.note(own);
    Ok(Tree::Product {
        first: first.boxed(alloc)?,
        rest: List::new(rest),
    })
}

/// One operand stands for itself.
#[tactic(auto, unfolding(jm_tree::specs::FaultOrder::settle))]
pub(crate) fn settle_sum(
    alloc: Global,
    tokens: &mut Cursor<'_>,
    first: Operand,
    rest: Vec<(Additive, Tree)>,
    own: Option<usize>,
) -> Result<Tree, SyntaxFault>
    ensures { Reads (spec.settle Tree.Sum first.tree rest.items own tokens.old) result tokens.new }
{
    if rest.is_empty() {
        return Ok(first.into_tree());
    }
    tokens.note(own);
    Ok(Tree::Sum {
        first: first.boxed(alloc)?,
        rest: List::new(rest),
    })
}

/// The members of a chain, `first` in front.
fn members(first: Tree, rest: Vec<Tree>) -> Result<List<Tree>, AllocError>
    ensures { IfOk result (λ members. members ≡ first ∷ rest.items) }
{
    let mut members = rest;
    members.insert(0, first)?;
    Ok(List::new(members))
}

/// One operand stands for itself.
#[tactic(auto, unfolding(jm_tree::specs::FaultOrder::settle))]
pub(crate) fn settle_all(
    tokens: &mut Cursor<'_>,
    first: Operand,
    rest: Vec<Tree>,
    own: Option<usize>,
) -> Result<Tree, SyntaxFault>
    ensures { Reads (spec.settle (λ x xs. Tree.All (x ∷ xs)) first.tree rest.items own tokens.old) result tokens.new }
{
    if rest.is_empty() {
        return Ok(first.into_tree());
    }
    tokens.note(own);
    Ok(Tree::All(members(first.into_tree(), rest)?))
}

/// One operand stands for itself.
#[tactic(auto, unfolding(jm_tree::specs::FaultOrder::settle))]
pub(crate) fn settle_any(
    tokens: &mut Cursor<'_>,
    first: Operand,
    rest: Vec<Tree>,
    own: Option<usize>,
) -> Result<Tree, SyntaxFault>
    ensures { Reads (spec.settle (λ x xs. Tree.AnyOf (x ∷ xs)) first.tree rest.items own tokens.old) result tokens.new }
{
    if rest.is_empty() {
        return Ok(first.into_tree());
    }
    tokens.note(own);
    Ok(Tree::AnyOf(members(first.into_tree(), rest)?))
}
