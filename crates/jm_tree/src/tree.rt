ghost use Rattle.std.specs.Prelude.{◌≡◌, IfOk};

use crate::identifier::Identifier;
use crate::pattern::Pattern;
use crate::texts::Texts;
use jm_base::{Boxed, List, Str};
use std::alloc::{AllocError, Global};

/// How two operands are compared.
#[derive(Clone, Copy, Debug, PartialEq, Eq)]
pub enum Comparison {
    /// `=`.
    Equal,
    /// `<>`.
    NotEqual,
    /// `<`.
    Less,
    /// `<=`.
    LessOrEqual,
    /// `>`.
    Greater,
    /// `>=`.
    GreaterOrEqual,
}

/// An operator of a sum.
#[derive(Clone, Copy, Debug, PartialEq, Eq)]
pub enum Additive {
    /// `+`.
    Plus,
    /// `-`.
    Minus,
}

/// An operator of a product.
#[derive(Clone, Copy, Debug, PartialEq, Eq)]
pub enum Multiplicative {
    /// `*`.
    Times,
    /// `/`.
    Divide,
}

/// A selector as a tree. Parentheses leave no node.
#[derive(Debug, Drop, PartialEq)]
pub enum Tree {
    /// A whole number.
    Num(i64),
    /// A text.
    Text(Str),
    /// `TRUE` or `FALSE`.
    Truth(bool),
    /// An identifier.
    Name(Identifier),
    /// A unary plus.
    Plus(Boxed<Tree>),
    /// A unary minus.
    Neg(Boxed<Tree>),
    /// A chain of `+` and `-`; `rest` is not empty.
    Sum {
        first: Boxed<Tree>,
        rest: List<(Additive, Tree)>,
    },
    /// A chain of `*` and `/`; `rest` is not empty.
    Product {
        first: Boxed<Tree>,
        rest: List<(Multiplicative, Tree)>,
    },
    /// A comparison.
    Compare {
        op: Comparison,
        left: Boxed<Tree>,
        right: Boxed<Tree>,
    },
    /// `[NOT] BETWEEN`.
    Between {
        negated: bool,
        operand: Boxed<Tree>,
        low: Boxed<Tree>,
        high: Boxed<Tree>,
    },
    /// `[NOT] IN`; `list` is not empty, and keeps the set of its texts.
    In {
        negated: bool,
        name: Identifier,
        list: Texts,
    },
    /// `[NOT] LIKE`; `pattern` keeps its items with this escape character.
    Like {
        negated: bool,
        name: Identifier,
        pattern: Pattern,
        escape: Option<char>,
    },
    /// `IS [NOT] NULL`.
    IsNull {
        negated: bool,
        name: Identifier,
    },
    /// `NOT`.
    Not(Boxed<Tree>),
    /// A chain of `AND` of at least two members.
    All(List<Tree>),
    /// A chain of `OR` of at least two members.
    AnyOf(List<Tree>),
}

impl Tree {
    /// An equal tree. `AllocError` where a request for memory was refused.
    #[cycle(copy)]
    pub fn copy(&self, alloc: Global) -> Result<Tree, AllocError>
        ensures { IfOk result (λ copy. copy ≡ self.now) }
    {
        Ok(match self {
            Tree::Num(number) => Tree::Num(*number),
            Tree::Text(text) => Tree::Text(text.copy()?),
            Tree::Truth(truth) => Tree::Truth(*truth),
            Tree::Name(name) => Tree::Name(name.copy()?),
            Tree::Plus(operand) => Tree::Plus(copy_boxed(alloc, operand)?),
            Tree::Neg(operand) => Tree::Neg(copy_boxed(alloc, operand)?),
            Tree::Sum { first, rest } => Tree::Sum {
                first: copy_boxed(alloc, first)?,
                rest: copy_addends(alloc, rest.as_slice())?,
            },
            Tree::Product { first, rest } => Tree::Product {
                first: copy_boxed(alloc, first)?,
                rest: copy_factors(alloc, rest.as_slice())?,
            },
            Tree::Compare { op, left, right } => copy_comparison(alloc, *op, left, right)?,
            Tree::Not(operand) => Tree::Not(copy_boxed(alloc, operand)?),
            Tree::All(members) => Tree::All(copy_members(alloc, members.as_slice())?),
            Tree::AnyOf(members) => Tree::AnyOf(copy_members(alloc, members.as_slice())?),
            Tree::Between {
                negated,
                operand,
                low,
                high,
            } => copy_between(alloc, *negated, operand, low, high)?,
            Tree::In {
                negated,
                name,
                list,
            } => copy_in(*negated, name, list)?,
            Tree::Like {
                negated,
                name,
                pattern,
                escape,
            } => copy_like(alloc, *negated, name, pattern, *escape)?,
            Tree::IsNull { negated, name } => copy_is_null(*negated, name)?,
        })
    }
}

#[cycle(copy)]
fn copy_boxed(alloc: Global, tree: &Boxed<Tree>) -> Result<Boxed<Tree>, AllocError>
    ensures { IfOk result (λ copy. copy ≡ tree.now) }
{
    Boxed::new(alloc, tree.get().copy(alloc)?)
}

#[cycle(copy)]
fn copy_comparison(
    alloc: Global,
    op: Comparison,
    left: &Boxed<Tree>,
    right: &Boxed<Tree>,
) -> Result<Tree, AllocError>
    ensures { IfOk result (λ copy. copy ≡ Tree.Compare op left.now right.now) }
{
    Ok(Tree::Compare {
        op,
        left: copy_boxed(alloc, left)?,
        right: copy_boxed(alloc, right)?,
    })
}

#[cycle(copy)]
fn copy_between(
    alloc: Global,
    negated: bool,
    operand: &Boxed<Tree>,
    low: &Boxed<Tree>,
    high: &Boxed<Tree>,
) -> Result<Tree, AllocError>
    ensures { IfOk result (λ copy. copy ≡ Tree.Between negated operand.now low.now high.now) }
{
    Ok(Tree::Between {
        negated,
        operand: copy_boxed(alloc, operand)?,
        low: copy_boxed(alloc, low)?,
        high: copy_boxed(alloc, high)?,
    })
}

fn copy_in(negated: bool, name: &Identifier, list: &Texts) -> Result<Tree, AllocError>
    ensures { IfOk result (λ copy. copy ≡ Tree.In negated name.now list.now) }
{
    Ok(Tree::In {
        negated,
        name: name.copy()?,
        list: list.copy()?,
    })
}

fn copy_like(
    alloc: Global,
    negated: bool,
    name: &Identifier,
    pattern: &Pattern,
    escape: Option<char>,
) -> Result<Tree, AllocError>
    ensures { IfOk result (λ copy. copy ≡ Tree.Like negated name.now pattern.now escape) }
{
    Ok(Tree::Like {
        negated,
        name: name.copy()?,
        pattern: pattern.copy(alloc)?,
        escape,
    })
}

fn copy_is_null(negated: bool, name: &Identifier) -> Result<Tree, AllocError>
    ensures { IfOk result (λ copy. copy ≡ Tree.IsNull negated name.now) }
{
    Ok(Tree::IsNull {
        negated,
        name: name.copy()?,
    })
}

#[cycle(copy)]
fn copy_members(alloc: Global, members: &[Tree]) -> Result<List<Tree>, AllocError>
    ensures { IfOk result (λ copy. copy ≡ members.now) }
{
    let mut copies = Vec::new(alloc);
    for member in members {
        copies.push(member.copy(alloc)?)?;
    }
    Ok(List::new(copies))
}

#[cycle(copy)]
fn copy_addends(
    alloc: Global,
    addends: &[(Additive, Tree)],
) -> Result<List<(Additive, Tree)>, AllocError>
    ensures { IfOk result (λ copy. copy ≡ addends.now) }
{
    let mut copies = Vec::new(alloc);
    for addend in addends {
        copies.push((addend.0, addend.1.copy(alloc)?))?;
    }
    Ok(List::new(copies))
}

#[cycle(copy)]
fn copy_factors(
    alloc: Global,
    factors: &[(Multiplicative, Tree)],
) -> Result<List<(Multiplicative, Tree)>, AllocError>
    ensures { IfOk result (λ copy. copy ≡ factors.now) }
{
    let mut copies = Vec::new(alloc);
    for factor in factors {
        copies.push((factor.0, factor.1.copy(alloc)?))?;
    }
    Ok(List::new(copies))
}
