//! Selector texts and their trees.

use crate::parsed::{Parsed, tree_of};
use crate::told::{holds, is_text};
use jm_syntax::{Sort, SyntaxFault, Tree, law_fault, law_one_tree};
use std::alloc::{AllocError, Global};

/// The tree of the text as the derived form prints it, `none` where the text has no tokens, or the cause and the offset
/// of its fault.
fn shown(alloc: Global, text: &str) -> Result<String, AllocError> {
    match tree_of(alloc, text) {
        Ok(parsed) => shown_tree(alloc, &parsed),
        Err(SyntaxFault { at, cause }) => format!(in alloc; "{cause} at {at}"),
    }
}

fn shown_tree(alloc: Global, parsed: &Parsed) -> Result<String, AllocError> {
    match &parsed.tree {
        Some(tree) => format!(in alloc; "{tree:?}"),
        None => String::from_str(alloc, "none"),
    }
}

static TEXTS: [(&str, &str); 17] = [
    ("", "none"),
    (" \t\u{c}\n\r", "none"),
    ("x = ", "Expected at 4"),
    ("x", "Name(\"x\")"),
    ("(TRUE)", "Truth(true)"),
    ("NOT x", "Not(Boxed { inner: Name(\"x\") })"),
    (
        "x = 'it''s'",
        "Compare { op: Equal, left: Boxed { inner: Name(\"x\") }, right: Boxed { inner: Text(\"it's\") } }",
    ),
    (
        "n <= -9223372036854775808",
        "Compare { op: LessOrEqual, left: Boxed { inner: Name(\"n\") }, right: Boxed { inner: Num(-9223372036854775808) } }",
    ),
    (
        "+a <> -1",
        "Compare { op: NotEqual, left: Boxed { inner: Plus(Boxed { inner: Name(\"a\") }) }, right: Boxed { inner: Neg(Boxed { inner: Num(1) }) } }",
    ),
    (
        "1 + 2 - 3 > 4 * 5 / 6",
        "Compare { op: Greater, left: Boxed { inner: Sum { first: Boxed { inner: Num(1) }, rest: List { items: [(Plus, Num(2)), (Minus, Num(3))] } } }, right: Boxed { inner: Product { first: Boxed { inner: Num(4) }, rest: List { items: [(Times, Num(5)), (Divide, Num(6))] } } } }",
    ),
    (
        "s NOT BETWEEN 1 AND 2",
        "Between { negated: true, operand: Boxed { inner: Name(\"s\") }, low: Boxed { inner: Num(1) }, high: Boxed { inner: Num(2) } }",
    ),
    (
        "c NOT IN ('x', 'y')",
        "In { negated: true, name: \"c\", list: List { items: [\"x\", \"y\"] } }",
    ),
    (
        "a LIKE 'x_' ESCAPE '\\'",
        "Like { negated: false, name: \"a\", pattern: \"x_\", escape: Some('\\\\') }",
    ),
    (
        "b NOT LIKE 'y%'",
        "Like { negated: true, name: \"b\", pattern: \"y%\", escape: None }",
    ),
    ("c IS NOT NULL", "IsNull { negated: true, name: \"c\" }"),
    (
        "x OR y AND z",
        "AnyOf(List { items: [Name(\"x\"), All(List { items: [Name(\"y\"), Name(\"z\")] })] })",
    ),
    (
        "(x OR y) OR TRUE",
        "AnyOf(List { items: [AnyOf(List { items: [Name(\"x\"), Name(\"y\")] }), Truth(true)] })",
    ),
];

#[test]
fn trees_of_texts(rt: HostRuntime) {
    for (text, wanted) in &TEXTS {
        is_text(&rt, wanted, shown(rt.alloc(), text));
    }
}

/// Whether a copy of the tree equals it, also where there is none.
fn equals_its_copy(alloc: Global, parsed: &Parsed) -> bool {
    match parsed.copy(alloc) {
        Ok(copy) => copy.tree == parsed.tree,
        Err(_) => false,
    }
}

/// Whether a copy of the text's tree equals it; a text with no tree has none that differs.
fn is_copied(alloc: Global, text: &str) -> bool {
    match tree_of(alloc, text) {
        Ok(parsed) => equals_its_copy(alloc, &parsed),
        Err(_) => true,
    }
}

#[test]
fn copies_are_equal(rt: HostRuntime) {
    for (text, _) in &TEXTS {
        holds(&rt, text, is_copied(rt.alloc(), text));
    }
}

/// Whether the text has a tree of that sort.
fn is_sort(alloc: Global, text: &str, sort: Sort) -> bool {
    match tree_of(alloc, text) {
        Ok(parsed) => parsed.is_sort(sort),
        Err(_) => false,
    }
}

/// Texts, and the sorts of their trees.
static SORTS: [(&str, Sort); 3] = [
    ("x", Sort::Any),
    ("FALSE", Sort::Truth),
    ("NOT x", Sort::Truth),
];

#[test]
fn sorts_of_trees(rt: HostRuntime) {
    for (text, sort) in &SORTS {
        holds(&rt, text, is_sort(rt.alloc(), text, *sort));
    }
    holds(&rt, "1", Tree::Num(1).sort() == Sort::Number);
}

#[test]
fn laws_are_stated() {
    law_one_tree();
    law_fault();
}
