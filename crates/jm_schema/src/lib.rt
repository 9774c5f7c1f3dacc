//! Whether two schemas of databases are the same.
//!
//! # Contract
//!
//! `same_schema`: true only of equal schemas; takes no memory.
#![tactic(auto)]

ghost use Rattle.std.specs.Prelude.{◌≡◌, IsTrue};

use sqlite_items::Items;
use sqlite_schema::code::{Op, Terms};
use sqlite_schema::schema::{Column, Index, Reference, Schema, Stamps, Table};
use sqlite_value::keys::Order;
use sqlite_value::value::{Bytes, Value};

/// Parts of schemas that can be told to be the same. Ours.
trait Same {
    /// Whether both are known to be the same. Two that this does not tell may be the same all the same: expressions are
    /// compared as they are stored, and a real number or a CASE is told of none.
    fn same(&self, other: &Self) -> bool
        ensures { IsTrue result → self.now ≡ other.now };
}

impl Same for usize {
    fn same(&self, other: &usize) -> bool {
        *self == *other
    }
}

impl Same for Order {
    fn same(&self, other: &Order) -> bool {
        self.digits == other.digits
    }
}

impl Same for Bytes {
    fn same(&self, other: &Bytes) -> bool {
        self.as_slice() == other.as_slice()
    }
}

fn same_each<T: Same>(a: &[T], b: &[T]) -> bool
    ensures { IsTrue result → a.now ≡ b.now }
{
    if a.len() != b.len() {
        return false;
    }
    for i in 0..a.len() {
        if !a[i].same(&b[i]) {
            return false;
        }
    }
    true
}

impl<T: Same> Same for Items<T> {
    fn same(&self, other: &Items<T>) -> bool {
        same_each(self.as_slice(), other.as_slice())
    }
}

impl Same for Value {
    fn same(&self, other: &Value) -> bool {
        match (self, other) {
            (Value::Null, Value::Null) => true,
            (Value::Int(a), Value::Int(b)) => *a == *b,
            (Value::Text(a), Value::Text(b)) => a.same(b),
            (Value::Blob(a), Value::Blob(b)) => a.same(b),
            _ => false,
        }
    }
}

impl Same for Op {
    fn same(&self, other: &Op) -> bool {
        match (self, other) {
            (Op::Literal(a), Op::Literal(b)) => a.same(b),
            (Op::Column(a, c), Op::Column(b, d)) => *a == *b && *c == *d,
            (Op::Unary(a, c), Op::Unary(b, d)) => *a == *b && *c == *d,
            (Op::Binary(a, c, e), Op::Binary(b, d, f)) => *a == *b && *c == *d && *e == *f,
            _ => false,
        }
    }
}

impl Same for Terms {
    fn same(&self, other: &Terms) -> bool {
        self.nodes.same(&other.nodes) && self.roots.same(&other.roots)
    }
}

impl Same for Column {
    fn same(&self, other: &Column) -> bool {
        self.name.same(&other.name)
            && self.kind == other.kind
            && self.is_strict == other.is_strict
            && self.not_null == other.not_null
            && self.default.same(&other.default)
            && self.collation == other.collation
    }
}

impl Same for Reference {
    fn same(&self, other: &Reference) -> bool {
        self.columns.same(&other.columns)
            && self.parent.same(&other.parent)
            && self.parent_columns.same(&other.parent_columns)
            && self.on_delete == other.on_delete
            && self.on_update == other.on_update
            && self.is_deferred == other.is_deferred
    }
}

impl Same for Stamps {
    fn same(&self, other: &Stamps) -> bool {
        self.places.same(&other.places)
            && self.terms.same(&other.terms)
            && self.formats.same(&other.formats)
    }
}

/// Whether the tables have the same columns and keys.
fn same_columns(a: &Table, b: &Table) -> bool
    ensures columns { IsTrue result → a.now.columns ≡ b.now.columns }
    ensures key { IsTrue result → a.now.key ≡ b.now.key }
    ensures primary { IsTrue result → a.now.primary ≡ b.now.primary }
    ensures uniques { IsTrue result → a.now.uniques ≡ b.now.uniques }
    ensures orders { IsTrue result → a.now.orders ≡ b.now.orders }
{
    a.columns.same(&b.columns)
        && a.key == b.key
        && a.primary.same(&b.primary)
        && a.uniques.same(&b.uniques)
        && a.orders.same(&b.orders)
}

/// Whether the tables have the same rules.
fn same_rules(a: &Table, b: &Table) -> bool
    ensures checks { IsTrue result → a.now.checks ≡ b.now.checks }
    ensures references { IsTrue result → a.now.references ≡ b.now.references }
    ensures computed { IsTrue result → a.now.computed ≡ b.now.computed }
    ensures stamps { IsTrue result → a.now.stamps ≡ b.now.stamps }
    ensures counted { IsTrue result → a.now.is_counted ≡ b.now.is_counted }
{
    a.checks.same(&b.checks)
        && a.references.same(&b.references)
        && a.computed.same(&b.computed)
        && a.stamps.same(&b.stamps)
        && a.is_counted == b.is_counted
}

impl Same for Table {
    fn same(&self, other: &Table) -> bool {
        self.name.same(&other.name)
            && self.tree == other.tree
            && same_columns(self, other)
            && same_rules(self, other)
    }
}

impl Same for Index {
    fn same(&self, other: &Index) -> bool {
        self.name.same(&other.name)
            && self.tree == other.tree
            && self.table == other.table
            && self.columns.same(&other.columns)
            && self.order.same(&other.order)
            && self.is_unique == other.is_unique
    }
}

/// Whether both schemas are known to be the same, table by table and index by index, and have no views. Takes no memory.
/// Two that differ are never told to be the same; of two that are the same, `false` is answered where they have a view, a
/// trigger or a foreign object, or where an expression of theirs is stored in another way. Ours.
pub fn same_schema(a: &Schema, b: &Schema) -> bool
    ensures { IsTrue result → a.now ≡ b.now }
{
    a.tables.same(&b.tables)
        && a.indexes.same(&b.indexes)
        && a.views.is_empty()
        && b.views.is_empty()
}
