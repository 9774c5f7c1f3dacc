ghost use Rattle.std.specs.Prelude.{◌≡◌};
ghost use Rattle.jm_tree.specs.Sorts as spec;

use crate::tree::Tree;

/// What a tree may stand for as an operand (Jakarta Messaging 3.1, section 3.8.1.3).
#[derive(Clone, Copy, Debug, PartialEq, Eq)]
pub enum Sort {
    /// A number: a number itself and arithmetic.
    Number,
    /// A text: a text itself.
    Text,
    /// A truth value: a truth value itself, and every test and condition.
    Truth,
    /// Anything: an identifier.
    Any,
}

impl Tree {
    /// What the tree may stand for. Takes no memory.
    #[tactic(auto, unfolding(crate::specs::Sorts::sort_of))]
    pub fn sort(&self) -> Sort
        ensures { result ≡ spec.sort_of self.now }
    {
        match self {
            Tree::Num(_) | Tree::Plus(_) | Tree::Neg(_) | Tree::Sum { .. } | Tree::Product { .. } =>
                Sort::Number,
            Tree::Text(_) => Sort::Text,
            Tree::Name(_) => Sort::Any,
            _ => Sort::Truth,
        }
    }
}
