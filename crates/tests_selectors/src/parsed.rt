//! The tree of a text.

use jm_syntax::{Sort, SyntaxFault, Tree, parse};
use std::alloc::{AllocError, Global};

/// The tree of a text that has tokens. It is dropped by one call, so that a function with several ways out does not drop
/// a tree, variant by variant, on each.
pub(crate) struct Parsed {
    pub(crate) tree: Option<Tree>,
}

impl Drop for Parsed {
    fn drop(self) {
        let Parsed { tree } = self;
        drop(tree);
    }
}

impl Parsed {
    pub(crate) fn copy(&self, alloc: Global) -> Result<Parsed, AllocError> {
        match &self.tree {
            None => Ok(Parsed { tree: None }),
            Some(tree) => copy(alloc, tree),
        }
    }

    pub(crate) fn is_sort(&self, sort: Sort) -> bool {
        match &self.tree {
            None => false,
            Some(tree) => tree.sort() == sort,
        }
    }
}

fn copy(alloc: Global, tree: &Tree) -> Result<Parsed, AllocError> {
    match tree.copy(alloc) {
        Ok(tree) => Ok(Parsed { tree: Some(tree) }),
        Err(error) => Err(error),
    }
}

/// The tree of the text, none where it has no tokens.
pub(crate) fn tree_of(alloc: Global, text: &str) -> Result<Parsed, SyntaxFault> {
    match parse(alloc, text) {
        Ok(tree) => Ok(Parsed { tree }),
        Err(fault) => Err(fault),
    }
}
