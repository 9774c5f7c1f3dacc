ghost use Rattle.std.specs.Prelude.{◌≡◌, IfOk};
ghost use Rattle.jm_tree.specs.Input as input;
ghost use Rattle.jm_tree.specs.Sorts as sorts;

use crate::kinds::{fits_comparison, fits_number, fits_truth};
use jm_base::Boxed;
use jm_tree::{Comparison, Tree};
use std::alloc::{AllocError, Global};

/// An operand, and the offset at which it began. It is dropped by one call, so that a rule with
/// several ways out does not drop a tree, variant by variant, on each.
pub(crate) struct Operand {
    pub(crate) tree: Tree,
    pub(crate) at: usize,
}

impl Drop for Operand {
    fn drop(self) {
        let Operand { tree, at: _ } = self;
        drop(tree);
    }
}

/// The place, if the operand does not fit.
pub(crate) fn unless(fits: bool, at: usize) -> Option<usize>
    ensures { result ≡ input.unless fits at }
{
    if fits { None } else { Some(at) }
}

/// The first place, or the second where there is no first.
pub(crate) fn or_else(early: Option<usize>, late: Option<usize>) -> Option<usize>
    ensures { result ≡ input.or_else early late }
{
    match early {
        None => late,
        Some(at) => Some(at),
    }
}

impl Operand {
    /// The tree, moved out.
    pub(crate) fn into_tree(self) -> Tree
        ensures { result ≡ self.tree }
    {
        let Operand { tree, at: _ } = self;
        tree
    }

    /// The tree, moved into a box of its own. `AllocError` where a request for memory was refused.
    pub(crate) fn boxed(self, alloc: Global) -> Result<Boxed<Tree>, AllocError>
        ensures { IfOk result (λ boxed. boxed ≡ self.tree) }
    {
        Boxed::new(alloc, self.into_tree())
    }

    /// Where it began, if it is neither a number nor of any kind.
    pub(crate) fn no_number(&self) -> Option<usize>
        ensures { result ≡ input.unless (sorts.fits_number self.now.tree) self.now.at }
    {
        unless(fits_number(&self.tree), self.at)
    }

    /// Where it began, if it is neither a condition nor of any kind.
    pub(crate) fn no_truth(&self) -> Option<usize>
        ensures { result ≡ input.unless (sorts.fits_truth self.now.tree) self.now.at }
    {
        unless(fits_truth(&self.tree), self.at)
    }

    /// Where it began, if the comparison does not take it.
    pub(crate) fn not_for(&self, op: Comparison) -> Option<usize>
        ensures { result ≡ input.unless (sorts.fits_comparison op self.now.tree) self.now.at }
    {
        unless(fits_comparison(op, &self.tree), self.at)
    }
}
