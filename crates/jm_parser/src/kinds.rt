ghost use Rattle.std.specs.Prelude.{◌≡◌};
ghost use Rattle.jm_tree.specs.Sorts as spec;

use jm_tree::{Comparison, Sort, Tree};

/// Whether an operand may be a number.
pub(crate) fn fits_number(tree: &Tree) -> bool
    ensures { result ≡ spec.fits_number tree.now }
{
    match tree.sort() {
        Sort::Number | Sort::Any => true,
        _ => false,
    }
}

/// Whether an operand may be a condition.
pub(crate) fn fits_truth(tree: &Tree) -> bool
    ensures { result ≡ spec.fits_truth tree.now }
{
    match tree.sort() {
        Sort::Truth | Sort::Any => true,
        _ => false,
    }
}

fn is_ordering(op: Comparison) -> bool
    ensures { result ≡ spec.is_ordering op }
{
    match op {
        Comparison::Equal | Comparison::NotEqual => false,
        _ => true,
    }
}

/// Whether the comparison takes the operand: `=` and `<>` take every kind.
pub(crate) fn fits_comparison(op: Comparison, tree: &Tree) -> bool
    ensures { result ≡ spec.fits_comparison op tree.now }
{
    if is_ordering(op) {
        fits_number(tree)
    } else {
        true
    }
}
