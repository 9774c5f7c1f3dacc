ghost use Rattle.std.specs.Prelude.{◌≡◌, ◌+ℤ◌, ◌-ℤ◌, ◌*ℤ◌, neg_ℤ};
ghost use Rattle.jm_eval.specs.Values as spec;

#[tactic(auto, using(crate::proofs::Bounds::bounded_some, crate::proofs::Bounds::bounded_none))]
pub(crate) fn sum_of(a: i64, b: i64) -> Option<i64>
    ensures { result ≡ spec.bounded (a +ℤ b) }
{
    match a.checked_add(b) {
        Some(sum) => Some(sum),
        None => None,
    }
}

#[tactic(auto, using(crate::proofs::Bounds::bounded_some, crate::proofs::Bounds::bounded_none))]
pub(crate) fn difference_of(a: i64, b: i64) -> Option<i64>
    ensures { result ≡ spec.bounded (a -ℤ b) }
{
    match a.checked_sub(b) {
        Some(difference) => Some(difference),
        None => None,
    }
}

#[tactic(auto, using(crate::proofs::Bounds::bounded_some, crate::proofs::Bounds::bounded_none))]
pub(crate) fn product_of(a: i64, b: i64) -> Option<i64>
    ensures { result ≡ spec.bounded (a *ℤ b) }
{
    match a.checked_mul(b) {
        Some(product) => Some(product),
        None => None,
    }
}

#[tactic(auto, using(crate::proofs::Bounds::bounded_some, crate::proofs::Bounds::bounded_none))]
pub(crate) fn quotient_of(a: i64, b: i64) -> Option<i64>
    ensures { result ≡ spec.quotient a b }
{
    match a.checked_div(b) {
        Some(quotient) => Some(quotient),
        None => None,
    }
}

#[tactic(auto, using(crate::proofs::Bounds::bounded_some, crate::proofs::Bounds::bounded_none))]
pub(crate) fn negative_of(a: i64) -> Option<i64>
    ensures { result ≡ spec.bounded (neg_ℤ a) }
{
    match a.checked_neg() {
        Some(negative) => Some(negative),
        None => None,
    }
}
