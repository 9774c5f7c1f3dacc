ghost use Rattle.std.specs.Prelude.{◌≡◌};
ghost use Rattle.jm_eval.specs.Values as spec;

/// The value of a condition (Jakarta Messaging 3.1, section 3.8.1.2).
#[derive(Clone, Copy, Debug, PartialEq, Eq)]
pub enum Truth {
    /// The condition holds.
    True,
    /// The condition does not hold.
    False,
    /// A value that the condition rests on is not known, as that of a name that is not set or of a
    /// quotient by zero, and the rest does not settle it.
    Unknown,
}

/// The truth value of a test.
pub(crate) fn truth_of(test: bool) -> Truth
    ensures { result ≡ spec.truth_of test }
{
    if test { Truth::True } else { Truth::False }
}

/// NOT: UNKNOWN stays UNKNOWN.
pub(crate) fn not_of(truth: Truth) -> Truth
    ensures { result ≡ spec.not_of truth }
{
    match truth {
        Truth::True => Truth::False,
        Truth::False => Truth::True,
        Truth::Unknown => Truth::Unknown,
    }
}

/// NOT where the test is negated, else the truth value as it is.
pub(crate) fn negated_if(negated: bool, truth: Truth) -> Truth
    ensures { result ≡ spec.negated_if negated truth }
{
    if negated { not_of(truth) } else { truth }
}

/// AND: FALSE where one of both is FALSE, TRUE where both are TRUE, else UNKNOWN.
pub(crate) fn and_of(left: Truth, right: Truth) -> Truth
    ensures { result ≡ spec.and_of left right }
{
    match (left, right) {
        (Truth::False, _) | (_, Truth::False) => Truth::False,
        (Truth::True, Truth::True) => Truth::True,
        _ => Truth::Unknown,
    }
}

/// OR: TRUE where one of both is TRUE, FALSE where both are FALSE, else UNKNOWN.
pub(crate) fn or_of(left: Truth, right: Truth) -> Truth
    ensures { result ≡ spec.or_of left right }
{
    match (left, right) {
        (Truth::True, _) | (_, Truth::True) => Truth::True,
        (Truth::False, Truth::False) => Truth::False,
        _ => Truth::Unknown,
    }
}
