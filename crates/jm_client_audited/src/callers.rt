//! Who called, in the order of their first calls.

ghost use Rattle.std.specs.Prelude.{◌≡◌};
ghost use Rattle.jm_client_audited.specs.Callers as spec;

use jm_machine::Who;
use jm_machine::find::same_session;

/// Whether both are the same connection, or the same session.
fn is_who(a: &Who, b: &Who) -> bool
    ensures { result ≡ spec.who_eq a.now b.now }
{
    match (a, b) {
        (Who::Connection(a), Who::Connection(b)) => a == b,
        (Who::Session(a), Who::Session(b)) => same_session(a, b),
        (Who::Connection(_), Who::Session(_)) | (Who::Session(_), Who::Connection(_)) => false,
    }
}

/// The place of the caller, or the number of callers, where it is none of them. Takes no memory.
pub(crate) fn place_of(callers: &[Who], who: &Who) -> usize
    ensures { result ≡ spec.place_of callers.now who.now }
{
    for place in 0..callers.len() {
        if is_who(&callers[place], who) {
            return place;
        }
    }
    callers.len()
}
