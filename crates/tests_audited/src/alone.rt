//! The service by one thread.

ghost use Rattle.std.specs.Prelude.{◌≡◌, ◌^◌};

use crate::noted::is_noted;
use crate::service::{holds, serve};
use jm_client::{Error, Provider};
use jm_client_audited::{Audited, PARTS, in_memory};
use jm_keep::NoKeep;
use std::alloc::Global;
use std::marker::Brand;
use std::sync::Wait;
use std::sync::ledger::{Blank, Ledger};
use std::time::Clock;

/// What each call of the service is told. A send in a transaction is none until the commit.
static TOLD: [&str; 14] = [
    "ok", // opens the connection
    "ok", // starts it
    "ok", // opens the session
    "ok", // makes the consumer
    "ok", // commits the order
    "one bicycle#1", // takes it
    "ok", // rolls back
    "one bicycle#2", // takes it again
    "ok", // commits
    "none", // takes nothing
    "IllegalState", // recovers in a transacted session
    "ok", // drops the consumer
    "ok", // drops the session
    "ok", // drops the connection
];

/// Whether the service, over an audited provider, is told the same, and each call is noted.
fn is_audited<L: Ledger, R: Wait + Clock>(rt: &R, alloc: Global, blank: Blank) -> bool
    requires name { blank.name ≡ L.name }
    requires parts { (blank.parts ≡ L.parts) × (blank.parts ≡ 2 ^ 33) }
{
    let made: Result<Provider<'_, R, Audited<NoKeep, L>>, Error> = in_memory(rt, alloc, blank);
    match made {
        Ok(provider) => {
            let came = serve(&provider);
            let finished = provider.into_backend().finish();
            matches!(came, Ok(2)) && is_noted(alloc, &finished, &TOLD)
        }
        Err(_) => false,
    }
}

/// Whether nothing is noted of a provider that nobody calls.
fn is_empty<L: Ledger, R: Wait + Clock>(rt: &R, alloc: Global, blank: Blank) -> bool
    requires name { blank.name ≡ L.name }
    requires parts { (blank.parts ≡ L.parts) × (blank.parts ≡ 2 ^ 33) }
{
    let made: Result<Provider<'_, R, Audited<NoKeep, L>>, Error> = in_memory(rt, alloc, blank);
    match made {
        Ok(provider) => is_noted(alloc, &provider.into_backend().finish(), &[]),
        Err(_) => false,
    }
}

#[test]
fn a_service_is_audited(rt: HostRuntime) {
    let is_right = is_audited::<Brand, _>(&rt, rt.alloc(), Blank::new(PARTS));
    holds(&rt, "with the audit", is_right);
}

#[test]
fn a_service_runs_without_the_audit(rt: HostRuntime) {
    let provider = Provider::in_memory(&rt, rt.alloc());
    let is_right = matches!(serve(&provider), Ok(2));
    holds(&rt, "without the audit", is_right);
}

#[test]
fn nothing_is_noted_of_no_call(rt: HostRuntime) {
    let is_right = is_empty::<Brand, _>(&rt, rt.alloc(), Blank::new(PARTS));
    holds(&rt, "no call", is_right);
}
