//! Tests of audited providers: a service that is generic in its provider's backend, over one that notes its calls and over one that
//! does not, by one thread and by two.
#![tactic(auto)]

#[cfg(test)]
mod alone;
#[cfg(test)]
mod noted;
#[cfg(test)]
mod service;
#[cfg(test)]
mod threads;
