//! Tests of sessions of an embedded provider that listen: what is told of their listeners' answers, and a thread that sends what
//! another one's listener handles.
#![tactic(auto)]

#[cfg(test)]
mod answers;
#[cfg(test)]
mod desk;
#[cfg(test)]
mod threads;
