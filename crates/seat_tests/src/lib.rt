//! Tests of passes to a desk as the services of sessions.
#![tactic(auto)]

#[cfg(test)]
mod seats;
#[cfg(test)]
mod sessions;
