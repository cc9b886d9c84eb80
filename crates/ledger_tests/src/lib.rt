//! Tests of observers of a desk's history, and of ledgers to which it is committed.
#![tactic(auto)]

#[cfg(test)]
mod committing;
#[cfg(test)]
mod desk;
#[cfg(test)]
mod observing;
