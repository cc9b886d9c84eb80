//! Tests of the manager.
#![tactic(auto)]

#[cfg(test)]
mod manager;
