//! Tests of the crates that make messages: associations and their fragments, command sets.
#![tactic(auto)]

#[cfg(test)]
mod assoc;
#[cfg(test)]
mod dimse;
#[cfg(test)]
mod rows;
