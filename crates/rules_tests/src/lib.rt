//! Tests of the rules of the service: matching, the life cycle of steps, event reports.
#![tactic(auto)]

#[cfg(test)]
mod events;
#[cfg(test)]
mod life;
#[cfg(test)]
mod matching;
