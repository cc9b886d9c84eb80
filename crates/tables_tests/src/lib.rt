//! Tests of the live tables: the steps held and their index, subscriptions, the queues of events, and the steps that
//! wait to be removed.
#![tactic(auto)]

#[cfg(test)]
mod held;
#[cfg(test)]
mod index;
#[cfg(test)]
mod parts;
#[cfg(test)]
mod queues;
#[cfg(test)]
mod steps;
#[cfg(test)]
mod subscriptions;
#[cfg(test)]
mod waiting;
