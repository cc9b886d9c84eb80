//! Tests of the journal: what is recorded of a request, what is read from a record, and what records restore.
#![tactic(auto)]

#[cfg(test)]
mod days;
#[cfg(test)]
mod lines;
#[cfg(test)]
mod operations;
#[cfg(test)]
mod recorded;
#[cfg(test)]
mod restored;
#[cfg(test)]
mod scripted;
#[cfg(test)]
mod short;
#[cfg(test)]
mod spoilt;
