//! Tests of compaction: a day of requests, what is left of it, and what is pending before and after.
#![tactic(auto)]

#[cfg(test)]
mod day;
#[cfg(test)]
mod memory;
