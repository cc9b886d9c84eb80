//! Tests of a ledger in a store whose disk fails: over files in memory, calls fail alone, in pairs, and append by append.
//! Whatever fails, the store has the requests of the history, each once and in their order, and a crash at any of these
//! moments leaves a beginning of it with all that was told committed.
#![tactic(auto)]

#[cfg(test)]
mod appends;
#[cfg(test)]
mod bench;
#[cfg(test)]
mod bench_disk;
#[cfg(test)]
mod calls;
#[cfg(test)]
mod contents;
#[cfg(test)]
mod course;
#[cfg(test)]
mod failing;
#[cfg(test)]
mod keeping;
#[cfg(test)]
mod place;
#[cfg(test)]
mod plan;
#[cfg(test)]
mod recovering;
