//! Tests of the crates that read and write bytes: PDUs, the state table of associations, data sets.
#![tactic(auto)]

#[cfg(test)]
mod dataset;
#[cfg(test)]
mod pdu;
#[cfg(test)]
mod refusing;
#[cfg(test)]
mod ulstate;
