//! The index of the held steps. By SOP Instance UID, patient ID, worklist label, station name code, state, priority and
//! start it finds the steps that a query may match (PS3.4 sections CC.2.8 and C.2.2.2), so that a find looks only at
//! these.
#![tactic(auto)]

mod exchanging;
mod index;
mod numbers;
mod posts;
mod slot_table;
mod slots;
mod storing;
mod values;

pub use index::Index;
pub use values::Values;
