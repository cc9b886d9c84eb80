//! The matching of keys (PS3.4 section C.2.2.2), and moments as text: reading and writing the value representation DT
//! (PS3.5 section 6.2).
#![tactic(auto)]

mod digits;
mod fault;
mod faults;
mod first;
mod indexed;
mod key_tag;
mod keys;
mod lanes;
mod likeness;
mod matcher;
mod matching;
mod meeting;
mod moments;
mod patterns;
mod prepared;
mod preparing;
mod ranges;
mod rule;
mod runs;
mod stamps;
mod texts;
mod uids;
mod universal;

pub use fault::KeyFault;
pub use first::First;
pub use indexed::{INDEXED, Indexed, KeyKind, indexed_keys_are_those_defined};
pub use keys::Keys;
pub use likeness::likes;
pub use matcher::{Matcher, Probe};
pub use moments::read_dt;
pub use ranges::Span;
pub use stamps::{stamps_are_read_back, write_dt};
