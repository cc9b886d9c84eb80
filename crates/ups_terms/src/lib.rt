//! The terms of the service under which a run enters requests: how long finished steps are kept, the local time, and
//! what the peers may do. A run notes them as text, so that a later one can tell whether its own permit as much.
#![tactic(auto)]

mod choices;
mod comparing;
mod lacking;
mod reading;
#[cfg(test)]
mod rows;
mod terms;
mod writing;

pub use choices::StartChoices;
pub use comparing::difference;
pub use lacking::Difference;
pub use reading::parse_terms;
pub use terms::{Terms, TermsFault};
pub use writing::terms_text;
