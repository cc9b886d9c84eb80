//! The final steps on which no peer has a deletion lock, by the time at which they became final. They await a sweep
//! that removes them: the retention time is the profile's own, and a step with a deletion lock stays (PS3.4 CC.2.3).
#![tactic(auto)]

mod due;

pub use due::{Due, Final};
