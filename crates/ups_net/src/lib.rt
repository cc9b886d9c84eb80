//! The threads of a server, each with a pass of one desk: workers that share a listener, deliverers and the sweeper, and
//! what they share.
//!
//! Nothing is promised about what a socket carries, or when: a contract here says what becomes of the passes, whatever
//! was read. No contract covers time limits or the start of a round.
#![tactic(auto)]

mod address_book;
mod bell;
mod clock;
mod committer;
mod counted;
mod delivering;
mod giving_up;
mod inspected;
mod monitor;
mod moving;
mod numbers;
mod options;
mod publisher;
mod roster;
mod seeing;
mod server_state;
mod serving;
mod site;
mod supervision;
mod sweeping;
mod tender;
mod workers;

pub use address_book::{AddressBook, NoBook};
pub use clock::HostClock;
pub use delivering::deliver_rounds;
pub use options::{MetricsFile, ServerOptions};
pub use roster::{Roster, Share, is_passed_over, longer_pause, may_take, share_of};
pub use server_state::ServerState;
pub use serving::serve_one;
pub use site::Site;
pub use sweeping::sweep;
pub use ups_peers::Watcher;
pub use workers::{run, work};
