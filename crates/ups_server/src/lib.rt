//! A server as requested by a command line: its manager, desk and threads, from the door on which it listens until each
//! thread has done as much as it should. `ups_args` parses the words of the command line.
#![tactic(auto)]

mod checking;
mod opener;
mod serving;
mod telling;

pub use checking::check_words;
pub use opener::{StoreOpener, Unopened};
pub use serving::{ClosedServer, RanServer, answer_network, serve_words};
pub use ups_net::{AddressBook, NoBook};
