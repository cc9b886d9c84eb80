//! Parses the words of the command line of `upsd` into titles, numbers, peers and watchers. This crate may not know
//! what is done with them: it makes no manager, session or connection, reads no input and writes no output.
#![tactic(auto)]

mod addresses;
mod compact;
mod fault;
mod history;
mod init;
mod options;
mod peers;
mod pipe;
mod program;
mod script;
mod server;
mod store;
mod times;
mod title;

pub use compact::{CompactArguments, compact_arguments};
pub use fault::ArgumentFault;
pub use history::{HistoryArguments, history_arguments};
pub use init::{InitArguments, init_arguments};
pub use peers::{PeerLine, peer_line};
pub use pipe::{PipeArguments, pipe_arguments};
pub use program::{VERSION, command, provenance};
pub use script::{ScriptArguments, reads_history, script_arguments};
pub use server::{ServeArguments, serve_arguments};
