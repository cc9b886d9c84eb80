//! The argument of `init`.

ghost use Rattle.std.specs.Prelude.{◌≡◌, [], codes, unwrap_or};
ghost use Rattle.clap.specs.Matches.{first_value, found_of};

use crate::store::store_word;
use clap::{ArgMatches, Command};
use std::alloc::{AllocError, Global};

/// Returns the command line of `upsd init`.
pub(crate) fn init_command<'a>(alloc: Global) -> Result<Command<'a>, AllocError> {
    Command::new(alloc, "init")
        .about("makes a store without requests, in a file that is missing or blank")
        .arg(store_word(alloc, "the file of the new store"))
}

/// The argument of `init`.
#[derive(Clone, Copy)]
pub struct InitArguments<'a> {
    /// The file of the new store.
    pub store: &'a str,
}

/// Returns the argument of `init`.
pub fn init_arguments<'a>(matches: &ArgMatches<'a>) -> InitArguments<'a>
    ensures store { result.store.now ≡ unwrap_or (first_value (found_of matches.now) (codes "store")) [] }
{
    InitArguments {
        store: matches.get_str("store").unwrap_or(""),
    }
}
