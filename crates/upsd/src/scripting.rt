//! A script from a reader, and the replies to a writer.

ghost use Rattle.std.specs.Prelude.{◌≡◌, ◌≤◌, length, None};
ghost use Rattle.ups_settings.specs.Refusal.{refusal};
ghost use Rattle.ups_life.specs.Limits.{history_limit, peer_limit};

use crate::ending::{ExitStatus, script_status};
use std::alloc::AllocError;
use std::io::{self, BufReader, BufWriter};
use ups_args::ScriptArguments;
use ups_script::{run, run_history};

/// Answers a script from standard input, which may have the lines of a history too if `is_history`, prints its fault, and
/// returns how the program ends. An invalid line is also written among the replies.
///
/// Errors: lack of memory before it begins.
pub(crate) fn answer_script<R: Input + Print + Eprint + AllocGlobal>(
    rt: &R,
    asked: &ScriptArguments,
    is_history: bool,
) -> Result<ExitStatus, AllocError>
    requires few { length asked.now.peers.items ≤ peer_limit }
    requires allowed { refusal asked.now.peers.items asked.now.offset history_limit ≡ None }
{
    let alloc = rt.alloc();
    let Ok(mut reader) = BufReader::new(alloc, rt.reader()) else {
        return Err(AllocError);
    };
    let Ok(mut writer) = BufWriter::new(alloc, io::writer(rt)) else {
        return Err(AllocError);
    };
    let (peers, keep, offset) = (&asked.peers, asked.keep, asked.offset);
    let ended = if is_history {
        run_history(alloc, &mut reader, &mut writer, peers, keep, offset)
    } else {
        run(alloc, &mut reader, &mut writer, peers, keep, offset)
    };
    if let Err(fault) = &ended {
        let _ = eprintln!(rt; "upsd: {fault}");
    }
    Ok(script_status(&ended))
}
