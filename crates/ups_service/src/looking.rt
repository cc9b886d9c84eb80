//! The asks that only look at steps, and their replies from rows.

ghost use Rattle.std.specs.Prelude.{◌≡◌, ◌<◌, ◌^◌, ℕ, List, [], true, length};
ghost use Rattle.ups_cycle.specs.declared.status.Status.TheVariants.{OutOfResources, ResourceLimitation};
ghost use Rattle.ups_life.specs.declared.entry.Entry.{Entry};
ghost use Rattle.ups_life.specs.declared.request.Ask.{Ask as Asked};
ghost use Rattle.ups_life.specs.declared.request.Reply.{Reply as Replied};
ghost use Rattle.ups_life.specs.declared.request.Reply.TheVariants.{Sets as Found};
ghost use Rattle.ups_life.specs.Settings.{Settings};
ghost use Rattle.ups_match.specs.Matching.{is_match};
ghost use Rattle.ups_rows.specs.Answering.{answers_among};
ghost use Rattle.ups_service.specs.Asked.{IsAsked};
ghost use Rattle.ups_service.specs.Law.{OrLacking, SmallReply, entered, lacking, reply_to};
ghost use Rattle.ups_service.specs.Looking.{is_look, rows_for, reply_from, shown_first};

use std::alloc::Allocator;
use ups_cycle::Status;
use ups_dataset::Tag;
use ups_life::{Ask, Reply, shown};
use ups_match::{Keys, Matcher, Probe};
use ups_rows::SharedRows;

/// Returns whether an ask only looks at steps: an N-GET, or a query.
pub fn is_look<A: Allocator + Copy>(ask: &Ask<A>) -> bool
    ensures { result ≡ is_look ask.now }
{
    match ask {
        Ask::Get { .. } | Ask::Find(_) => true,
        Ask::Do(_) | Ask::Pending { .. } => false,
    }
}

/// Returns the reply to an N-GET by the row of its step, if there is one (PS3.4 CC.2.7): C307 if there is none, and 0213
/// if memory runs out.
pub fn shown_first<A: Allocator + Copy>(rows: &SharedRows<A>, listed: &[Tag]) -> Reply<A>
    ensures answer { OrLacking ResourceLimitation (shown_first rows.now listed.now) result }
    ensures small { SmallReply (shown_first {A = A} rows.now listed.now) → SmallReply result }
{
    match rows.first() {
        Some(row) => match shown(row, listed) {
            Ok(reply) => reply,
            Err(_) => Reply::Status(Status::ResourceLimitation),
        },
        None => Reply::Status(Status::UnknownInstance),
    }
}

/// Returns the reply to a query from the rows of its class (PS3.4 sections CC.2.8 and C.4.1): the answers of those that a
/// matcher accepts, which is asked once about each; A700 if memory runs out.
pub fn found_among<A: Allocator + Copy, M: Matcher>(
    rows: &SharedRows<A>,
    keys: &Keys<A>,
    matcher: &mut M,
) -> Reply<A>
    requires count { M.asked matcher.old < 2 ^ 63 }
    ensures answer { OrLacking OutOfResources (Found (answers_among (M.says keys.now) keys.now.attributes rows.now)) result }
    ensures asked { IsAsked (M.asked matcher.old) (length rows.now) (M.asked matcher.new) result }
{
    match rows.answers(keys, matcher) {
        Ok(sets) => Reply::Sets(sets),
        Err(_) => Reply::Status(Status::OutOfResources),
    }
}

/// Returns the reply to an N-GET or a query from the rows on which it rests: lack of memory instead, if memory runs out.
/// It needs no service, and so no turn.
pub fn complete<A: Allocator + Copy>(ask: &Ask<A>, rows: &SharedRows<A>) -> Reply<A>
    requires look { is_look ask.now ≡ true }
    ensures answer { OrLacking (lacking ask.now) (reply_from rows.now ask.now) result }
    ensures small { SmallReply (reply_from rows.now ask.now) → SmallReply result }
{
    match ask {
        Ask::Get { attributes, .. } => shown_first(rows, attributes.as_slice()),
        Ask::Find(keys) => found_among(rows, keys, &mut Probe::new()),
        Ask::Do(_) | Ask::Pending { .. } => unreachable!(),
    }
}
