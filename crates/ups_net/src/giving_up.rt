//! What a deliverer does with the event reports that wait for a watcher beyond its limit: it gives up the oldest.

ghost use Rattle.std.specs.Prelude.{◌≡◌, ◌≤◌, ◌⊎◌, option_map};
ghost use Rattle.ups_net.specs.GivingUp.{Acknowledges, AsksOldest, CountsExcess, GivesUp, KeepsWithin, last_event};

use crate::delivering::Recipient;
use crate::roster::Roster;
use crate::site::Site;
use std::alloc::Global;
use std::sync::Wait;
use std::time::Clock;
use ups_cycle::Status;
use ups_ledger::Keeping;
use ups_life::{Ask, EventReport, Reply, Request};
use ups_log::moment_of;
use ups_pdu::Ae;
use ups_service::{Service, SharedService};
use ups_turn::{Desk, Pass};

/// The maximum number of reports that are given up at a time, so that others have their turns between.
const AT_ONCE: usize = 64;

/// Counts the events that wait for a watcher, and returns how many of them are beyond its limit.
fn count_excess<M: SharedService<Global>, R: Wait>(
    rt: &R,
    desk: &Desk<M, Global>,
    pass: &mut Pass<M, Global>,
    recipient: Recipient<'_>,
    limit: u32,
) -> usize
    requires here { pass.old.table ≡ desk.now.table }
    ensures counts { CountsExcess limit recipient.entry.watcher.now pass.old result pass.new }
    ensures stays { pass.new.table ≡ pass.old.table }
{
    let Recipient { watcher, presence } = recipient;
    let Some(waiting) = desk.waiting(rt, pass, watcher.ae) else {
        return 0;
    };
    presence.note_waiting(waiting as u64);
    watcher.excess(limit, waiting)
}

/// The oldest events that wait for a watcher.
#[derive(Clone, Copy)]
struct Oldest {
    /// The number of the last of them.
    last: u64,
    /// How many they are.
    count: usize,
}

/// Returns the last number of some reports, and how many they are, or None without one.
fn oldest_of(reports: &[EventReport<Global>]) -> Option<Oldest>
    ensures { option_map (λ o. o.last) result ≡ last_event reports.now }
{
    match reports.last() {
        Some(report) => Some(Oldest {
            last: report.event.number,
            count: reports.len(),
        }),
        None => None,
    }
}

/// Asks for the first `most` events that wait for a watcher. Returns None without one, or if memory ran out.
fn ask_oldest<M: SharedService<Global>, R: Wait + Clock>(
    rt: &R,
    desk: &Desk<M, Global>,
    pass: &mut Pass<M, Global>,
    ae: Ae,
    most: usize,
) -> Option<Oldest>
    requires here { pass.old.table ≡ desk.now.table }
    ensures asks { AsksOldest ae most pass.old (option_map (λ o. o.last) result) pass.new }
    ensures stays { pass.new.table ≡ pass.old.table }
{
    let moment = moment_of(rt);
    let ask = Ask::Pending { max: most as u64 };
    match desk.at(rt, pass).answer(ae, moment, &mut Some(ask)) {
        Reply::Reports(reports) => oldest_of(reports.as_slice()),
        _ => None,
    }
}

/// Acknowledges the events of a watcher up to a number, in its place. Returns whether that was accepted.
fn acknowledge<M: SharedService<Global>, R: Wait + Clock>(
    rt: &R,
    desk: &Desk<M, Global>,
    pass: &mut Pass<M, Global>,
    ae: Ae,
    upto: u64,
) -> bool
    requires here { pass.old.table ≡ desk.now.table }
    ensures acknowledges { Acknowledges ae upto pass.old pass.new }
    ensures stays { pass.new.table ≡ pass.old.table }
{
    let moment = moment_of(rt);
    let ask = Ask::Do(Request::Ack { upto });
    match desk.at(rt, pass).answer(ae, moment, &mut Some(ask)) {
        Reply::Status(Status::Success) => true,
        _ => false,
    }
}

/// Gives up the first `most` events that wait for a watcher. Returns how many it gave up.
fn give_up<M: SharedService<Global>, R: Wait + Clock>(
    rt: &R,
    desk: &Desk<M, Global>,
    pass: &mut Pass<M, Global>,
    ae: Ae,
    most: usize,
) -> usize
    requires here { pass.old.table ≡ desk.now.table }
    ensures gives { GivesUp ae most pass.old pass.new }
    ensures stays { pass.new.table ≡ pass.old.table }
{
    let Some(Oldest { last, count }) = ask_oldest(rt, desk, pass, ae, most) else {
        return 0;
    };
    if !acknowledge(rt, desk, pass, ae, last) {
        return 0;
    }
    count
}

/// Gives up the oldest event reports that wait for a watcher beyond its limit, some at a time, by acknowledging them in its
/// place. Rings for a deliverer if more are to be given up.
///
/// It counts them only if `counts`, if more were beyond the limit when they were last counted, or if the watcher has no
/// address.
pub(crate) fn keep_within<M: SharedService<Global>, K: Keeping, R: Wait + Clock>(
    site: Site<'_, M, K, R>,
    roster: &Roster,
    recipient: Recipient<'_>,
    counts: bool,
    pass: &mut Pass<M, Global>,
)
    requires here { pass.old.table ≡ site.desk.now.table }
    ensures keeps { (pass.new ≡ pass.old) ⊎ KeepsWithin site.entry.options.now.limits.waiting recipient.entry.watcher.now pass.old pass.new }
    ensures stays { pass.new.table ≡ pass.old.table }
{
    let Site {
        rt,
        desk,
        options,
        ..
    } = site;
    let Recipient { watcher, presence } = recipient;
    let limit = options.limits.waiting;
    let was_within = watcher.excess(limit, presence.waiting() as usize) == 0;
    if was_within && !counts && watcher.address.is_some() {
        return;
    }
    let excess = count_excess(rt, desk, pass, recipient, limit);
    if excess == 0 {
        return;
    }
    let count = give_up(rt, desk, pass, watcher.ae, excess.min(AT_ONCE));
    presence.gives_up(count as u64);
    if 0 < count && count < excess {
        roster.ring();
    }
}
