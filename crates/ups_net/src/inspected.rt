//! A service that tells the log what it is asked.

ghost use Rattle.std.specs.Prelude.{◌≡◌};
ghost use Rattle.ups_net.specs.Audited.{HasAnswered};

use crate::seeing::Seeing;
use log::Log;
use std::alloc::Global;
use ups_dataset::{DataSet, Element, ITEM, Tag, Value, Vr};
use ups_life::{Ask, Reply};
use ups_log::{Account, AuditedAsk, tell_done};
use ups_pdu::Ae;
use ups_service::Service;

/// A service that tells the account of an association about each query with a sequence that was read as bytes, and under
/// which title the peer is known, and may log who did what. It answers as the inner one does.
///
/// Such a sequence is Unknown (UN) and matches only as a whole value, since it came in Implicit VR Little Endian with a
/// given length, and the dictionary lacks it (PS3.5 section 6.2.2). The answer does not say so.
#[derive(Drop)]
pub(crate) struct Inspected<'a, S: Seeing, R: Log> {
    pub(crate) service: S,
    rt: &'a R,
    account: &'a Account<'a>,
    /// Whether what is done is logged.
    is_audited: bool,
}

impl<'a, S: Seeing, R: Log> Inspected<'a, S, R> {
    /// Wraps the service of an association.
    pub(crate) fn new(
        rt: &'a R,
        account: &'a Account<'a>,
        is_audited: bool,
        service: S,
    ) -> Inspected<'a, S, R>
        ensures { result.service ≡ service }
    {
        Inspected {
            service,
            rt,
            account,
            is_audited,
        }
    }

    // Tells the account about a sequence that was read as bytes, if the ask is a query with one.
    fn inspect(&self, ask: &Option<Ask<Global>>) {
        let Some(Ask::Find(keys)) = ask else {
            return;
        };
        let keys = keys.attributes();
        if let Some(tag) = unread_sequence(keys) {
            self.account.note_unread(self.rt, keys.allocator(), tag);
        }
    }

    // Returns what to log of an ask if it is accepted.
    fn noted(&self, ask: &Option<Ask<Global>>) -> Option<AuditedAsk> {
        match ask {
            Some(ask) if self.is_audited => AuditedAsk::of(ask),
            _ => None,
        }
    }

    // Tells the account that the service knows the peer under this title, and logs what was done with this reply, which
    // `number` accepted requests decide.
    fn tell(&self, noted: &Option<AuditedAsk>, ae: Ae, number: u64, reply: &Reply<Global>)
        requires answered { HasAnswered (S.settings self.now.service) (S.others self.now.service) (S.caller self.now.service) (S.seen self.now.service) ae number reply.now }
    {
        match noted {
            Some(noted) => tell_done(self.rt, self.account, ae, number, noted, reply),
            None => self.account.know(ae),
        }
    }
}

/// Returns whether bytes begin as the value of a sequence that has an item does (PS3.5 section 7.5).
fn begins_item(bytes: &[u8]) -> bool {
    match Tag::at(bytes) {
        Some((tag, _)) => tag == ITEM,
        None => false,
    }
}

/// Returns whether a key is a sequence that was read as bytes.
fn is_unread(key: &Element<Global>) -> bool {
    match &key.value {
        Value::Bytes(bytes) => key.vr == Vr::Un && begins_item(bytes.as_slice()),
        Value::Items(_) => false,
    }
}

/// Returns the tag of the first of these keys that is a sequence which was read as bytes.
fn unread_among(keys: &DataSet<Global>) -> Option<Tag> {
    for key in keys.elements() {
        if is_unread(key) {
            return Some(key.tag);
        }
    }
    None
}

/// Returns the tag of the first sequence that was read as bytes among the keys of a sequence. Readable keys have one item
/// in a sequence at most.
fn unread_within(key: &Element<Global>) -> Option<Tag> {
    match &key.value {
        Value::Bytes(_) => None,
        Value::Items(items) => unread_among(items.first()?),
    }
}

/// Returns the tag of the first key that is a sequence which was read as bytes: of one of these, or else of one within
/// their items.
fn unread_sequence(keys: &DataSet<Global>) -> Option<Tag> {
    if let Some(tag) = unread_among(keys) {
        return Some(tag);
    }
    for key in keys.elements() {
        if let Some(tag) = unread_within(key) {
            return Some(tag);
        }
    }
    None
}

impl<'a, S: Seeing, R: Log> Service<Global> for Inspected<'a, S, R> {
    ghost settings = { λ i. S.settings i.service };

    ghost others = { λ i. S.others i.service };

    ghost caller = { λ i. S.caller i.service };

    ghost seen = { λ i. S.seen i.service };

    fn answer(&mut self, ae: Ae, moment: u64, ask: &mut Option<Ask<Global>>) -> Reply<Global> {
        self.inspect(ask);
        let noted = self.noted(ask);
        let reply = self.service.answer(ae, moment, ask);
        self.tell(&noted, ae, self.service.entries_seen(), &reply);
        reply
    }
}
