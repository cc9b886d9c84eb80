//! Assembling messages from the fragments in PDUs (PS3.8 annex E, PS3.7 section 6.3.1).

ghost use Rattle.std.specs.Prelude.{◌≡◌, ◌↔◌, ◌+◌, ◌≤◌, ◌++◌, List, ℕ, Some, length, map, IsTrue, IfOk, IfErr};
ghost use Rattle.ups_pdu.specs.declared.pdv.Pdv.{Pdv};
ghost use Rattle.ups_assoc.specs.declared.fault.AssocFault.TheVariants.{Memory};
ghost use Rattle.ups_assoc.specs.declared.message.RawMessage.{RawMessage};
ghost use Rattle.ups_assoc.specs.declared.assembling.Begun.{Begun};
ghost use Rattle.ups_assoc.specs.declared.assembling.Begun.TheVariants.{Nothing};
ghost use Rattle.ups_assoc.specs.Limits.{longest_message};
ghost use Rattle.ups_assoc.specs.Messages.{is_accepted, AreFragments};
ghost use Rattle.ups_assoc.specs.Feeding.{IsRefusedFragment, has_failed, command_end, body_end, with_command, with_data, fed_fragment, fed, feeds, ReturnsFed, Takes, Feeds};

use crate::fault::AssocFault;
use crate::limits::LONGEST_MESSAGE;
use crate::message::RawMessage;
use crate::negotiating::AcceptedContext;
use crate::walking::data_follows;
use std::alloc::{AllocError, Allocator};
use std::marker::Model;
use std::mem;
use ups_pdu::{Bytes, Pdv};

/// The part of a message that has arrived.
#[derive(Drop)]
pub enum Begun<A: Allocator + Copy> {
    /// None of its fragments.
    Nothing,
    /// Some of its command set, on this presentation context.
    Command {
        context: u8,
        bytes: Bytes<A>,
    },
    /// Its whole command set, which announces a data set, and what has arrived of that data set.
    Body {
        context: u8,
        command: Bytes<A>,
        bytes: Bytes<A>,
    },
    /// A fragment was not taken, so that no more messages follow.
    Failed,
}

/// The state of a message after a fragment.
#[derive(Drop)]
enum Taken<A: Allocator + Copy> {
    /// It is not yet whole.
    More(Begun<A>),
    /// It is whole.
    Whole(RawMessage<A>),
}

impl<A: Allocator + Copy> Begun<A> {
    fn has_failed(&self) -> bool
        ensures { result ≡ has_failed self.now }
    {
        matches!(self, Begun::Failed)
    }
}

/// Returns whether three lengths together are no longer than a message may be.
fn is_within(first: usize, second: usize, third: usize) -> bool
    ensures { IsTrue result ↔ (first + second + third ≤ longest_message) }
{
    first <= LONGEST_MESSAGE
        && second <= LONGEST_MESSAGE - first
        && third <= LONGEST_MESSAGE - first - second
}

/// Appends `more` to the bytes of a message that has `elsewhere` other bytes. If `bytes` is empty, returns `more`
/// itself, without allocating memory.
///
/// Errors: TooLong, Memory.
fn appended<A: Allocator + Copy>(
    bytes: Bytes<A>,
    elsewhere: usize,
    more: Bytes<A>,
) -> Result<Bytes<A>, AssocFault>
    ensures appended { IfOk result (λ b. (b ≡ bytes ++ more) × (elsewhere + length (bytes ++ more) ≤ longest_message)) }
    ensures fault { IfErr result (λ e. IsRefusedFragment e (elsewhere + length (bytes ++ more))) }
{
    if !is_within(elsewhere, bytes.len(), more.len()) {
        return Err(AssocFault::TooLong);
    }
    if bytes.is_empty() {
        return Ok(more);
    }
    let mut vec = bytes.into_vec();
    vec.extend_from_slice(more.as_slice())?;
    Ok(Bytes::from_vec(vec))
}

/// Returns the state of a message with these bytes of its command set, which is complete if `last`.
fn command_end<A: Allocator + Copy>(alloc: A, context: u8, bytes: Bytes<A>, last: bool) -> Taken<A>
    ensures { ReturnsFed (command_end context bytes last) result }
{
    if !last {
        return Taken::More(Begun::Command { context, bytes });
    }
    if data_follows(bytes.as_slice()) {
        return Taken::More(Begun::Body {
            context,
            command: bytes,
            bytes: Bytes::from_vec(Vec::new(alloc)),
        });
    }
    Taken::Whole(RawMessage {
        context,
        command: bytes,
        body: None,
    })
}

/// Returns the state of a message with these bytes of its data set, which is complete if `last`.
fn body_end<A: Allocator + Copy>(
    context: u8,
    command: Bytes<A>,
    bytes: Bytes<A>,
    last: bool,
) -> Taken<A>
    ensures { ReturnsFed (body_end context command bytes last) result }
{
    if !last {
        return Taken::More(Begun::Body {
            context,
            command,
            bytes,
        });
    }
    Taken::Whole(RawMessage {
        context,
        command,
        body: Some(bytes),
    })
}

/// Adds a fragment of the command set to a message.
///
/// Errors: TooLong, Memory.
fn with_command<A: Allocator + Copy>(
    alloc: A,
    context: u8,
    bytes: Bytes<A>,
    pdv: Pdv<A>,
) -> Result<Taken<A>, AssocFault>
    ensures { Takes (with_command context bytes pdv) result }
{
    let bytes = appended(bytes, 0, pdv.bytes)?;
    Ok(command_end(alloc, context, bytes, pdv.last))
}

/// Adds a fragment of the data set to a message.
///
/// Errors: TooLong, Memory.
fn with_data<A: Allocator + Copy>(
    context: u8,
    command: Bytes<A>,
    bytes: Bytes<A>,
    pdv: Pdv<A>,
) -> Result<Taken<A>, AssocFault>
    ensures { Takes (with_data context command bytes pdv) result }
{
    let elsewhere = command.len();
    let bytes = appended(bytes, elsewhere, pdv.bytes)?;
    Ok(body_end(context, command, bytes, pdv.last))
}

/// Adds a fragment on an accepted presentation context to the part of a message that has arrived.
///
/// Errors: MixedContext, DataWithoutCommand, TooLong, Memory; Failed after an earlier error.
fn take_fragment<A: Allocator + Copy>(
    alloc: A,
    begun: Begun<A>,
    pdv: Pdv<A>,
) -> Result<Taken<A>, AssocFault>
    ensures { Takes (fed_fragment begun pdv) result }
{
    match begun {
        Begun::Nothing => {
            if !pdv.command {
                return Err(AssocFault::DataWithoutCommand);
            }
            with_command(alloc, pdv.context, Bytes::from_vec(Vec::new(alloc)), pdv)
        }
        Begun::Command { context, bytes } => {
            if pdv.context != context {
                return Err(AssocFault::MixedContext);
            }
            if !pdv.command {
                return Err(AssocFault::DataWithoutCommand);
            }
            with_command(alloc, context, bytes, pdv)
        }
        Begun::Body {
            context,
            command,
            bytes,
        } => {
            if pdv.context != context || pdv.command {
                return Err(AssocFault::MixedContext);
            }
            with_data(context, command, bytes, pdv)
        }
        Begun::Failed => Err(AssocFault::Failed),
    }
}

/// Returns the ids of presentation contexts.
///
/// Errors: lack of memory.
fn ids_of<A: Allocator + Copy>(
    alloc: A,
    contexts: &[AcceptedContext],
) -> Result<Vec<u8, A>, AllocError>
    ensures { IfOk result (λ v. v.items ≡ map (λ c. c.id) contexts.now) }
{
    let mut ids = Vec::new(alloc);
    for context in contexts {
        ids.push(context.id)?;
    }
    Ok(ids)
}

/// An assembler of messages from fragments. Contracts see it as the ids of the accepted presentation contexts and the
/// part of the next message that has arrived.
pub struct Assembler<A: Allocator + Copy> {
    alloc: A,
    ids: Vec<u8, A>,
    begun: Begun<A>,
}

impl<A: Allocator + Copy> Drop for Assembler<A> {
    fn drop(self) {
        let Assembler {
            alloc: _,
            ids: _,
            begun: _,
        } = self;
    }
}

impl<A: Allocator + Copy> Model for Assembler<A> {
    ghost use Rattle.ups_assoc.specs.Assembly.{Assembly};

    ghost Value = { Assembly A };

    ghost view = { λ a. record { ids = a.ids.items; begun = a.begun } };
}

impl<A: Allocator + Copy> Assembler<A> {
    /// Returns an assembler of the messages on these presentation contexts, before any fragment.
    ///
    /// # Errors
    ///
    /// `Memory` if memory runs out.
    pub fn new(alloc: A, contexts: &[AcceptedContext]) -> Result<Assembler<A>, AssocFault>
        ensures made { IfOk result (λ a. (a.ids ≡ map (λ c. c.id) contexts.now) × (a.begun ≡ Nothing)) }
        ensures memory { IfErr result (λ e. e ≡ Memory) }
    {
        let ids = ids_of(alloc, contexts)?;
        Ok(Assembler {
            alloc,
            ids,
            begun: Begun::Nothing,
        })
    }

    /// Takes the next fragment, and returns the message that it completes, if any.
    ///
    /// # Errors
    ///
    /// The first that applies: `UnknownContext`, `MixedContext`, `DataWithoutCommand`, `TooLong`, `Memory`. After an
    /// error each later call returns `Failed`.
    pub fn feed(&mut self, pdv: Pdv<A>) -> Result<Option<RawMessage<A>>, AssocFault>
        ensures ids { self.new.ids ≡ self.old.ids }
        ensures feeds { Feeds (fed self.old.ids self.old.begun pdv) self.new.begun result }
    {
        let begun = mem::replace(&mut self.begun, Begun::Failed);
        if begun.has_failed() {
            return Err(AssocFault::Failed);
        }
        if !self.ids.as_slice().contains(&pdv.context) {
            return Err(AssocFault::UnknownContext);
        }
        match take_fragment(self.alloc, begun, pdv) {
            Ok(Taken::More(begun)) => {
                self.begun = begun;
                Ok(None)
            }
            Ok(Taken::Whole(message)) => {
                self.begun = Begun::Nothing;
                Ok(Some(message))
            }
            Err(fault) => Err(fault),
        }
    }
}

/// Does nothing at run time: its contract tells a proof that fragments give the messages that were cut into them, one
/// by one, however they were cut.
pub fn every_cut_gives_its_messages<A: Allocator + Copy>()
    ensures { (ids : List ℕ) → (pdvs : List (Pdv A)) → (messages : List (RawMessage A)) → (begun : Begun A)
        → AreFragments ids pdvs messages begun → feeds ids pdvs Nothing ≡ Some (messages, begun) }
{}

/// Does nothing at run time: its contract tells a proof that if fragments give messages, one by one, they are the
/// fragments of these messages.
pub fn every_message_is_of_its_fragments<A: Allocator + Copy>()
    ensures { (ids : List ℕ) → (pdvs : List (Pdv A)) → (messages : List (RawMessage A)) → (begun : Begun A)
        → feeds ids pdvs Nothing ≡ Some (messages, begun) → AreFragments ids pdvs messages begun }
{}
