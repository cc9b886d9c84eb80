//! The request that a line makes.

ghost use Rattle.std.specs.Prelude.{◌≡◌, ◌≢◌, ◌<◌, ◌+◌, ◌^◌, ◌∷◌, ◌++◌, [], ℕ, List, Some, true, length, IfOk, IfErr, OnOk, OnErr};
ghost use Rattle.std.specs.Option.{IfSome, option_copied};
ghost use Rattle.std.specs.Str.Parse.{IsNumeral, digits_value};
ghost use Rattle.ups_life.specs.Settings.{IsMoment};
ghost use Rattle.ups_lines.specs.Elements.{Encodes};
ghost use Rattle.ups_lines.specs.Escapes.{IsText};
ghost use Rattle.ups_lines.specs.Words.{words_of, words_left};
ghost use Rattle.ups_requests.specs.Questions.{AsksAt, FailsArguments, HoldsIf, HoldsWords, IsAction, IsBad, IsColonFirst, IsCount, IsExactLine, IsLineOf, IsMessageOf, IsOf, Names, NamesInstance, OnBad, transaction_words};

use crate::exact::{Grammar, check_grammar, is_colon_first, is_exact};
use crate::limits::MAX_LINE;
use crate::line::{LineHeading, Verb};
use std::alloc::Allocator;
use ups_dimse::{Operation, Tags};
use ups_life::{CHANGE_STATE, REQUEST_CANCEL, SUBSCRIBE, SUSPEND, StepUid, UNSUBSCRIBE};
use ups_lines::{
    LineAttribute, LineFault, LineReason, Text, Words, attributes_of, elements_of, filled,
    number_of, put_argument, spelled, tag_of,
};
use ups_pdu::{Ae, RegisteredUid, Uid};

/// The attributes of the arguments of a change: Procedure Step State and Transaction UID (PS3.4 table CC.2.1-1).
const STATE: &[u8] = b"00741000";

const TRANSACTION: &[u8] = b"00081195";

/// The attributes of the arguments of a subscription: Receiving AE and Deletion Lock (PS3.4 CC.2.3).
const RECEIVER: &[u8] = b"00741234";

const LOCK: &[u8] = b"00741230";

/// A request. It borrows nothing from its line.
#[derive(Drop)]
pub enum Question<A: Allocator + Copy> {
    /// A message: its operation, and the bytes of its data set in Explicit VR Little Endian.
    Message(Operation<A>, Vec<u8, A>),
    /// The events that the requesting application entity has not acknowledged, at most this many.
    Pending(u64),
    /// Acknowledging the events of the requesting application entity, up to this number.
    Acknowledge(u64),
    /// The steps that the requesting application entity is subscribed to.
    Watches,
    /// Removing the steps that are due.
    Sweep,
    /// The steps that are held.
    Held,
    /// The holder of the step with this UID; None if the word was not a valid UID.
    Holder(Option<Uid>),
    /// Reserving the instance UID of a step.
    Reserve(StepUid),
}

/// A request, with its time and who makes it.
pub struct Asked<A: Allocator + Copy> {
    /// In seconds since 1970-01-01 UTC.
    pub moment: u64,
    /// The title of the application entity that makes the request.
    pub ae: Ae,
    pub question: Question<A>,
    /// Whether the words alone say what it asks.
    pub is_exact: bool,
    ghost in_range: { IsMoment moment },
}

impl<A: Allocator + Copy> Drop for Asked<A> {
    fn drop(self) {
        let Asked {
            moment: _,
            ae: _,
            question: _,
            is_exact: _,
        } = self;
    }
}

/// Returns the instance that a word names, or None if that is not a valid UID.
///
/// Errors: Escape; lack of memory.
fn instance_by<A: Allocator + Copy>(alloc: A, word: &[u8]) -> Result<Option<Uid>, LineFault>
    ensures named { IfOk result (NamesInstance word.now) }
    ensures fault { IfErr result (λ fault. OnBad fault (λ _. IsText word.now → ⊥)) }
{
    if word == b"global".as_slice() {
        return Ok(Some(RegisteredUid::GlobalSubscription.uid()));
    }
    if word == b"filtered".as_slice() {
        return Ok(Some(RegisteredUid::FilteredGlobalSubscription.uid()));
    }
    let text = Text::of(word).ok_or(LineReason::Escape)?;
    Ok(Uid::of(text.bytes(alloc)?.as_slice()))
}

/// Reads the next word, and returns the instance that it names, or None if that is not a valid UID.
///
/// Errors: MissingWord or EmptyWord; Escape; lack of memory.
fn instance_of<A: Allocator + Copy>(
    alloc: A,
    words: &mut Words<'_>,
) -> Result<Option<Uid>, LineFault>
    ensures named { IfOk result (λ instance. Names (words_left (option_copied words.old.rest)) instance (words_left (option_copied words.new.rest))) }
    ensures taken { OnOk result (length (words_left (option_copied words.old.rest)) ≡ length (words_left (option_copied words.new.rest)) + 1) }
    ensures fault { IfErr result (λ fault. OnBad fault (λ _. (word : List ℕ) → (rest : List (List ℕ)) → words_left (option_copied words.old.rest) ≡ word ∷ rest → word ≢ [] → IsText word → ⊥)) }
{
    let word = words.word()?;
    instance_by(alloc, word)
}

/// Reads the next word as the value of an attribute.
///
/// Errors: MissingWord or EmptyWord; Escape.
fn argument_of<'a>(
    tag: &'static [u8],
    words: &mut Words<'a>,
) -> Result<LineAttribute<'a>, LineReason>
    ensures taken { OnOk result (length (words_left (option_copied words.old.rest)) ≡ length (words_left (option_copied words.new.rest)) + 1) }
    ensures word { OnOk result ((word : List ℕ) × (words_left (option_copied words.old.rest) ≡ word ∷ words_left (option_copied words.new.rest))) }
{
    let word = words.word()?;
    LineAttribute::new(tag, word)
}

/// Reads the next word, which is a text.
///
/// Errors: MissingWord or EmptyWord; Escape.
fn text_in<'a>(words: &mut Words<'a>) -> Result<&'a [u8], LineReason>
    ensures taken { OnOk result (length (words_left (option_copied words.old.rest)) ≡ length (words_left (option_copied words.new.rest)) + 1) }
    ensures word { IfOk result (λ word. words_left (option_copied words.old.rest) ≡ word.now ∷ words_left (option_copied words.new.rest)) }
{
    let word = words.word()?;
    match Text::of(word) {
        Some(_) => Ok(word),
        None => Err(LineReason::Escape),
    }
}

/// Appends the element of a Transaction UID, unless the word is `-`.
fn put_transaction<A: Allocator + Copy>(out: &mut Vec<u8, A>, word: &[u8]) -> Result<(), LineFault>
    ensures { OnOk result ((encoded : List ℕ) × Encodes (transaction_words word.now) encoded × (out.new.items ≡ out.old.items ++ encoded)) }
{
    if word == b"-".as_slice() {
        return Ok(());
    }
    put_argument(out, TRANSACTION, word)
}

/// Reads the next word as a Transaction UID, or None if it is `-`.
///
/// Errors: MissingWord or EmptyWord; Escape.
fn transaction_of<'a>(words: &mut Words<'a>) -> Result<Option<LineAttribute<'a>>, LineReason>
    ensures taken { OnOk result (length (words_left (option_copied words.old.rest)) ≡ length (words_left (option_copied words.new.rest)) + 1) }
    ensures word { OnOk result ((word : List ℕ) × (words_left (option_copied words.old.rest) ≡ word ∷ words_left (option_copied words.new.rest))) }
{
    let word = words.word()?;
    if word == b"-".as_slice() {
        return Ok(None);
    }
    Ok(Some(LineAttribute::new(TRANSACTION, word)?))
}

/// Returns the tags in words.
///
/// Errors: EmptyWord or Tag if a word is not a tag; lack of memory.
fn tags_of<A: Allocator + Copy>(alloc: A, words: Words<'_>) -> Result<Tags<A>, LineFault> {
    let mut tags = Vec::with_capacity(alloc, words.count())?;
    for word in words {
        tags.push(tag_of(filled(word)?).ok_or(LineReason::Tag)?)?;
    }
    Ok(Tags::from_vec(tags))
}

/// Returns the data set with the attributes of arguments and of the remaining words.
///
/// Errors: EmptyWord, Attribute or Escape if a word is not an attribute; TooManyItems; lack of memory.
fn data_set_of<'a, A: Allocator + Copy>(
    alloc: A,
    arguments: &[Option<LineAttribute<'a>>],
    words: Words<'a>,
) -> Result<Vec<u8, A>, LineFault> {
    let attributes = attributes_of(alloc, arguments, words)?;
    spelled(alloc, &attributes)
}

/// Returns the message with this operation, and with the attributes of its arguments and the remaining words; or, if the
/// first of these begins with a colon, with the elements that the words stand for.
///
/// Errors: EmptyWord, Attribute or Escape if a word is not an attribute; TooManyItems; lack of memory.
fn message<'a, A: Allocator + Copy>(
    alloc: A,
    operation: Operation<A>,
    arguments: &[Option<LineAttribute<'a>>],
    words: Words<'a>,
) -> Result<Question<A>, LineFault>
    ensures operation { IfOk result (IsMessageOf (λ asked. asked ≡ operation)) }
    ensures holds { IfOk result (HoldsIf (IsColonFirst (words_left (option_copied words.entry.rest))) (words_left (option_copied words.entry.rest))) }
{
    if is_colon_first(words) {
        let elements = elements_of(alloc, words)?;
        return Ok(Question::Message(operation, elements));
    }
    let data_set = data_set_of(alloc, arguments, words)?;
    Ok(Question::Message(operation, data_set))
}

/// Parses `create UID attr..`.
fn creating<A: Allocator + Copy>(alloc: A, mut words: Words<'_>) -> Result<Question<A>, LineFault>
    ensures asks { IfOk result (IsOf Verb.Create (words_left (option_copied words.entry.rest))) }
    ensures holds { IfOk result (HoldsWords Verb.Create (words_left (option_copied words.entry.rest))) }
{
    let instance = instance_of(alloc, &mut words)?;
    message(alloc, Operation::Create { instance }, &[], words)
}

/// Parses `get UID tag..`.
fn getting<A: Allocator + Copy>(alloc: A, mut words: Words<'_>) -> Result<Question<A>, LineFault>
    ensures { IfOk result (IsOf Verb.Get (words_left (option_copied words.entry.rest))) }
{
    let operation = Operation::Get {
        instance: instance_of(alloc, &mut words)?,
        attributes: tags_of(alloc, words)?,
    };
    Ok(Question::Message(operation, Vec::new(alloc)))
}

/// Parses `set UID TX attr..`.
fn setting<A: Allocator + Copy>(alloc: A, mut words: Words<'_>) -> Result<Question<A>, LineFault>
    ensures asks { IfOk result (IsOf Verb.Set (words_left (option_copied words.entry.rest))) }
    ensures holds { IfOk result (HoldsWords Verb.Set (words_left (option_copied words.entry.rest))) }
{
    let instance = instance_of(alloc, &mut words)?;
    let arguments = [transaction_of(&mut words)?];
    message(alloc, Operation::Set { instance }, &arguments, words)
}

/// Parses `change UID STATE TX`.
fn changing<A: Allocator + Copy>(alloc: A, mut words: Words<'_>) -> Result<Question<A>, LineFault>
    ensures asks { IfOk result (IsOf Verb.Change (words_left (option_copied words.entry.rest))) }
    ensures holds { IfOk result (HoldsWords Verb.Change (words_left (option_copied words.entry.rest))) }
{
    let instance = instance_of(alloc, &mut words)?;
    let state = text_in(&mut words)?;
    let transaction = text_in(&mut words)?;
    words.end()?;
    let mut data_set = Vec::new(alloc);
    put_transaction(&mut data_set, transaction)?;
    put_argument(&mut data_set, STATE, state)?;
    let operation = Operation::Action {
        instance,
        action: CHANGE_STATE,
    };
    Ok(Question::Message(operation, data_set))
}

/// Parses `cancel UID attr..`.
fn canceling<A: Allocator + Copy>(alloc: A, mut words: Words<'_>) -> Result<Question<A>, LineFault>
    ensures asks { IfOk result (IsOf Verb.Cancel (words_left (option_copied words.entry.rest))) }
    ensures holds { IfOk result (HoldsWords Verb.Cancel (words_left (option_copied words.entry.rest))) }
{
    let operation = Operation::Action {
        instance: instance_of(alloc, &mut words)?,
        action: REQUEST_CANCEL,
    };
    message(alloc, operation, &[], words)
}

/// Parses `subscribe UID RECEIVER LOCK attr..`.
fn subscribing<A: Allocator + Copy>(
    alloc: A,
    mut words: Words<'_>,
) -> Result<Question<A>, LineFault>
    ensures asks { IfOk result (IsOf Verb.Subscribe (words_left (option_copied words.entry.rest))) }
    ensures holds { IfOk result (HoldsWords Verb.Subscribe (words_left (option_copied words.entry.rest))) }
{
    let instance = instance_of(alloc, &mut words)?;
    let receiver = argument_of(RECEIVER, &mut words)?;
    let arguments = [Some(receiver), Some(argument_of(LOCK, &mut words)?)];
    let operation = Operation::Action {
        instance,
        action: SUBSCRIBE,
    };
    message(alloc, operation, &arguments, words)
}

/// Parses `unsubscribe UID RECEIVER` or `suspend UID RECEIVER`, with `action` as the type of the action.
fn ending<A: Allocator + Copy>(
    alloc: A,
    action: u16,
    mut words: Words<'_>,
) -> Result<Question<A>, LineFault>
    ensures action { IfOk result (IsMessageOf (IsAction action (words_left (option_copied words.entry.rest)))) }
    ensures two { OnOk result (length (words_left (option_copied words.entry.rest)) ≡ 2) }
    ensures holds { IfOk result (HoldsWords Verb.Suspend (words_left (option_copied words.entry.rest))) }
{
    let instance = instance_of(alloc, &mut words)?;
    let receiver = text_in(&mut words)?;
    words.end()?;
    let mut data_set = Vec::new(alloc);
    put_argument(&mut data_set, RECEIVER, receiver)?;
    Ok(Question::Message(Operation::Action { instance, action }, data_set))
}

/// Parses `holder UID`.
fn holding<A: Allocator + Copy>(alloc: A, mut words: Words<'_>) -> Result<Question<A>, LineFault>
    ensures asks { IfOk result (IsOf Verb.Holder (words_left (option_copied words.entry.rest))) }
    ensures bad { IfErr result (λ fault. OnBad fault (λ _. FailsArguments Verb.Holder (words_left (option_copied words.entry.rest)))) }
{
    let instance = instance_of(alloc, &mut words)?;
    words.end()?;
    Ok(Question::Holder(instance))
}

/// Returns the UID of the step that an instance is, or None if it is none.
fn step_by(instance: Option<Uid>) -> Option<StepUid>
    ensures { IfSome result (λ step. instance ≡ Some step) }
{
    StepUid::of(instance?)
}

/// Parses `reserve UID`.
fn reserving<A: Allocator + Copy>(alloc: A, mut words: Words<'_>) -> Result<Question<A>, LineFault>
    ensures asks { IfOk result (IsOf Verb.Reserve (words_left (option_copied words.entry.rest))) }
    ensures holds { IfOk result (HoldsWords Verb.Reserve (words_left (option_copied words.entry.rest))) }
{
    let instance = instance_of(alloc, &mut words)?;
    words.end()?;
    let step = step_by(instance).ok_or(LineReason::Step)?;
    Ok(Question::Reserve(step))
}

/// Reads the last word as a number.
///
/// Errors: MissingWord or EmptyWord; Number; ExtraWord.
fn last_number(mut words: Words<'_>) -> Result<u64, LineReason>
    ensures number { IfOk result (IsCount (words_left (option_copied words.entry.rest))) }
    ensures bad { OnErr result ((word : List ℕ) → words_left (option_copied words.entry.rest) ≡ word ∷ [] → IsNumeral 10 word → digits_value 10 word < 2 ^ 64 → ⊥) }
{
    let number = number_of(words.word()?).ok_or(LineReason::Number)?;
    words.end()?;
    Ok(number)
}

/// Returns the request made by a verb and the words after it.
///
/// Errors: the first reason why the verb does not take these words; lack of memory.
fn question_of<A: Allocator + Copy>(
    alloc: A,
    verb: Verb,
    words: Words<'_>,
) -> Result<Question<A>, LineFault>
    ensures asks { IfOk result (IsOf verb (words_left (option_copied words.entry.rest))) }
    ensures holds { IfOk result (HoldsWords verb (words_left (option_copied words.entry.rest))) }
    ensures bad { IfErr result (λ fault. OnBad fault (λ _. FailsArguments verb (words_left (option_copied words.entry.rest)))) }
{
    match verb {
        Verb::Create => creating(alloc, words),
        Verb::Get => getting(alloc, words),
        Verb::Set => setting(alloc, words),
        Verb::Change => changing(alloc, words),
        Verb::Cancel => canceling(alloc, words),
        Verb::Subscribe => subscribing(alloc, words),
        Verb::Unsubscribe => ending(alloc, UNSUBSCRIBE, words),
        Verb::Suspend => ending(alloc, SUSPEND, words),
        Verb::Find => message(alloc, Operation::Find { priority: None }, &[], words),
        Verb::Pending => Ok(Question::Pending(last_number(words)?)),
        Verb::Ack => Ok(Question::Acknowledge(last_number(words)?)),
        Verb::Watches => {
            words.end()?;
            Ok(Question::Watches)
        }
        Verb::Sweep => {
            words.end()?;
            Ok(Question::Sweep)
        }
        Verb::Held => {
            words.end()?;
            Ok(Question::Held)
        }
        Verb::Holder => holding(alloc, words),
        Verb::Reserve => reserving(alloc, words),
    }
}

/// Returns the request that a line makes, in a script with this grammar.
///
/// # Errors
///
/// The first reason why the bytes are not a valid line; lack of memory.
pub fn asked_by<A: Allocator + Copy>(
    alloc: A,
    bytes: &[u8],
    grammar: Grammar,
) -> Result<Asked<A>, LineFault>
    ensures asks { IfOk result (λ asked. AsksAt (words_of bytes.now) asked.moment asked.ae asked.question) }
    ensures exact { IfOk result (λ asked. asked.is_exact ≡ true → IsExactLine (words_of bytes.now)) }
    ensures narrow { OnOk result (IsLineOf grammar (words_of bytes.now)) }
    ensures bad { IfErr result (λ fault. OnBad fault (IsBad bytes.now)) }
{
    if bytes.len() > MAX_LINE {
        return Err(LineFault::Malformed(LineReason::TooLong));
    }
    let mut words = Words::of(bytes);
    let heading = LineHeading::of(alloc, &mut words)?;
    check_grammar(grammar, heading.verb, words)?;
    Ok(Asked {
        moment: heading.moment,
        ae: heading.ae,
        question: question_of(alloc, heading.verb, words)?,
        is_exact: is_exact(heading.verb, words),
    })
}
