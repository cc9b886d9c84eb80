//! The first words of a line: the time of the request, who makes it, and its verb.

ghost use Rattle.std.specs.Prelude.{◌≡◌, ◌∷◌, ℕ, IfOk, IfErr, MatchOption};
ghost use Rattle.std.specs.Option.{IfSome, IfNone, option_copied};
ghost use Rattle.ups_life.specs.Settings.{IsMoment};
ghost use Rattle.ups_requests.specs.Questions.{verb_word, IsMomentWord, IsTitleWord, IsHeading, NoMoment, NoTitle, FailsVerb, FailsHeading, OnBad};
ghost use Rattle.ups_lines.specs.Words.{words_left};

use std::alloc::Allocator;
use ups_life::MAX_MOMENT;
use ups_lines::{LineFault, LineReason, Text, Words, number_of};
use ups_pdu::Ae;

/// The kind of request that a line makes.
#[derive(Clone, Copy, Debug, PartialEq, Eq)]
pub(crate) enum Verb {
    /// Creating a step (N-CREATE, PS3.4 CC.2.5).
    Create,
    /// Reading attributes of a step (N-GET, PS3.4 CC.2.7).
    Get,
    /// Setting attributes of a step (N-SET, PS3.4 CC.2.6).
    Set,
    /// Changing the state of a step (N-ACTION type 1, PS3.4 CC.2.1).
    Change,
    /// Requesting the cancellation of a step (N-ACTION type 2, PS3.4 CC.2.2).
    Cancel,
    /// Subscribing a watcher (N-ACTION type 3, PS3.4 CC.2.3).
    Subscribe,
    /// Ending subscriptions of a watcher (N-ACTION type 4, PS3.4 CC.2.3).
    Unsubscribe,
    /// Ending the global subscription of a watcher (N-ACTION type 5, PS3.4 CC.2.3).
    Suspend,
    /// The steps that match keys (C-FIND, PS3.4 CC.2.8).
    Find,
    /// The events that a watcher has not acknowledged (PS3.4 CC.2.4).
    Pending,
    /// Acknowledging events of a watcher.
    Ack,
    /// The steps that a watcher is subscribed to.
    Watches,
    /// Removing the steps that are due.
    Sweep,
    /// The steps that are held.
    Held,
    /// The holder of a step.
    Holder,
    /// Reserving the instance UID of a step, in a history.
    Reserve,
}

/// Each verb once.
const VERBS: [Verb; 16] = [
    Verb::Create,
    Verb::Get,
    Verb::Set,
    Verb::Change,
    Verb::Cancel,
    Verb::Subscribe,
    Verb::Unsubscribe,
    Verb::Suspend,
    Verb::Find,
    Verb::Pending,
    Verb::Ack,
    Verb::Watches,
    Verb::Sweep,
    Verb::Held,
    Verb::Holder,
    Verb::Reserve,
];

impl Verb {
    /// Returns the word of the verb.
    fn word(self) -> &'static [u8]
        ensures { result.now ≡ verb_word self }
    {
        match self {
            Verb::Create => b"create",
            Verb::Get => b"get",
            Verb::Set => b"set",
            Verb::Change => b"change",
            Verb::Cancel => b"cancel",
            Verb::Subscribe => b"subscribe",
            Verb::Unsubscribe => b"unsubscribe",
            Verb::Suspend => b"suspend",
            Verb::Find => b"find",
            Verb::Pending => b"pending",
            Verb::Ack => b"ack",
            Verb::Watches => b"watches",
            Verb::Sweep => b"sweep",
            Verb::Held => b"held",
            Verb::Holder => b"holder",
            Verb::Reserve => b"reserve",
        }
    }

    /// Returns the verb for a word, or None if there is none.
    fn of(word: &[u8]) -> Option<Verb>
        ensures { MatchOption result ((verb : Verb) → verb_word verb ≡ word.now → ⊥) (λ verb. verb_word verb ≡ word.now) }
    {
        for verb in VERBS {
            if verb.word() == word {
                return Some(verb);
            }
        }
        None
    }
}

/// The first words of a line: `MOMENT AE VERB`.
#[derive(Clone, Copy)]
pub(crate) struct LineHeading {
    /// The time of the request, in seconds since 1970-01-01 UTC.
    pub moment: u64,
    /// The title of the application entity that makes the request.
    pub ae: Ae,
    /// The kind of request.
    pub verb: Verb,
}

/// Returns the moment that a word encodes, or None if it encodes none.
fn moment_of(word: &[u8]) -> Option<u64>
    ensures moment { IfSome result IsMoment }
    ensures value { IfSome result (IsMomentWord word.now) }
    ensures none { IfNone result (NoMoment word.now) }
{
    let moment = number_of(word)?;
    if moment > MAX_MOMENT {
        return None;
    }
    Some(moment)
}

/// Returns the title that a word encodes.
///
/// Errors: Escape; Title; lack of memory.
fn title_of<A: Allocator + Copy>(alloc: A, word: &[u8]) -> Result<Ae, LineFault>
    ensures title { IfOk result (IsTitleWord word.now) }
    ensures fault { IfErr result (λ fault. OnBad fault (NoTitle word.now)) }
{
    let text = Text::of(word).ok_or(LineReason::Escape)?;
    let title = Ae::of(text.bytes(alloc)?.as_slice()).ok_or(LineReason::Title)?;
    Ok(title)
}

/// Reads the verb from the next word.
///
/// Errors: MissingWord or EmptyWord; Verb.
fn verb_in(words: &mut Words<'_>) -> Result<Verb, LineReason>
    ensures verb { IfOk result (λ verb. words_left (option_copied words.old.rest) ≡ verb_word verb ∷ words_left (option_copied words.new.rest)) }
    ensures fault { IfErr result (FailsVerb (words_left (option_copied words.old.rest))) }
{
    let word = words.word()?;
    Verb::of(word).ok_or(LineReason::Verb)
}

impl LineHeading {
    /// Reads the heading from the next words.
    ///
    /// Errors: MissingWord or EmptyWord; Moment; Escape or Title; Verb; lack of memory.
    pub(crate) fn of<A: Allocator + Copy>(
        alloc: A,
        words: &mut Words<'_>,
    ) -> Result<LineHeading, LineFault>
        ensures moment { IfOk result (λ heading. IsMoment heading.moment) }
        ensures words { IfOk result (λ heading. IsHeading (words_left (option_copied words.old.rest)) heading.moment heading.ae heading.verb (words_left (option_copied words.new.rest))) }
        ensures fault { IfErr result (λ fault. OnBad fault (FailsHeading (words_left (option_copied words.old.rest)))) }
    {
        let moment = moment_of(words.word()?).ok_or(LineReason::Moment)?;
        let ae = title_of(alloc, words.word()?)?;
        let verb = verb_in(words)?;
        Ok(LineHeading { moment, ae, verb })
    }
}
