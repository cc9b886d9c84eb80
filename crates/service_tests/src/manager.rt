//! The manager as code uses it: by numbers of callers, and as a service. The rows only for a service are scripts
//! (`rows/services.rows`).

ghost use Rattle.std.specs.Prelude.{[], ◌∷◌};
ghost use Rattle.ups_life.specs.Settings.{IsMoment};
ghost use Rattle.ups_service.specs.Law.{Calls};

use fixtures::words::message_of;
use fixtures::{a_step, described, put_item, put_text, tag_of, title, uid};
use std::alloc::{Allocator, Global};
use std::test::Fail;
use ups_cycle::StepState;
use ups_dataset::DataSet;
use ups_dimse::Tags;
use ups_life::{Ask, Entry, MAX_MOMENT, Peer, Reply, Request, StepUid, Transaction, read_request};
use ups_manager::*;
use ups_match::Keys;
use ups_pdu::{Ae, Uid};

mod counted;
mod entries;
mod filters;
mod lasting;
mod memory;
mod starting;

/// The steps that the tests create.
const STEPS: [&str; 3] = ["1.2.3.1", "1.2.3.2", "1.2.3.3"];

/// The offset of the local time, in minutes, in which keys are read.
const OFFSET: i16 = 60;

/// The verb of a line.
#[derive(Clone, Copy)]
enum Verb {
    Create,
    Change,
    Cancel,
    Set,
    Get,
    Find,
    Words,
}

/// What a line asks, by whom and when.
///
/// A line is the number of the caller, the title of the application entity, the moment, the verb, the step, its new
/// state and the Transaction UID, with `-` if there is none, and after a bar the attributes, separated by bars, with
/// those of an item after a slash. A new step has them in addition to the usual ones. After the verb `words` the step
/// and what follows it mean nothing, and after the bar come the words of a message (`fixtures::words`), an
/// acknowledgement or a sweep.
#[derive(Clone, Copy)]
struct Line {
    caller: u32,
    ae: Ae,
    moment: u64,
    verb: Verb,
    step: StepUid,
    state: StepState,
    transaction: Transaction,
}

/// Returns the verb that a word names.
fn verb_of(word: &str) -> Verb {
    match word {
        "create" => Verb::Create,
        "change" => Verb::Change,
        "cancel" => Verb::Cancel,
        "set" => Verb::Set,
        "find" => Verb::Find,
        "words" => Verb::Words,
        _ => Verb::Get,
    }
}

/// Returns the state that a word names.
fn state_of(word: &str) -> StepState {
    match word {
        "IN_PROGRESS" => StepState::InProgress,
        "COMPLETED" => StepState::Completed,
        "CANCELED" => StepState::Canceled,
        _ => StepState::Scheduled,
    }
}

/// Parses the UID of a step.
fn step_uid(text: &str) -> Result<StepUid, Fail> {
    Ok(StepUid::of(uid(text)?).ok_or("the UID of a step")?)
}

/// Parses a Transaction UID.
fn transaction(text: &str) -> Transaction {
    match Uid::of(text.as_bytes()) {
        Some(uid) => Transaction::Proper(uid),
        None if text.is_empty() => Transaction::Absent,
        None => Transaction::Malformed,
    }
}

/// Parses the number of a caller.
fn caller_of(word: Option<&str>) -> Result<u32, Fail> {
    Ok(word.unwrap_or("").parse::<u32>()?)
}

/// Parses a moment.
fn moment_of(word: Option<&str>) -> Result<u64, Fail> {
    Ok(word.unwrap_or("").parse::<u64>()?)
}

/// Reads the part of a line before its attributes.
fn line_of(front: &str) -> Result<Line, Fail> {
    let mut words = front.split(' ');
    Ok(Line {
        caller: caller_of(words.next())?,
        ae: title(words.next().unwrap_or(""))?,
        moment: moment_of(words.next())?,
        verb: verb_of(words.next().unwrap_or("")),
        step: step_uid(words.next().unwrap_or(""))?,
        state: state_of(words.next().unwrap_or("")),
        transaction: transaction(words.next().unwrap_or("").trim_start_matches('-')),
    })
}

/// Inserts a value, which follows its tag and `=`.
fn put_value<A: Allocator + Copy>(
    alloc: A,
    set: &mut DataSet<A>,
    attribute: &str,
) -> Result<(), Fail> {
    let (tag, value) = attribute.split_once('=').ok_or("a value")?;
    put_text(alloc, set, tag_of(tag)?, value.as_bytes())
}

/// Returns the item with these values, which are separated by commas.
fn item_of<A: Allocator + Copy>(alloc: A, values: &str) -> Result<DataSet<A>, Fail> {
    let mut item = DataSet::new(alloc);
    for value in values.split_terminator(',') {
        put_value(alloc, &mut item, value)?;
    }
    Ok(item)
}

/// Inserts an attribute: a value, or an item after its tag and a slash.
fn put_attribute<A: Allocator + Copy>(
    alloc: A,
    set: &mut DataSet<A>,
    attribute: &str,
) -> Result<(), Fail> {
    match attribute.split_once('/') {
        Some((tag, values)) => put_item(alloc, set, tag_of(tag)?, item_of(alloc, values)?),
        None => put_value(alloc, set, attribute),
    }
}

/// Returns a set with these attributes, which replace its own.
pub(crate) fn with<A: Allocator + Copy>(
    alloc: A,
    mut set: DataSet<A>,
    attributes: &str,
) -> Result<DataSet<A>, Fail> {
    for attribute in attributes.split_terminator('|') {
        put_attribute(alloc, &mut set, attribute)?;
    }
    Ok(set)
}

/// Returns the keys with these attributes. Those without a zone are in UTC.
pub(crate) fn keys_of<A: Allocator + Copy>(alloc: A, attributes: &str) -> Result<Keys<A>, Fail> {
    Ok(Keys::of(with(alloc, DataSet::new(alloc), attributes)?, 0)?)
}

/// Returns the request of a line with these attributes.
fn request_of<A: Allocator + Copy>(line: &Line, attributes: DataSet<A>) -> Request<A> {
    let (step, state, transaction) = (line.step, line.state, line.transaction);
    match line.verb {
        Verb::Create => Request::Create { step, attributes },
        Verb::Change => Request::Change {
            step: Some(step),
            state,
            transaction,
        },
        Verb::Cancel => Request::AskCancel {
            step: Some(step),
            reasons: attributes,
        },
        _ => Request::Set {
            step: Some(step),
            transaction,
            attributes,
        },
    }
}

/// Returns the request of these words.
fn worded<A: Allocator + Copy>(alloc: A, text: &str) -> Result<Request<A>, Fail> {
    if text == "sweep" {
        return Ok(Request::Sweep);
    }
    if let Some(number) = text.strip_prefix("ack ") {
        let upto = number.parse::<u64>()?;
        return Ok(Request::Ack { upto });
    }
    let (operation, set) = message_of(alloc, text)?;
    match read_request(alloc, &operation, set, OFFSET) {
        Ok(Ask::Do(request)) => Ok(request),
        _ => Err("no request".into()),
    }
}

/// Returns what a line with these attributes asks.
fn ask_of<A: Allocator + Copy>(alloc: A, line: &Line, attributes: &str) -> Result<Ask<A>, Fail> {
    let own = match line.verb {
        Verb::Create => a_step(alloc)?,
        Verb::Find => return Ok(Ask::Find(keys_of(alloc, attributes)?)),
        Verb::Words => return Ok(Ask::Do(worded(alloc, attributes)?)),
        Verb::Get => {
            return Ok(Ask::Get {
                step: Some(line.step),
                attributes: Tags::new(alloc),
            });
        }
        _ => DataSet::new(alloc),
    };
    Ok(Ask::Do(request_of(line, with(alloc, own, attributes)?)))
}

/// Calls any service, knowing only the trait's contract.
fn asked_of<A: Allocator + Copy, S: Service<A>>(
    service: &mut S,
    ae: Ae,
    moment: u64,
    ask: Ask<A>,
) -> Reply<A>
    requires { IsMoment moment }
    ensures { Calls (S.settings service.old) (S.others service.old) (S.caller service.old) (S.seen service.old) ae (ask ∷ []) (moment ∷ []) (result ∷ []) (S.seen service.new) }
{
    service.call(ae, moment, ask)
}

/// Asks a manager itself, or as a service.
fn reply_to<A: Allocator + Copy>(
    manager: &mut Manager<A>,
    line: &Line,
    ask: Ask<A>,
    is_service: bool,
) -> Result<Reply<A>, Fail> {
    if line.moment > MAX_MOMENT {
        return Err("no moment".into());
    }
    Ok(if is_service {
        asked_of(manager, line.ae, line.moment, ask)
    } else {
        manager.answer_as(line.caller, line.ae, line.moment, ask)
    })
}

/// Returns three peers, two of which may lock steps.
fn three_peers() -> Result<[Peer; 3], Fail> {
    Ok([
        Peer {
            ae: title("W1")?,
            lock: true,
        },
        Peer {
            ae: title("W2")?,
            lock: true,
        },
        Peer {
            ae: title("W3")?,
            lock: false,
        },
    ])
}

/// Returns a manager with three peers.
fn a_manager<A: Allocator + Copy>(alloc: A) -> Result<Manager<A>, Fail> {
    Ok(Manager::new(alloc, &three_peers()?, 60, OFFSET, 1_000)?)
}

/// Returns a manager with the same peers whose history has no end.
fn a_lasting_manager<A: Allocator + Copy>(alloc: A) -> Result<Manager<A>, Fail> {
    Ok(Manager::lasting(alloc, &three_peers()?, 60, OFFSET)?)
}

/// Returns the number of the status of a reply, or 0xFFFF if it says that an acknowledgement is ahead or stale, which
/// has no status.
fn status_of<A: Allocator + Copy>(reply: &Reply<A>) -> u16 {
    match reply {
        Reply::Status(status) => status.code(),
        Reply::Set(status, _) => status.code(),
        Reply::Sets(_) | Reply::Swept(_) | Reply::Reports(_) => 0x0000,
        Reply::AckAhead | Reply::AckStale => 0xFFFF,
    }
}

/// Adds a space and a set as a text.
fn put_set<A: Allocator + Copy>(
    rt: &impl AllocGlobal,
    text: &mut String,
    set: &DataSet<A>,
) -> Result<(), Fail> {
    text.push_str(" ")?;
    text.push_str(described(set, rt)?.as_str().trim_end())?;
    Ok(())
}

/// Returns a reply as a text: its status, and the sets that it shows, or the number of steps that a sweep removes.
fn told<A: Allocator + Copy>(rt: &impl AllocGlobal, reply: &Reply<A>) -> Result<String, Fail> {
    let mut text = format!(in rt.alloc(); "{:04X}", status_of(reply))?;
    match reply {
        Reply::Swept(count) => text.push_str(format!(in rt.alloc(); "+{count}")?.as_str())?,
        Reply::Set(_, set) => put_set(rt, &mut text, set)?,
        Reply::Sets(sets) => {
            for set in sets.as_slice() {
                put_set(rt, &mut text, set)?;
            }
        }
        _ => {}
    }
    Ok(text)
}

/// Asks what a line says, and returns the reply as a text.
pub(crate) fn answer_to(
    rt: &impl AllocGlobal,
    manager: &mut Manager<Global>,
    line: &str,
    is_service: bool,
) -> Result<String, Fail> {
    let (front, attributes) = line.split_once('|').ok_or("attributes")?;
    let line = line_of(front)?;
    let ask = ask_of(rt.alloc(), &line, attributes)?;
    told(rt, &reply_to(manager, &line, ask, is_service)?)
}

/// Returns bytes as a text.
fn text_of(bytes: &[u8]) -> Result<&str, Fail> {
    Ok(std::str::from_utf8(bytes).ok().ok_or("a text")?)
}

/// Returns the bytes of a Transaction UID, or a dash if there is none.
fn uid_in(transaction: &Transaction) -> &[u8] {
    match transaction {
        Transaction::Absent => b"-",
        Transaction::Malformed => b"malformed",
        Transaction::Proper(uid) => uid.as_bytes(),
    }
}

/// Returns the verb of a request, its state and its Transaction UID, with a dash for what it does not have.
fn words_of<A: Allocator + Copy>(request: &Request<A>) -> (&'static str, &'static [u8], &[u8]) {
    let none = b"-".as_slice();
    match request {
        Request::Create { .. } => ("create", none, none),
        Request::Change {
            state,
            transaction,
            ..
        } => ("change", state.text(), uid_in(transaction)),
        Request::AskCancel { .. } => ("cancel", none, none),
        Request::Set { transaction, .. } => ("set", none, uid_in(transaction)),
        _ => ("watch", none, none),
    }
}

/// Returns the attributes of a request, or None if it has none.
fn attributes_in<A: Allocator + Copy>(request: &Request<A>) -> Option<&DataSet<A>> {
    match request {
        Request::Create { attributes, .. } | Request::Set { attributes, .. } => Some(attributes),
        Request::AskCancel { reasons, .. } => Some(reasons),
        _ => None,
    }
}

/// Adds a word and a space.
fn put_bytes(text: &mut String, bytes: &[u8]) -> Result<(), Fail> {
    text.push_str(text_of(bytes)?)?;
    Ok(text.push(' ')?)
}

/// Adds what an entry asks for: its verb, its step, its state and its Transaction UID.
fn put_request<A: Allocator + Copy>(text: &mut String, request: &Request<A>) -> Result<(), Fail> {
    let (verb, state, uid) = words_of(request);
    let step = request.step();
    text.push_str(verb)?;
    text.push(' ')?;
    put_bytes(
        text,
        step.as_ref().map_or(b"-".as_slice(), StepUid::as_bytes),
    )?;
    put_bytes(text, state)?;
    Ok(text.push_str(text_of(uid)?)?)
}

/// Adds an entry as a line, with its attributes as text.
fn put_entry<A: Allocator + Copy>(
    rt: &impl AllocGlobal,
    text: &mut String,
    entry: &Entry<A>,
) -> Result<(), Fail> {
    write!(text, "{} ", entry.caller)?;
    put_bytes(text, entry.ae.as_bytes())?;
    write!(text, "{} ", entry.moment)?;
    put_request(text, &entry.request)?;
    text.push('|')?;
    if let Some(set) = attributes_in(&entry.request) {
        text.push_str(described(set, rt)?.as_str().trim_end())?;
    }
    Ok(text.push('\n')?)
}

/// Returns the holder of a step, by the number of the caller and its title, or a dash.
fn holder_of<A: Allocator + Copy>(
    rt: &impl AllocGlobal,
    manager: &Manager<A>,
    step: StepUid,
) -> Result<String, Fail> {
    match manager.holder(step) {
        Some(holder) => {
            let ae = text_of(holder.ae.as_bytes())?;
            Ok(format!(in rt.alloc(); "{} {ae}", holder.caller)?)
        }
        None => Ok(format!(in rt.alloc(); "-")?),
    }
}

/// Returns the holder of a step, and all that is shown of it.
fn step_of<A: Allocator + Copy>(
    rt: &impl AllocGlobal,
    manager: &Manager<A>,
    step: &str,
) -> Result<String, Fail> {
    let step = step_uid(step)?;
    let shown = told(rt, &manager.get(Some(step), &[]))?;
    let holder = holder_of(rt, manager, step)?;
    Ok(format!(in rt.alloc(); "{holder}: {shown}\n")?)
}

/// Adds the history of a manager, an entry a line.
fn put_history<A: Allocator + Copy>(
    rt: &impl AllocGlobal,
    text: &mut String,
    manager: &Manager<A>,
) -> Result<(), Fail> {
    for entry in manager.history() {
        put_entry(rt, text, entry)?;
    }
    Ok(())
}

/// Returns all that a manager tells: its history, the holder of each step, and what is shown of it.
pub(crate) fn picture<A: Allocator + Copy>(
    rt: &impl AllocGlobal,
    manager: &Manager<A>,
) -> Result<String, Fail> {
    let mut text = String::new(rt.alloc());
    put_history(rt, &mut text, manager)?;
    for step in STEPS {
        text.push_str(step_of(rt, manager, step)?.as_str())?;
    }
    Ok(text)
}
