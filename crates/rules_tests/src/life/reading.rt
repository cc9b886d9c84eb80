//! What messages ask for.

use super::words::read;
use super::*;
use fixtures::described;
use ups_dataset::Tag;

/// Messages, and what is read from each: a status; or a verb or a state, the step that is named, the watcher, the
/// Transaction UID, and the attributes or keys. If memory is asked for, there are two: what is read if the first growth
/// is refused, and what is read if the second is.
const READ: &str = r"# A step is created under a UID of its own
create 1.2.3.1 B -> create 1.2.3.1 with 00404005=20240229120000 00404041=READY_ 00741000=SCHEDULED_ 00741200=MEDIUM 00741204=CT_READ_
create none B -> 0117
create global B -> 0117
create filtered B -> 0117
# The listed attributes of a step are asked for
get 1.2.3.1 00741000 00081195 -> 0213, get 1.2.3.1 00741000 00081195
get 1.2.3.1 00741204 00741000 -> 0213, get 1.2.3.1 00741204 00741000
get none -> get none
get global -> get none
get filtered -> get none
# A Transaction UID is read from what is set
set 1.2.3.1 00081195=2.1~ 00741204=CT_READ -> set 1.2.3.1 by 2.1 with 00081195=2.1_ 00741204=CT_READ_
set 1.2.3.1 00081195=2.1_ 00741204=CT_READ -> set 1.2.3.1 by 2.1 with 00081195=2.1_ 00741204=CT_READ_
set 1.2.3.1 00081195= 00741204=CT_READ -> set 1.2.3.1 by absent with 00081195= 00741204=CT_READ_
set 1.2.3.1 00081195=~~ 00741204=CT_READ -> set 1.2.3.1 by absent with 00081195=__ 00741204=CT_READ_
set 1.2.3.1 00081195=1.02 00741204=CT_READ -> set 1.2.3.1 by malformed with 00081195=1.02 00741204=CT_READ_
set 1.2.3.1 00081195=<> 00741204=CT_READ -> set 1.2.3.1 by malformed with 00081195= 00741204=CT_READ_
set none -> set none by absent with
set global -> set none by absent with
set filtered -> set none by absent with
set 1.2.3.1 00741000=COMPLETED -> set 1.2.3.1 by absent with 00741000=COMPLETED_
# A change names a state
1 1.2.3.1 00741000=SCHEDULED 00081195=2.1~ -> SCHEDULED 1.2.3.1 by 2.1
1 1.2.3.1 00741000=IN_PROGRESS 00081195=2.1~ -> IN_PROGRESS 1.2.3.1 by 2.1
1 1.2.3.1 00741000=COMPLETED~ 00081195=2.1~ -> COMPLETED 1.2.3.1 by 2.1
1 1.2.3.1 00741000=CANCELED 00081195=2.1~ -> CANCELED 1.2.3.1 by 2.1
1 1.2.3.1 00741000=IN_PROGRESS 00081195=1.02 -> IN_PROGRESS 1.2.3.1 by malformed
1 1.2.3.1 00741000=IN_PROGRESS 00081195=<> -> IN_PROGRESS 1.2.3.1 by malformed
1 1.2.3.1 00741000=IN_PROGRESS 00081195= -> IN_PROGRESS 1.2.3.1 by absent
1 1.2.3.1 00741000=IN_PROGRESS 00081195=__ -> IN_PROGRESS 1.2.3.1 by absent
1 1.2.3.1 00741000=DONE 00081195=2.1~ -> 0115
1 1.2.3.1 00741000=CANCELLED 00081195=2.1~ -> 0115
1 1.2.3.1 00741000=completed 00081195=2.1~ -> 0115
1 1.2.3.1 00741000= 00081195=2.1~ -> 0115
1 1.2.3.1 00741000=<> 00081195=2.1~ -> 0115
1 1.2.3.1 -> 0115
1 global -> C314
1 1.2.3.1 00741000=COMPLETED -> COMPLETED 1.2.3.1 by absent
2 1.2.3.1 00741000=COMPLETED -> cancel 1.2.3.1 with 00741000=COMPLETED_
# An action is on a step
1 1.2.3.1 00741000=COMPLETED 00741238=stop -> COMPLETED 1.2.3.1 by absent
1 none 00741000=COMPLETED 00741238=stop -> COMPLETED none by absent
1 global 00741000=COMPLETED 00741238=stop -> C314
1 filtered 00741000=COMPLETED 00741238=stop -> C314
2 1.2.3.1 00741000=COMPLETED 00741238=stop -> cancel 1.2.3.1 with 00741000=COMPLETED_ 00741238=stop
2 none 00741000=COMPLETED 00741238=stop -> cancel none with 00741000=COMPLETED_ 00741238=stop
2 global 00741000=COMPLETED 00741238=stop -> C314
2 filtered 00741000=COMPLETED 00741238=stop -> C314
0 1.2.3.1 00741000=COMPLETED 00741238=stop -> 0123
6 1.2.3.1 00741000=COMPLETED 00741238=stop -> 0123
6 global 00741000=COMPLETED 00741238=stop -> 0123
257 1.2.3.1 00741000=COMPLETED 00741238=stop -> 0123
# Subscriptions are to a step, to all, or to those that match keys
3 1.2.3.1 00741234=W1 00741230=FALSE -> watch 1.2.3.1 for W1
3 1.2.3.1 00741234=W1 00741230=TRUE -> lock 1.2.3.1 for W1
3 1.2.3.1 00741234=_W1_ 00741230=TRUE__ -> lock 1.2.3.1 for W1
3 1.2.3.1 00741234=W1 00741230=FALSE 00741202=READS -> watch 1.2.3.1 for W1
3 none 00741234=W1 00741230=FALSE -> watch none for W1
3 global 00741234=W1 00741230=FALSE -> watch-all none for W1
3 global 00741234=W1 00741230=FALSE 00404005=-_ -> watch-all none for W1
3 filtered 00741234=W1 00741230=FALSE 00741202=READS -> watch-those none for W1 with 00741202=READS_ , watch-those none for W1 with 00741202=READS_
3 filtered 00741234=W1 00741230=TRUE 00741202=* 00404005=20240229- -> lock-those none for W1 with 00404005=20240229-_ 00741202=*_ , lock-those none for W1 with 00404005=20240229-_ 00741202=*_
3 1.2.3.1 00741230=TRUE -> 0115
3 1.2.3.1 00741234=<> 00741230=TRUE -> 0115
3 1.2.3.1 00741234=__ 00741230=TRUE -> 0115
3 1.2.3.1 00741234=A_TITLE_THAT_IS_LONG 00741230=TRUE -> 0115
3 1.2.3.1 00741234=W1 -> 0115
3 1.2.3.1 00741234=W1 00741230=<> -> 0115
3 1.2.3.1 00741234=W1 00741230= -> 0115
3 1.2.3.1 00741234=W1 00741230=MAYBE -> 0115
3 1.2.3.1 00741234=W1 00741230=true -> 0115
3 1.2.3.1 00741234=W1 00741230=_TRUE -> 0115
3 filtered 00741234=W1 00741230=FALSE -> 0114
3 filtered 00741234=W1 00741230=FALSE 00741202=* -> 0114
3 filtered 00741234=W1 00741230=FALSE 00741202= -> 0114
3 filtered 00741234=W1 00741230=FALSE 00741202=READS 00404005=-_ -> 0115
3 filtered 00741234=W1 00741230=MAYBE -> 0115
3 filtered 00741230=FALSE -> 0115
4 1.2.3.1 00741234=W1 -> leave 1.2.3.1 for W1
4 1.2.3.1 00741234=W1 00741230=MAYBE 00741202=READS 00404005=-_ -> leave 1.2.3.1 for W1
4 none 00741234=W1 -> leave none for W1
4 global 00741234=W1 -> leave-all none for W1
4 filtered 00741234=W1 -> leave-all none for W1
4 1.2.3.1 -> 0115
4 filtered 00741234=<> -> 0115
5 global 00741234=W1 -> suspend none for W1
5 filtered 00741234=W1 00741230=MAYBE 00741202=READS 00404005=-_ -> suspend none for W1
5 global -> 0115
5 filtered 00741234=a\b -> 0115
5 1.2.3.1 00741234=W1 -> C314
5 1.2.3.1 -> C314
5 none 00741234=W1 -> C314
6 1.2.3.1 00741234=W1 00741230=TRUE -> 0123
# An echo asks nothing of a step
echo none B -> 0211
# Steps are found by keys that can be read
find none 00404005=20240229- -> find 60 00404005=20240229-_ , find 60 00404005=20240229-_
find none 00404005=- -> A900";

/// Adds a UID, or `none`.
fn add_step(text: &mut String, step: Option<StepUid>) -> Result<(), Fail> {
    match step {
        Some(step) => Ok(add_bytes(text, step.as_bytes())?),
        None => Ok(text.push_str("none")?),
    }
}

/// Adds a Transaction UID.
fn add_transaction(text: &mut String, transaction: Transaction) -> Result<(), Fail> {
    text.push_str(" by ")?;
    match transaction {
        Transaction::Absent => Ok(text.push_str("absent")?),
        Transaction::Malformed => Ok(text.push_str("malformed")?),
        Transaction::Proper(uid) => Ok(add_bytes(text, uid.as_bytes())?),
    }
}

/// Returns a word for a subscription.
fn subscribing<A: Allocator + Copy>(target: &Target<A>, lock: bool) -> &'static [u8] {
    match (target, lock) {
        (Target::Single(_), false) => b"watch",
        (Target::Single(_), true) => b"lock",
        (Target::Global, false) => b"watch-all",
        (Target::Global, true) => b"lock-all",
        (Target::Filtered(_), false) => b"watch-those",
        (Target::Filtered(_), true) => b"lock-those",
    }
}

/// Returns the verb of a request, or the state that it asks for.
fn verb_of<A: Allocator + Copy>(request: &Request<A>) -> &'static [u8] {
    match request {
        Request::Create { .. } => b"create",
        Request::Change { state, .. } => state.text(),
        Request::AskCancel { .. } => b"cancel",
        Request::Set { .. } => b"set",
        Request::Subscribe { target, lock, .. } => subscribing(target, *lock),
        Request::Unsubscribe {
            place: Place::Everywhere,
            ..
        } => b"leave-all",
        Request::Unsubscribe { .. } => b"leave",
        Request::Suspend { .. } => b"suspend",
        _ => b"other",
    }
}

/// Returns the Transaction UID of a request that has one.
fn transaction_in<A: Allocator + Copy>(request: &Request<A>) -> Option<Transaction> {
    match request {
        Request::Change { transaction, .. } | Request::Set { transaction, .. } => {
            Some(*transaction)
        }
        _ => None,
    }
}

/// Returns the attributes or the keys of a request that has some.
fn set_in<A: Allocator + Copy>(request: &Request<A>) -> Option<&DataSet<A>> {
    match request {
        Request::Create { attributes, .. } | Request::Set { attributes, .. } => Some(attributes),
        Request::AskCancel { reasons, .. } => Some(reasons),
        Request::Subscribe {
            target: Target::Filtered(filter),
            ..
        } => Some(filter.keys().attributes()),
        _ => None,
    }
}

/// Adds the receiver and the Transaction UID of a request that has them.
fn add_who<A: Allocator + Copy>(text: &mut String, request: &Request<A>) -> Result<(), Fail> {
    if let Some(receiver) = request.receiver() {
        text.push_str(" for ")?;
        add_bytes(text, receiver.as_bytes())?;
    }
    match transaction_in(request) {
        Some(transaction) => add_transaction(text, transaction),
        None => Ok(()),
    }
}

/// Adds the attributes or the keys of a request that has some.
fn add_set<A: Allocator + Copy>(
    rt: &impl AllocGlobal,
    text: &mut String,
    request: &Request<A>,
) -> Result<(), Fail> {
    if let Some(set) = set_in(request) {
        text.push_str(" with ")?;
        text.push_str(described(set, rt)?.as_str())?;
    }
    Ok(())
}

/// Returns a request as text.
fn request_text<A: Allocator + Copy>(
    rt: &impl AllocGlobal,
    request: &Request<A>,
) -> Result<String, Fail> {
    let mut text = String::new(rt.alloc());
    add_bytes(&mut text, verb_of(request))?;
    text.push(' ')?;
    add_step(&mut text, request.named_step())?;
    add_who(&mut text, request)?;
    add_set(rt, &mut text, request)?;
    Ok(text)
}

/// Returns as text what an N-GET asks for.
fn get_text(rt: &impl AllocGlobal, step: Option<StepUid>, listed: &[Tag]) -> Result<String, Fail> {
    let mut text = format!(in rt.alloc(); "get ")?;
    add_step(&mut text, step)?;
    for tag in listed {
        let part = format!(in rt.alloc(); " {:08x}", tag.number())?;
        text.push_str(part.as_str())?;
    }
    Ok(text)
}

/// Returns as text what is asked for.
fn ask_text<A: Allocator + Copy>(rt: &impl AllocGlobal, ask: &Ask<A>) -> Result<String, Fail> {
    match ask {
        Ask::Do(request) => request_text(rt, request),
        Ask::Get { step, attributes } => get_text(rt, *step, attributes.as_slice()),
        Ask::Find(keys) => {
            let set = described(keys.attributes(), rt)?;
            Ok(format!(in rt.alloc(); "find {} {set}", keys.offset())?)
        }
        _ => Err("no message asks this".into()),
    }
}

/// Returns as text what is read: what is asked for, or a status.
fn read_text<A: Allocator + Copy>(
    rt: &impl AllocGlobal,
    read: &Result<Ask<A>, Status>,
) -> Result<String, Fail> {
    match read {
        Ok(ask) => ask_text(rt, ask),
        Err(status) => Ok(format!(in rt.alloc(); "{:04X}", status.code())?),
    }
}

/// Returns what is read from a message while the growth with this number is refused.
fn outcome(
    rt: &impl AllocGlobal,
    heap: &Refusing<Global>,
    message: &str,
    growth: u64,
) -> Result<String, Fail> {
    read_text(rt, &read(heap, message, growth)?)
}

/// Returns a message with what is read from it.
fn row_of(rt: &impl AllocGlobal, heap: &Refusing<Global>, message: &str) -> Result<String, Fail> {
    let mut row = format!(in rt.alloc(); "{message} -> ")?;
    row.push_str(outcome(rt, heap, message, 1)?.as_str())?;
    if !heap.is_armed() {
        row.push_str(", ")?;
        row.push_str(outcome(rt, heap, message, 2)?.as_str())?;
    }
    Ok(row)
}

/// Fails with the first row that does not say what is read.
fn check_rows(rt: &impl AllocGlobal, heap: &Refusing<Global>) -> Result<(), Fail> {
    for row in READ.lines() {
        if let Some((message, _)) = row.split_once(" -> ") {
            check_same(row, row_of(rt, heap, message)?.as_str().trim_end(), row)?;
        }
    }
    Ok(())
}

#[test]
fn messages_ask_what_their_rows_say(rt: HostRuntime) -> Result<(), Fail> {
    let heap = Refusing::new(rt.alloc());
    check_rows(&rt, &heap)
}
