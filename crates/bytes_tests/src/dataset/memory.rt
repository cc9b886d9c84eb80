use super::{is_described, set_read};
use fixtures::{Refusing, bytes_of, described};
use std::alloc::{Allocator, Global};
use std::test::*;
use ups_dataset::dictionary::*;
use ups_dataset::*;
use ups_pdu::TransferSyntax;

/// A set with bytes, a sequence with two items and a group length. Its values are too long to be held in place.
const MIXED: &str =
    r#"10002000 "LO" 2000 "P1 OF THE TEACHING HOSPITAL EAST" 74000000 "UL" 0400 00000000 74001612 "SQ" 0000 ffffffff feff00e0 28000000 08000401 "LO" 2000 "CHEST CT WITHOUT CONTRAST MEDIUM" feff00e0 00000000 feffdde0 00000000"#;

/// The text of the set of `MIXED`.
const DESCRIBED: &str =
    "00100020=P1_OF_THE_TEACHING_HOSPITAL_EAST 00741216=[00080104=CHEST_CT_WITHOUT_CONTRAST_MEDIUM ][] ";

/// Keys: two that the set of `MIXED` has, and three that it does not have, one of which is a sequence with an item.
const KEYS: &str =
    r#"08001800 "UI" 0000 10002000 "LO" 0200 "* " 40000540 "DT" 0a00 "20240229- " 40003340 "SQ" 0000 08000000 feff00e0 00000000 74001612 "SQ" 0000 00000000"#;

/// No growth is refused.
const NONE: u64 = 0;

/// The maximum number of growths that a test refuses in turn.
const GROWTHS: u64 = 100;

/// Reads with each growth refused in turn, and returns their number.
fn growths_of_reading(rt: &impl AllocGlobal, bytes: &[u8]) -> Result<u64, Fail> {
    let heap = Refusing::new(rt.alloc());
    for number in 1..GROWTHS {
        heap.refuse(number);
        let fault = read_set(&heap, TransferSyntax::Explicit, bytes).err();
        match (heap.is_armed(), fault) {
            (true, None) => return Ok(number - 1),
            (false, Some(SetFault::Memory)) => {}
            _ => return Err("another answer than Memory where a growth is refused".into()),
        }
    }
    Err("no end of growths".into())
}

#[test]
fn reading_answers_memory_where_a_growth_is_refused(rt: HostRuntime) -> Result<(), Fail> {
    let bytes = bytes_of(&rt, MIXED)?;
    assert!(rt; growths_of_reading(&rt, &bytes)? > 4);
    Ok(())
}

/// An operation on a set.
#[derive(Clone, Copy)]
enum Job {
    Copy,
    Project,
    LayOver,
    LeaveOut,
    Answer,
}

/// Returns whether a job gives the wanted set, or None if memory runs out.
fn is_done<A: Allocator + Copy>(
    rt: &impl AllocGlobal,
    job: Job,
    set: &DataSet<A>,
    keys: &DataSet<A>,
    wanted: &str,
) -> Result<Option<bool>, Fail> {
    let made = match job {
        Job::Copy => set.copy(),
        Job::Project => set.project(&[UNIFIED_PROCEDURE_STEP_PERFORMED_PROCEDURE_SEQUENCE]),
        Job::LayOver => set.laid_over(set),
        Job::LeaveOut => set.without(PATIENT_ID, 0),
        Job::Answer => set.answer(keys),
    };
    match made {
        Ok(made) => Ok(Some(is_described(rt, &made, wanted)?)),
        Err(_) => Ok(None),
    }
}

/// Does a job while a growth may be refused, and returns whether none was. The set must not change.
fn is_done_on<A: Allocator + Copy>(
    rt: &impl AllocGlobal,
    heap: &Refusing<Global>,
    job: Job,
    set: &DataSet<A>,
    keys: &DataSet<A>,
    wanted: &str,
) -> Result<bool, Fail> {
    let done = is_done(rt, job, set, keys, wanted)?;
    if !is_described(rt, set, DESCRIBED)? {
        return Err("the set is another".into());
    }
    match (heap.is_armed(), done) {
        (true, Some(true)) => Ok(true),
        (false, None) => Ok(false),
        _ => Err("an answer where a growth is refused, or a wrong one".into()),
    }
}

/// Does a job with each growth refused in turn, and returns their number.
fn growths_of<A: Allocator + Copy>(
    rt: &impl AllocGlobal,
    heap: &Refusing<Global>,
    job: Job,
    set: &DataSet<A>,
    keys: &DataSet<A>,
    wanted: &str,
) -> Result<u64, Fail> {
    for number in 1..GROWTHS {
        heap.refuse(number);
        if is_done_on(rt, heap, job, set, keys, wanted)? {
            return Ok(number - 1);
        }
    }
    Err("no end of growths".into())
}

/// Returns the number of growths of a job on the sets of `MIXED` and `KEYS`.
fn growths_between<A: Allocator + Copy>(
    rt: &impl AllocGlobal,
    heap: &Refusing<Global>,
    alloc: A,
    job: Job,
    wanted: &str,
) -> Result<u64, Fail> {
    let set = set_read(rt, alloc, TransferSyntax::Explicit, MIXED)?;
    let keys = set_read(rt, alloc, TransferSyntax::Explicit, KEYS)?;
    growths_of(rt, heap, job, &set, &keys, wanted)
}

/// Fails if a job on those sets does not take more growths than a number.
fn check_growths(
    rt: &impl AllocGlobal,
    job: Job,
    more_than: u64,
    wanted: &str,
) -> Result<(), Fail> {
    let heap = Refusing::new(rt.alloc());
    let growths = growths_between(rt, &heap, &heap, job, wanted)?;
    if growths <= more_than {
        return Err("fewer growths".into());
    }
    Ok(())
}

/// Writes with each growth refused in turn, and returns their number.
fn growths_of_writing<A: Allocator + Copy>(
    heap: &Refusing<Global>,
    alloc: A,
    set: &DataSet<A>,
) -> Result<u64, Fail> {
    if set.size() >= 0x1_0000_0000 {
        return Err("a set of 4 GB or more".into());
    }
    for number in 1..GROWTHS {
        heap.refuse(number);
        let is_written = write_set(alloc, TransferSyntax::Explicit, set).is_ok();
        if heap.is_armed() != is_written {
            return Err("an answer where a growth is refused, or none".into());
        }
        if is_written {
            return Ok(number - 1);
        }
    }
    Err("no end of growths".into())
}

/// The text of the elements of `MIXED` except for the patient's ID.
const SEQUENCE: &str = "00741216=[00080104=CHEST_CT_WITHOUT_CONTRAST_MEDIUM ][] ";

/// Returns the number of growths of writing the set of `MIXED`.
fn growths_of_writing_mixed(rt: &impl AllocGlobal) -> Result<u64, Fail> {
    let heap = Refusing::new(rt.alloc());
    let set = set_read(rt, &heap, TransferSyntax::Explicit, MIXED)?;
    growths_of_writing(&heap, &heap, &set)
}

#[test]
fn writing_and_copying_fail_where_a_growth_is_refused(rt: HostRuntime) -> Result<(), Fail> {
    assert!(rt; growths_of_writing_mixed(&rt)? > 0);
    check_growths(&rt, Job::Copy, 4, DESCRIBED)?;
    check_growths(&rt, Job::Project, 3, SEQUENCE)?;
    check_growths(&rt, Job::LayOver, 4, DESCRIBED)
}

/// Inserts an element, which needs at most one growth, while the next is refused; returns whether it is inserted.
fn is_put<A: Allocator + Copy>(
    heap: &Refusing<Global>,
    alloc: A,
    set: &mut DataSet<A>,
    tag: Tag,
) -> Result<bool, Fail> {
    if tag.is_mark() || tag.is_group_length() {
        return Err("no element of a set".into());
    }
    heap.refuse(NONE);
    let value = ValueBytes::copy_of(alloc, b"AB")?;
    heap.refuse(1);
    Ok(set.replace(Element::of_bytes(tag, Vr::Lo, value)).is_ok())
}

/// Returns whether a set, whose text was `before`, is unchanged if a growth is refused, and otherwise has the tag.
fn is_right<A: Allocator + Copy>(
    rt: &impl AllocGlobal,
    set: &DataSet<A>,
    tag: Tag,
    is_refused: bool,
    before: &str,
) -> Result<bool, Fail> {
    if is_refused {
        return is_described(rt, set, before);
    }
    Ok(set.get(tag).is_some())
}

/// Inserts an element into a set whose text is `before`, and returns whether a growth is refused.
fn is_refused_after<A: Allocator + Copy>(
    rt: &impl AllocGlobal,
    heap: &Refusing<Global>,
    alloc: A,
    set: &mut DataSet<A>,
    tag: Tag,
    before: &str,
) -> Result<bool, Fail> {
    let is_put = is_put(heap, alloc, set, tag)?;
    let is_refused = !heap.is_armed();
    if is_put == is_refused || !is_right(rt, set, tag, is_refused, before)? {
        return Err("put where a growth is refused, or not put where none is".into());
    }
    Ok(is_refused)
}

/// Returns whether a growth is refused when an element is inserted: if so, the set must be unchanged.
fn is_refused<A: Allocator + Copy>(
    rt: &impl AllocGlobal,
    heap: &Refusing<Global>,
    alloc: A,
    set: &mut DataSet<A>,
    tag: Tag,
) -> Result<bool, Fail> {
    let before = described(set, rt)?;
    is_refused_after(rt, heap, alloc, set, tag, before.as_str())
}

/// Returns whether a growth is refused when one of six elements is inserted into an empty set.
fn are_refused<A: Allocator + Copy>(
    rt: &impl AllocGlobal,
    heap: &Refusing<Global>,
    alloc: A,
) -> Result<bool, Fail> {
    let mut set = DataSet::new(alloc);
    let mut refused = false;
    for tag in [
        PROCEDURE_STEP_STATE,
        WORKLIST_LABEL,
        PATIENT_ID,
        PATIENT_NAME,
        PROCEDURE_STEP_LABEL,
        ADMISSION_ID,
    ] {
        refused = is_refused(rt, heap, alloc, &mut set, tag)? || refused;
    }
    Ok(refused)
}

#[test]
fn a_set_stays_as_it_was_where_a_growth_is_refused(rt: HostRuntime) -> Result<(), Fail> {
    let heap = Refusing::new(rt.alloc());
    assert!(rt; are_refused(&rt, &heap, &heap)?);
    Ok(())
}

#[test]
fn leaving_out_a_tag_fails_where_a_growth_is_refused(rt: HostRuntime) -> Result<(), Fail> {
    check_growths(&rt, Job::LeaveOut, 3, SEQUENCE)
}

#[test]
fn what_a_set_has_not_is_answered_without_a_value(rt: HostRuntime) -> Result<(), Fail> {
    check_growths(
        &rt,
        Job::Answer,
        3,
        "00080018= 00100020=P1_OF_THE_TEACHING_HOSPITAL_EAST 00404005= 00404033= 00741216=[00080104=CHEST_CT_WITHOUT_CONTRAST_MEDIUM ][] ",
    )
}

/// Returns whether a value is held in place: it is these bytes, although each growth is refused.
fn is_in_place<A: Allocator + Copy>(
    heap: &Refusing<Global>,
    alloc: A,
    front: &[u8],
    back: &[u8],
) -> bool {
    heap.refuse_above(0);
    let value = ValueBytes::joined(alloc, front, back);
    heap.refuse_above(usize::MAX);
    match value {
        Ok(value) => value.as_slice().starts_with(front) && value.as_slice().ends_with(back),
        Err(_) => false,
    }
}

/// A value of 30 bytes.
const THIRTY: &[u8] = b"CHEST CT WITHOUT CONTRAST MEDI";

#[test]
fn thirty_bytes_take_no_memory_and_more_do(rt: HostRuntime) -> Result<(), Fail> {
    let heap = Refusing::new(rt.alloc());
    assert!(rt;
        is_in_place(&heap, &heap, THIRTY, b"") && is_in_place(&heap, &heap, &THIRTY[1..], b"M")
    );
    assert!(rt;
        !is_in_place(&heap, &heap, THIRTY, b"U")
            && !is_in_place(&heap, &heap, b"", b"CHEST CT WITHOUT CONTRAST MEDIUM")
    );
    let copy = ValueBytes::copy_of(&heap, THIRTY)?;
    assert!(rt; copy.len() == 30 && copy.as_slice() == THIRTY);
    Ok(())
}
