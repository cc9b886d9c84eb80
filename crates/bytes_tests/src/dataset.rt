use fixtures::{bytes_of, described, set_of, words};
use std::alloc::Allocator;
use std::test::*;
use ups_dataset::dictionary::*;
use ups_dataset::*;
use ups_pdu::TransferSyntax;

mod memory;

/// Returns the set encoded in the bytes of a text.
fn set_read<A: Allocator + Copy>(
    rt: &impl AllocGlobal,
    alloc: A,
    syntax: TransferSyntax,
    text: &str,
) -> Result<DataSet<A>, Fail> {
    let bytes = bytes_of(rt, text)?;
    Ok(read_set(alloc, syntax, &bytes)?)
}

/// Encodes a set that is not too large to be written.
fn written_bytes<A: Allocator + Copy>(
    alloc: A,
    syntax: TransferSyntax,
    set: &DataSet<A>,
) -> Result<Vec<u8, A>, Fail> {
    if set.size() >= 0x1_0000_0000 {
        return Err("a set of 4 GB or more".into());
    }
    Ok(write_set(alloc, syntax, set)?)
}

/// Returns whether a set is encoded as these bytes.
fn is_written<A: Allocator + Copy>(
    alloc: A,
    syntax: TransferSyntax,
    set: &DataSet<A>,
    bytes: &[u8],
) -> Result<bool, Fail> {
    let written = written_bytes(alloc, syntax, set)?;
    Ok(written.as_slice() == bytes)
}

/// Fails if the set is not encoded as the bytes of a text.
fn check_written<A: Allocator + Copy>(
    rt: &impl AllocGlobal,
    alloc: A,
    syntax: TransferSyntax,
    set: &DataSet<A>,
    text: &str,
) -> Result<(), Fail> {
    let bytes = bytes_of(rt, text)?;
    if !is_written(alloc, syntax, set, &bytes)? {
        return Err(text.into());
    }
    Ok(())
}

/// Returns whether the text of a set, by `described`, is `wanted`.
fn is_described<A: Allocator + Copy>(
    rt: &impl AllocGlobal,
    set: &DataSet<A>,
    wanted: &str,
) -> Result<bool, Fail> {
    let text = described(set, rt)?;
    Ok(text.as_str() == wanted)
}

/// Fails if the text of a set is not `wanted`.
fn check_described<A: Allocator + Copy>(
    rt: &impl AllocGlobal,
    set: &DataSet<A>,
    wanted: &str,
) -> Result<(), Fail> {
    if !is_described(rt, set, wanted)? {
        return Err(wanted.into());
    }
    Ok(())
}

/// A sequence with one item with one element, all of undefined length.
const UNDEFINED: &str =
    r#"74001612 "SQ" 0000 ffffffff feff00e0 ffffffff 40005040 "DT" 0e00 "20240229120100" feff0de0 00000000 feffdde0 00000000"#;

/// The same with defined lengths.
const DEFINED: &str =
    r#"74001612 "SQ" 0000 1e000000 feff00e0 16000000 40005040 "DT" 0e00 "20240229120100""#;

/// A scheduled procedure step of five elements.
const STEP: &str =
    r#"40000540 0e000000 "20240229120000" 40004140 06000000 "READY " 74000010 0a000000 "SCHEDULED " 74000012 06000000 "MEDIUM" 74000412 08000000 "CT READ ""#;

/// Returns whether these are the bytes of a value.
fn has_bytes<A: Allocator + Copy>(value: &Value<A>, bytes: &[u8]) -> bool {
    match value {
        Value::Bytes(found) => found.as_slice() == bytes,
        Value::Items(_) => false,
    }
}

#[test]
fn an_element_takes_the_place_of_its_tag(rt: HostRuntime) -> Result<(), Fail> {
    let set = set_of(
        rt.alloc(),
        &[
            (PROCEDURE_STEP_STATE, "SCHEDULED "),
            (WORKLIST_LABEL, "URGENT"),
            (PATIENT_ID, "P1"),
            (SCHEDULED_PROCEDURE_STEP_PRIORITY, "HIGH"),
            (PROCEDURE_STEP_STATE, "IN PROGRESS "),
        ],
    )?;
    let is_found = match set.get(PROCEDURE_STEP_STATE) {
        Some(state) => has_bytes(&state.value, b"IN PROGRESS "),
        None => false,
    };
    assert!(rt; is_found && set.get(PATIENT_NAME).is_none());
    check_described(
        &rt,
        &set,
        "00100020=P1 00741000=IN_PROGRESS_ 00741200=HIGH 00741202=URGENT ",
    )
}

/// Returns a tag of the group 0040.
fn tag_at(element: u16) -> Tag {
    Tag {
        group: 0x0040,
        element,
    }
}

/// Returns whether a set has each even tag from 2 to 14 of the group 0040, and none between, below and above them.
fn has_even_tags<A: Allocator + Copy>(set: &DataSet<A>) -> bool {
    for element in 0..=16u16 {
        let stands = element % 2 == 0 && element >= 2 && element <= 14;
        let is_right = match set.get(tag_at(element)) {
            Some(found) => stands && found.tag == tag_at(element),
            None => !stands,
        };
        if !is_right {
            return false;
        }
    }
    true
}

#[test]
fn each_tag_is_found_and_none_between(rt: HostRuntime) -> Result<(), Fail> {
    let set = words::set_of(
        rt.alloc(),
        "0040000a=TEXT 00400002=TEXT 00400008=TEXT 0040000e=TEXT 00400004=TEXT 0040000c=TEXT 00400006=TEXT",
    )?;
    assert!(rt; has_even_tags(&set));
    Ok(())
}

/// Fails if the text of the elements of a set with these tags is not `wanted`.
fn check_projected<A: Allocator + Copy>(
    rt: &impl AllocGlobal,
    set: &DataSet<A>,
    tags: &[Tag],
    wanted: &str,
) -> Result<(), Fail> {
    let some = set.project(tags)?;
    check_described(rt, &some, wanted)
}

#[test]
fn a_projection_has_the_listed_elements(rt: HostRuntime) -> Result<(), Fail> {
    let set = set_read(&rt, rt.alloc(), TransferSyntax::Implicit, STEP)?;
    let tags = [
        PROCEDURE_STEP_LABEL,
        PATIENT_NAME,
        INPUT_READINESS_STATE,
        PROCEDURE_STEP_LABEL,
    ];
    check_projected(&rt, &set, &tags, "00404041=READY_ 00741204=CT_READ_ ")?;
    check_projected(&rt, &set, &[], "")
}

/// Fails if a copy of a set is not encoded as the bytes of a text.
fn check_copied<A: Allocator + Copy>(
    rt: &impl AllocGlobal,
    alloc: A,
    set: &DataSet<A>,
    text: &str,
) -> Result<(), Fail> {
    let copy = set.copy()?;
    check_written(rt, alloc, TransferSyntax::Explicit, &copy, text)
}

#[test]
fn a_copy_is_written_as_the_set(rt: HostRuntime) -> Result<(), Fail> {
    let set = set_read(&rt, rt.alloc(), TransferSyntax::Explicit, UNDEFINED)?;
    check_copied(&rt, rt.alloc(), &set, DEFINED)
}

/// Fails if the text of one set laid over another is not `wanted`.
fn check_laid_over<A: Allocator + Copy>(
    rt: &impl AllocGlobal,
    above: &DataSet<A>,
    below: &DataSet<A>,
    wanted: &str,
) -> Result<(), Fail> {
    let both = above.laid_over(below)?;
    check_described(rt, &both, wanted)
}

#[test]
fn a_set_laid_over_another_hides_what_both_have(rt: HostRuntime) -> Result<(), Fail> {
    let below = set_of(
        rt.alloc(),
        &[
            (PATIENT_ID, "OLD "),
            (PROCEDURE_STEP_STATE, "OLD "),
            (WORKLIST_LABEL, "OLD "),
        ],
    )?;
    let above = set_of(
        rt.alloc(),
        &[
            (PATIENT_NAME, "NEW VALUE "),
            (PROCEDURE_STEP_STATE, "NEW VALUE "),
            (PROCEDURE_STEP_LABEL, "NEW VALUE "),
        ],
    )?;
    check_laid_over(
        &rt,
        &above,
        &below,
        "00100010=NEW_VALUE_ 00100020=OLD_ 00741000=NEW_VALUE_ 00741202=OLD_ 00741204=NEW_VALUE_ ",
    )
}

/// Removes a tag from a copy of a set, and fails if the text of the rest is not `wanted`.
fn check_removed<A: Allocator + Copy>(
    rt: &impl AllocGlobal,
    set: &DataSet<A>,
    tag: Tag,
    wanted: &str,
) -> Result<(), Fail> {
    let mut rest = set.copy()?;
    rest.remove(tag);
    check_described(rt, &rest, wanted)
}

/// Fails if a set without a tag still has it, or if its text is not `wanted`.
fn check_others<A: Allocator + Copy>(
    rt: &impl AllocGlobal,
    set: &DataSet<A>,
    tag: Tag,
    wanted: &str,
) -> Result<(), Fail> {
    let others = set.without(tag, 0)?;
    if others.get(tag).is_some() {
        return Err("the tag is kept".into());
    }
    check_described(rt, &others, wanted)
}

/// The same, and fails too if the text of a set from which the tag is removed is not `wanted`.
fn check_without<A: Allocator + Copy>(
    rt: &impl AllocGlobal,
    set: &DataSet<A>,
    tag: Tag,
    wanted: &str,
) -> Result<(), Fail> {
    check_others(rt, set, tag, wanted)?;
    check_removed(rt, set, tag, wanted)
}

/// Fails if the set of `STEP` without a tag has not the others in order.
fn check_each_without<A: Allocator + Copy>(
    rt: &impl AllocGlobal,
    set: &DataSet<A>,
) -> Result<(), Fail> {
    check_without(
        rt,
        set,
        SCHEDULED_PROCEDURE_STEP_START_DATE_TIME,
        "00404041=READY_ 00741000=SCHEDULED_ 00741200=MEDIUM 00741204=CT_READ_ ",
    )?;
    check_without(
        rt,
        set,
        PROCEDURE_STEP_STATE,
        "00404005=20240229120000 00404041=READY_ 00741200=MEDIUM 00741204=CT_READ_ ",
    )?;
    check_without(
        rt,
        set,
        PROCEDURE_STEP_LABEL,
        "00404005=20240229120000 00404041=READY_ 00741000=SCHEDULED_ 00741200=MEDIUM ",
    )?;
    check_without(
        rt,
        set,
        TRANSACTION_UID,
        "00404005=20240229120000 00404041=READY_ 00741000=SCHEDULED_ 00741200=MEDIUM 00741204=CT_READ_ ",
    )
}

/// Fails if a set without a tag that it does not have is not encoded as `STEP`.
fn check_unchanged<A: Allocator + Copy>(
    rt: &impl AllocGlobal,
    alloc: A,
    set: &DataSet<A>,
) -> Result<(), Fail> {
    let unchanged = set.without(TRANSACTION_UID, 0)?;
    check_written(rt, alloc, TransferSyntax::Implicit, &unchanged, STEP)
}

#[test]
fn a_set_without_a_tag_keeps_the_others_in_order(rt: HostRuntime) -> Result<(), Fail> {
    let set = set_read(&rt, rt.alloc(), TransferSyntax::Implicit, STEP)?;
    check_each_without(&rt, &set)?;
    check_unchanged(&rt, rt.alloc(), &set)
}
