use fixtures::rows::check;
use std::test::Fail;
use ups_journal::RecordedOperation;

/// The name of each operation, as in a store.
const OPERATIONS: &str = "\
create
change state
request cancel
set
subscribe
unsubscribe
suspend
acknowledge
sweep
reserve";

/// Returns whether a name is that of the operation that it is read as, which is displayed by it.
fn is_so(rt: &impl AllocGlobal, name: &str) -> Result<bool, Fail> {
    let operation = RecordedOperation::named(name.as_bytes()).ok_or("an operation")?;
    let shown = format!(in rt.alloc(); "{operation}")?;
    Ok(operation.name() == name.as_bytes() && shown.as_str() == name)
}

#[test]
fn an_operation_has_a_name(rt: HostRuntime) -> Result<(), Fail> {
    for name in OPERATIONS.lines() {
        check(name, is_so(&rt, name)?)?;
    }
    Ok(())
}

/// Texts that name no operation: nothing, parts of names, other letters.
const NAMES: &str = "

creat
Create
SET
sets
changestate
change
cancel
sweeps
reserved";

#[test]
fn no_other_name_is_one(_rt: HostRuntime) -> Result<(), Fail> {
    for name in NAMES.lines() {
        check(name, RecordedOperation::named(name.as_bytes()).is_none())?;
    }
    Ok(())
}
