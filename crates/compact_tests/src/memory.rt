use fixtures::rows::check;
use fixtures::{Refusing, uid};
use std::alloc::{Allocator, Global};
use std::test::Fail;
use ups_compact::KeptSteps;
use ups_life::StepUid;

/// The maximum number of growths that a test refuses in turn.
const GROWTHS: u64 = 100;

/// The steps that stay, one of them twice.
const STEPS: [&str; 4] = ["1.2.3.3", "1.2.3.1", "1.2.3.3", "1.2.3.20"];

/// Steps that go.
const OTHERS: [&str; 2] = ["1.2.3.2", "1.2.3"];

/// Parses the UID of a step.
fn step_of(text: &str) -> Result<StepUid, Fail> {
    Ok(StepUid::of(uid(text)?).ok_or("the UID of a step")?)
}

/// Returns the steps that stay.
fn steps_of<'a>(heap: &'a Refusing<Global>) -> Result<Vec<StepUid, &'a Refusing<Global>>, Fail> {
    heap.refuse(0);
    let mut steps = Vec::new(heap);
    for step in STEPS {
        steps.push(step_of(step)?)?;
    }
    Ok(steps)
}

/// Fails if one of those steps does not stay, or another one does.
fn check_kept<A: Allocator + Copy>(kept: &KeptSteps<A>) -> Result<(), Fail> {
    for step in STEPS {
        check(step, kept.has(step_of(step)?))?;
    }
    for step in OTHERS {
        check(step, !kept.has(step_of(step)?))?;
    }
    Ok(())
}

/// Returns the number of growths that a list took, if it is the right one.
fn count_of<A: Allocator + Copy>(kept: &KeptSteps<A>, growths: u64) -> Result<u64, Fail> {
    check_kept(kept)?;
    Ok(growths)
}

/// Makes the list with each growth refused in turn, and returns the number of growths.
fn made_in_turn(heap: &Refusing<Global>) -> Result<u64, Fail> {
    for growths in 0..GROWTHS {
        let steps = steps_of(heap)?;
        heap.refuse(growths + 1);
        let kept = KeptSteps::of(heap, steps);
        let is_refused = !heap.is_armed();
        match kept {
            Ok(kept) if !is_refused => return count_of(&kept, growths),
            Err(_) if is_refused => (),
            _ => return Err("no lack of memory where a growth is refused".into()),
        }
    }
    Err("there are more growths".into())
}

#[test]
fn a_list_of_steps_lacks_memory_where_a_growth_is_refused(rt: HostRuntime) -> Result<(), Fail> {
    let heap = Refusing::new(rt.alloc());
    let growths = made_in_turn(&heap)?;
    assert!(rt; growths >= 3);
    Ok(())
}
