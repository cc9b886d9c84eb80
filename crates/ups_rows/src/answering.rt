//! The answers to a query from rows.

ghost use Rattle.std.specs.Prelude.{◌≡◌, ◌<◌, ◌≤◌, ◌-◌, ◌+◌, ◌^◌, ◌++◌, [], ◌∷◌, length, IfOk, OnOk, if◌then◌else◌};
ghost use Rattle.ups_dataset.specs.Data.{answer};
ghost use Rattle.ups_rows.specs.Answering.{answers_among, attributes_of_rows, rows_of_parts};

use crate::shared_part::SharedPart;
use crate::shared_row::SharedRow;
use std::alloc::{AllocError, Allocator};
use ups_life::Sets;
use ups_match::{Keys, Matcher};

/// Adds the answer of a row to keys if the row matches them.
///
/// Errors: if memory runs out.
fn add_match<A: Allocator + Copy, M: Matcher>(
    found: &mut Sets<A>,
    shared: &SharedRow<A>,
    keys: &Keys<A>,
    matcher: &mut M,
) -> Result<(), AllocError>
    requires { M.asked matcher.old < 2 ^ 64 - 1 }
    ensures found { OnOk result (found.new ≡ found.old ++ (if M.says keys.now shared.now.attributes then answer shared.now.attributes keys.now.attributes ∷ [] else [])) }
    ensures count { M.asked matcher.new ≡ M.asked matcher.old + 1 }
{
    let row = shared.get();
    if matcher.matches(keys, &row.attributes) {
        found.push(row.attributes.answer(keys.attributes())?)?;
    }
    Ok(())
}

/// Adds the answers to keys of those rows that match them, in their order. The matcher is asked once about each row.
///
/// Errors: if memory runs out.
fn add_matches<A: Allocator + Copy, M: Matcher>(
    found: &mut Sets<A>,
    rows: &[SharedRow<A>],
    keys: &Keys<A>,
    matcher: &mut M,
) -> Result<(), AllocError>
    requires { M.asked matcher.old + length rows.now < 2 ^ 64 }
    ensures found { OnOk result (found.new ≡ found.old ++ answers_among (M.says keys.now) keys.now.attributes (attributes_of_rows rows.now)) }
    ensures each { OnOk result (M.asked matcher.new ≡ M.asked matcher.old + length rows.now) }
    ensures most { M.asked matcher.new ≤ M.asked matcher.old + length rows.now }
{
    for shared in rows {
        add_match(found, shared, keys, matcher)?;
    }
    Ok(())
}

/// Adds the answers as `add_matches` does, if there are no more than `left` rows, and returns how many rows may follow.
///
/// Errors: if memory runs out, or if there are more rows, of which none is asked about then.
pub(crate) fn add_some<A: Allocator + Copy, M: Matcher>(
    found: &mut Sets<A>,
    rows: &[SharedRow<A>],
    left: usize,
    keys: &Keys<A>,
    matcher: &mut M,
) -> Result<usize, AllocError>
    requires { M.asked matcher.old + left < 2 ^ 64 }
    ensures found { OnOk result (found.new ≡ found.old ++ answers_among (M.says keys.now) keys.now.attributes (attributes_of_rows rows.now)) }
    ensures each { OnOk result (M.asked matcher.new ≡ M.asked matcher.old + length rows.now) }
    ensures most { M.asked matcher.new ≤ M.asked matcher.old + length rows.now }
    ensures left { IfOk result (λ more. more + length rows.now ≡ left) }
{
    if rows.len() > left {
        return Err(AllocError);
    }
    add_matches(found, rows, keys, matcher)?;
    Ok(left - rows.len())
}

/// Adds the answers of the rows of parts, one part after another, if there are no more than `left` rows, and returns
/// how many rows may follow.
///
/// Errors: if memory runs out, or if there are more rows.
pub(crate) fn add_parts<A: Allocator + Copy, M: Matcher>(
    found: &mut Sets<A>,
    parts: &[SharedPart<A>],
    left: usize,
    keys: &Keys<A>,
    matcher: &mut M,
) -> Result<usize, AllocError>
    requires { M.asked matcher.old + left < 2 ^ 64 }
    ensures found { OnOk result (found.new ≡ found.old ++ answers_among (M.says keys.now) keys.now.attributes (rows_of_parts parts.now)) }
    ensures each { OnOk result (M.asked matcher.new ≡ M.asked matcher.old + length (rows_of_parts parts.now)) }
    ensures most { M.asked matcher.new ≤ M.asked matcher.old + length (rows_of_parts parts.now) }
    ensures left { IfOk result (λ more. more + length (rows_of_parts parts.now) ≡ left) }
{
    let mut more = left;
    for part in parts {
        more = add_some(found, part.rows(), more, keys, matcher)?;
    }
    Ok(more)
}
