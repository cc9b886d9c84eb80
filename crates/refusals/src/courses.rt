//! A course: parts that one service handles, one after the other.

use crate::lasting::add_lasting;
use crate::lines::{no_course, title_of};
use crate::options::CourseSettings;
use crate::parts::add_part;
use fixtures::Refusing;
use std::alloc::{Allocator, Global};
use std::io;
use ups_life::Peer;
use ups_manager::Manager;

/// The number of seconds for which a finished step is kept.
pub(crate) const KEEP: u32 = 60;

/// Runs the course of a line, refusing one growth of its service, and returns its outcome.
///
/// Errors: InvalidData if the line is not valid; lack of memory elsewhere.
pub(crate) fn course_of(alloc: Global, line: &str) -> io::Result<String> {
    let Some((first, parts)) = line.split_once(' ') else {
        return Err(no_course());
    };
    let settings = CourseSettings::of(first)?;
    let mut text = String::new(alloc);
    add_course(alloc, &mut text, settings, parts)?;
    Ok(text)
}

/// Returns the peers, of which W2 may not lock steps.
pub(crate) fn three_peers() -> io::Result<[Peer; 3]> {
    Ok([
        Peer {
            ae: title_of(b"W1")?,
            lock: true,
        },
        Peer {
            ae: title_of(b"W2")?,
            lock: false,
        },
        Peer {
            ae: title_of(b"W3")?,
            lock: true,
        },
    ])
}

/// Runs a course, refusing the growth that the settings name, and adds its outcome and whether a growth was refused.
fn add_course(
    alloc: Global,
    text: &mut String,
    settings: CourseSettings,
    parts: &str,
) -> io::Result<()> {
    if settings.is_lasting {
        return add_lasting(alloc, text, settings.offset, parts);
    }
    let heap = Refusing::new(alloc);
    heap.refuse(settings.refused);
    add_parts(alloc, &heap, text, settings, parts)?;
    let is_whole = settings.refused == 0 || heap.is_armed();
    text.push_str(if is_whole { "all" } else { "refused" })?;
    Ok(())
}

/// Runs each part of a course with a new service, and adds its outcome; adds nothing if there is no memory for a
/// service.
fn add_parts<A: Allocator + Copy>(
    alloc: Global,
    heap: A,
    text: &mut String,
    settings: CourseSettings,
    parts: &str,
) -> io::Result<()> {
    match Manager::new(
        heap,
        &three_peers()?,
        KEEP,
        settings.offset,
        settings.history,
    ) {
        Ok(mut manager) => add_each(alloc, heap, &mut manager, text, parts),
        Err(_) => Ok(()),
    }
}

/// Runs each part, and adds its outcome.
fn add_each<A: Allocator + Copy>(
    alloc: Global,
    heap: A,
    manager: &mut Manager<A>,
    text: &mut String,
    parts: &str,
) -> io::Result<()> {
    for part in parts.split(' ') {
        add_part(alloc, heap, manager, text, part)?;
    }
    Ok(())
}
