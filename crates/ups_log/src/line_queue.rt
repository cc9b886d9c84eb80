//! The lines of a log that wait to be written.

use std::alloc::{AllocError, Global};
use std::collections::VecDeque;
use std::sync::{Condvar, Mutex, MutexGuard, Wait};
use std::thread;
use std::time::{Clock, Duration};

/// The maximum number of waiting lines, and how many end the rest of the writing thread.
const MOST: usize = 1_024;

const MANY: usize = 512;

/// The number of bytes of lines that are written together, unless one line has more. A pipe that is ready takes as many
/// at once.
const TOGETHER: usize = 4_096;

/// The number of milliseconds for which the writing thread rests when it has written all lines, so that those that come
/// meanwhile are written together, and no thread has to wake it for each. A signal loses the lines of as long a time.
const REST: u64 = 1;

/// The number of milliseconds between two checks whether all lines are written, and the number of checks.
const LOOK: u64 = 10;

const LOOKS: u32 = 100;

/// Lines that are written together.
#[derive(Drop)]
pub(crate) struct Batch {
    /// The lines, each with its line end.
    pub(crate) text: String,
    /// The number of lines lost before the first one.
    pub(crate) lost: u64,
    /// The number of lines.
    count: usize,
}

impl Batch {
    /// Creates a batch of one line, before which `lost` lines were lost.
    ///
    /// # Errors
    ///
    /// If memory runs out.
    fn of(alloc: Global, line: &str, lost: u64) -> Result<Batch, AllocError> {
        let mut text = String::with_capacity(alloc, TOGETHER.max(line.len()))?;
        text.push_str(line)?;
        Ok(Batch {
            text,
            lost,
            count: 1,
        })
    }

    /// Appends a line if there is room for it, and returns whether there was.
    fn add(&mut self, line: &str) -> bool {
        let is_added = self.text.len().saturating_add(line.len()) <= TOGETHER
            && self.text.push_str(line).is_ok();
        if is_added {
            self.count = self.count.saturating_add(1);
        }
        is_added
    }
}

/// What the writing thread does.
#[derive(Clone, Copy, PartialEq, Eq)]
enum Doing {
    /// It writes lines.
    Write,
    /// It rests after that.
    Rest,
    /// It waits for a line.
    Wait,
}

/// The part of a queue that its lock protects.
#[derive(Drop)]
struct Waiting {
    alloc: Global,
    batches: VecDeque<Batch>,
    /// The number of lines in the batches.
    count: usize,
    /// The number of lines lost since the last one that waits.
    lost: u64,
    /// What the writing thread does.
    doing: Doing,
}

impl Waiting {
    /// Appends a line to the last batch, unless that is full or lines were lost since, and returns whether it did.
    fn extend(&mut self, line: &str) -> bool {
        match self.batches.back_mut() {
            Some(batch) if self.lost == 0 => batch.add(line),
            _ => false,
        }
    }

    /// Begins a further batch with a line, and returns whether there was memory for it.
    fn begin(&mut self, line: &str) -> bool {
        match Batch::of(self.alloc, line, self.lost) {
            Ok(batch) => self.batches.push_back(batch).is_ok(),
            Err(_) => false,
        }
    }

    /// Appends a line to those that wait, and returns whether there was room and memory for it.
    fn put(&mut self, line: &str) -> bool {
        let is_put = self.count < MOST && (self.extend(line) || self.begin(line));
        if is_put {
            self.count = self.count.saturating_add(1);
        }
        is_put
    }

    /// Appends a line to those that wait, or counts it as lost.
    fn put_or_lose(&mut self, line: Option<&str>) {
        let is_put = match line {
            Some(line) => self.put(line),
            None => false,
        };
        self.lost = if is_put {
            0
        } else {
            self.lost.saturating_add(1)
        };
    }

    /// Takes the lines that have waited longest, to be written now.
    fn take(&mut self) -> Option<Batch> {
        let batch = self.batches.pop_front()?;
        self.count = self.count.saturating_sub(batch.count);
        self.doing = Doing::Write;
        Some(batch)
    }

    /// Returns whether the writing thread has to be woken.
    fn is_to_wake(&self) -> bool {
        match self.doing {
            Doing::Write => false,
            Doing::Rest => self.count >= MANY,
            Doing::Wait => true,
        }
    }

    /// Returns whether all lines are written.
    fn is_done(&self) -> bool {
        self.batches.is_empty() && self.doing != Doing::Write
    }
}

/// The lines of a log that wait to be written. Putting a line waits for nothing but the lock, under which nothing is
/// written: if `MOST` lines wait already, the line is lost.
#[derive(Drop)]
pub(crate) struct LineQueue {
    waiting: Mutex<Waiting>,
    /// Signals to the writing thread that a line waits, or many do.
    come: Condvar,
}

impl LineQueue {
    /// Creates a queue in which no line waits.
    ///
    /// # Errors
    ///
    /// If memory runs out.
    pub(crate) fn new(alloc: Global) -> Result<LineQueue, AllocError> {
        Ok(LineQueue {
            waiting: Mutex::new(Waiting {
                alloc,
                batches: VecDeque::with_capacity(alloc, MOST)?,
                count: 0,
                lost: 0,
                doing: Doing::Wait,
            }),
            come: Condvar::new(),
        })
    }

    /// Appends a line with its line end to those that wait, or counts it as lost if there is no room or it could not be
    /// made (None).
    pub(crate) fn put<R: Wait>(&self, rt: &R, line: Option<&str>) {
        let mut waiting = self.waiting.lock(rt);
        waiting.put_or_lose(line);
        if waiting.is_to_wake() {
            self.come.notify_one();
        }
    }

    /// Rests, or waits until a line comes.
    fn pause<R: Wait + Clock>(&self, rt: &R, waiting: MutexGuard<'_, Waiting>) {
        if waiting.doing == Doing::Rest {
            self.come
                .wait_timeout(rt, waiting, Duration::from_millis(REST));
        } else {
            let _: MutexGuard<'_, Waiting> = self.come.wait(rt, waiting);
        }
    }

    /// Waits for the next lines to write. Only one thread calls this; each call says that the previous lines are written.
    pub(crate) fn next<R: Wait + Clock>(&self, rt: &R) -> Batch {
        let mut doing = Doing::Rest;
        for _ in rt.forever() {
            let mut waiting = self.waiting.lock(rt);
            if let Some(batch) = waiting.take() {
                return batch;
            }
            waiting.doing = doing;
            self.pause(rt, waiting);
            doing = Doing::Wait;
        }
        unreachable!()
    }

    /// Waits until all lines are written, for at most a second.
    pub(crate) fn drain<R: Wait + Clock>(&self, rt: &R) {
        for _ in 0..LOOKS {
            if self.waiting.lock(rt).is_done() {
                return;
            }
            thread::sleep(rt, Duration::from_millis(LOOK));
        }
    }
}
