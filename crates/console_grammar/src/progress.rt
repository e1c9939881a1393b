// How far an input was read.
ghost use Rattle.std.specs.Prelude.{◌≡◌};
ghost use Rattle.console_grammar.specs.Held.{unreadable_progress, jobs_in_use, stints_in_use};

use shared_limits::limits::{MOST_JOBS, MOST_STINTS};

// The lengths of the lent lists: one entry more than a schedule may have, so that a list that is too long is kept too long.
pub const JOB_ENTRIES: usize = MOST_JOBS + 1;

pub const STINT_ENTRIES: usize = MOST_STINTS + 1;

// The kind of the last line.
#[derive(Clone, Copy, Debug, PartialEq, Eq)]
pub enum Part {
    // No line was read yet.
    Start,
    Words,
    // The address where the block begins and the address after its last word.
    Block(u64, u64),
    Jobs,
    Stints,
    // A line was unreadable, and so is the input.
    // Kept: a kind of line and no `None` for the progress: a host may hand back a reader of this kind with any counts, and number 5 tests
    // these (`reader_verdict`).
    Unreadable,
}

// The kind of the last line, the length of the memory, and how many entries of the lists are in use.
// Kept: the counts carry no bound of their own, since a host may hand back a reader with any, and number 5 tests them (`reader_verdict`).
#[derive(Clone, Copy, Debug, PartialEq, Eq)]
pub struct Progress {
    pub part: Part,
    pub words: usize,
    pub jobs: usize,
    pub stints: usize,
}

impl Progress {
    // The progress of an unreadable input.
    pub(crate) fn refused() -> Progress
        ensures { result ≡ unreadable_progress }
    {
        Progress {
            part: Part::Unreadable,
            words: 0,
            jobs: 0,
            stints: 0,
        }
    }

    // The last line was a job's, and this many entries are in use.
    pub(crate) fn with_jobs(self, jobs: usize) -> Progress
        ensures { result ≡ jobs_in_use self jobs }
    {
        Progress {
            part: Part::Jobs,
            jobs,
            ..self
        }
    }

    // The last line was a stint's, and this many entries are in use.
    pub(crate) fn with_stints(self, stints: usize) -> Progress
        ensures { result ≡ stints_in_use self stints }
    {
        Progress {
            part: Part::Stints,
            stints,
            ..self
        }
    }
}
