// Reads an input line by line, so that one of any length needs no more than the lent memory.
ghost use Rattle.std.specs.Prelude.{◌≡◌};
ghost use Rattle.console_grammar.specs.Held.{lists};
ghost use Rattle.console_grammar.specs.Lent.{lists_in, SameLent};
ghost use Rattle.console_reader.specs.Reader.{reader_state, empty_reader, bytes_fed, lists_long, reader_fits, reader_verdict, feed_answer_to, feed_answer, is_complete};
ghost use Rattle.console_reader.specs.Fed.{ReaderReady};

use super::line_bytes::fill;
use base_outcome::refusal::Refusal;
use console_grammar::lent::Lent;
use console_grammar::progress::{JOB_ENTRIES, Part, Progress, STINT_ENTRIES};
use console_line::form::line_of;

// The length of the lent memory: the most words that an input may ask for.
pub const MEMORY_WORDS: usize = 0o10000;

// How far the input was read, and the line that has begun: its first bytes, and how many of them there are.
// Kept: the length stands beside its buffer, since memory is fixed and `feed` takes any reader: it refuses one whose length is over 32.
#[derive(Clone, Copy)]
pub struct Reader {
    pub progress: Progress,
    pub line: [u8; 32],
    pub length: usize,
}

fn lists_long(jobs: &[u64], stint_jobs: &[u64], stint_turns: &[u64]) -> bool
    ensures { result ≡ lists_long (lists jobs.now stint_jobs.now stint_turns.now) }
{
    jobs.len() == JOB_ENTRIES
        && stint_jobs.len() == STINT_ENTRIES
        && stint_turns.len() == STINT_ENTRIES
}

// Numbers 1, 5 and 6: whether the memory and the lists have their room, and the reader's counts are within it.
// Kept: four slices and no `Lent`, which asks for leave to write: a caller may have them to read alone.
#[tactic(auto, unfolding(crate::specs::Reader::reader_verdict))]
pub fn reader_verdict(
    reader: Reader,
    memory: &[u64],
    jobs: &[u64],
    stint_jobs: &[u64],
    stint_turns: &[u64],
) -> Result<(), Refusal>
    ensures { result ≡ reader_verdict reader memory.now (lists jobs.now stint_jobs.now stint_turns.now) }
{
    if memory.len() != MEMORY_WORDS {
        return Err(Refusal::CentralLength);
    }
    if !reader.fits() {
        return Err(Refusal::RecordValue);
    }
    if !lists_long(jobs, stint_jobs, stint_turns) {
        return Err(Refusal::ListLength);
    }
    Ok(())
}

impl Reader {
    // A reader that has read nothing.
    pub fn new() -> Reader
        ensures { result ≡ empty_reader }
    {
        Reader {
            progress: Progress {
                part: Part::Start,
                words: 0,
                jobs: 0,
                stints: 0,
            },
            line: [0; 32],
            length: 0,
        }
    }

    // The bytes of a line are taken at once, and progress is touched once a line: so reading is fast. One place calls `fill`: with two, the
    // turns of the console program took a fifth longer, since the compiler makes nearly one function of it.
    // Kept: a `while`, since `at` goes from the end of a line to that of the next, which no range counts. Pieces by `split_inclusive` would
    // go over each byte twice, here for the line feed and in `fill`, and the last piece, which may have no line feed, would still need its
    // test.
    #[tactic(auto, using(crate::specs::Laws::Feeding::feeding_steps))]
    pub fn feed_all(self, bytes: &[u8], lent: &mut Lent) -> Reader
        requires { ReaderReady self lent.old.memory.now (lists_in lent.old) }
        ensures read { reader_state result lent.new.memory.now (lists_in lent.new)
            ≡ bytes_fed (reader_state self lent.old.memory.now (lists_in lent.old)) bytes.now }
        ensures same { SameLent lent.old lent.new }
    {
        let mut progress = self.progress;
        let mut line = self.line;
        let mut begun = self.length;
        let mut at: usize = 0;
        while at < bytes.len() {
            let filled = fill(&mut line, begun, bytes, at);
            at = filled.at;
            begun = filled.length;
            if at < bytes.len() {
                let said = line_of(&line[..begun]);
                progress = progress.apply(said, lent);
                begun = 0;
                at += 1;
            }
        }
        Reader {
            progress,
            line,
            length: begun,
        }
    }

    fn fits(self) -> bool
        ensures { result ≡ reader_fits self }
    {
        self.progress.words <= MEMORY_WORDS
            && self.progress.jobs <= JOB_ENTRIES
            && self.progress.stints <= STINT_ENTRIES
            && self.length <= 32
    }

    // The same of what is lent to be written.
    pub fn verdict(self, lent: &Lent) -> Result<(), Refusal>
        ensures { result ≡ reader_verdict self lent.now.memory.now (lists_in lent.now) }
    {
        let memory = &*lent.memory;
        let jobs = &*lent.jobs;
        let stint_jobs = &*lent.stint_jobs;
        let stint_turns = &*lent.stint_turns;
        reader_verdict(self, memory, jobs, stint_jobs, stint_turns)
    }

    // Reads the next bytes of the input.
    #[tactic(auto, unfolding(crate::specs::Reader::feed_answer))]
    pub fn feed(self, bytes: &[u8], lent: &mut Lent) -> Result<Reader, Refusal>
        ensures read { feed_answer_to self lent.new.memory.now (lists_in lent.new) result
            ≡ feed_answer (reader_state self lent.old.memory.now (lists_in lent.old)) bytes.now }
        ensures same { SameLent lent.old lent.new }
    {
        self.verdict(lent)?;
        Ok(self.feed_all(bytes, lent))
    }

    // Whether the input is readable, if it ends here.
    pub fn is_complete(self) -> bool
        ensures { result ≡ is_complete self }
    {
        self.length == 0 && !matches!(self.progress.part, Part::Start | Part::Unreadable)
    }
}
