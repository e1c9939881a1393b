// What each kind of line does to the input read so far.
ghost use Rattle.std.specs.Prelude.{◌≡◌, ◌≤◌, length, Some};
ghost use Rattle.console_grammar.specs.Held.{lists, job_entries, stint_entries, CountsFit, Room};
ghost use Rattle.console_grammar.specs.Lent.{lists_in, SameLent};
ghost use Rattle.console_grammar.specs.Applied.{Applied, Begun, LineRead, BeginRead, JobRead, StintRead};
ghost use Rattle.console_line.specs.declared.form.Line.TheVariants.{Words, Word};

use super::lent::Lent;
use super::progress::{JOB_ENTRIES, Part, Progress, STINT_ENTRIES};
use console_line::form::Line;

impl Progress {
    #[tactic(auto, using(crate::proofs::Refused::words_few, crate::proofs::Refused::words_many))]
    fn on_words(self, n: u64, memory: &mut [u64]) -> Progress
        requires { length memory.old ≡ 0o10000 }
        ensures { LineRead (Some (Words n)) self memory.old result memory.new }
    {
        if n < 1 || 0o10000 < n {
            return Progress::refused();
        }
        let Part::Start = self.part else {
            return Progress::refused();
        };
        let words = n as usize;
        memory[..words].fill(0);
        Progress {
            part: Part::Words,
            words,
            jobs: 0,
            stints: 0,
        }
    }

    // A block begins, if its address is inside memory.
    fn begin(self, a: u64) -> Progress
        requires { CountsFit self }
        ensures { Begun a self result }
    {
        if a < self.words as u64 {
            return Progress {
                part: Part::Block(a, a),
                ..self
            };
        }
        Progress::refused()
    }

    fn on_at(self, a: u64) -> Progress
        requires { CountsFit self }
        ensures { BeginRead a self result }
    {
        match self.part {
            Part::Words => self.begin(a),
            Part::Block(start, end) => {
                if a <= start || a < end {
                    return Progress::refused();
                }
                self.begin(a)
            }
            _ => Progress::refused(),
        }
    }

    fn on_word(self, w: u64, memory: &mut [u64]) -> Progress
        requires { CountsFit self × (length memory.old ≡ 0o10000) }
        ensures { LineRead (Some (Word w)) self memory.old result memory.new }
    {
        let Part::Block(start, end) = self.part else {
            return Progress::refused();
        };
        if self.words as u64 <= end {
            return Progress::refused();
        }
        memory[end as usize] = w;
        Progress {
            part: Part::Block(start, end + 1),
            ..self
        }
    }

    // Where all entries are in use, the list is known to be too long, and no more is kept. So with the stints.
    fn on_job(self, a: u64, jobs: &mut [u64]) -> Progress
        requires { CountsFit self × (length jobs.old ≡ job_entries) }
        ensures { JobRead a self jobs.old result jobs.new }
    {
        let n = self.jobs;
        match self.part {
            Part::Start | Part::Stints | Part::Unreadable => Progress::refused(),
            _ if n < JOB_ENTRIES => {
                jobs[n] = a;
                self.with_jobs(n + 1)
            }
            _ => self.with_jobs(n),
        }
    }

    fn on_stint(
        self,
        job: u64,
        turns: u64,
        stint_jobs: &mut [u64],
        stint_turns: &mut [u64],
    ) -> Progress
        requires { CountsFit self × (length stint_jobs.old ≡ stint_entries) × (length stint_turns.old ≡ stint_entries) }
        ensures { StintRead job turns self stint_jobs.old stint_turns.old result stint_jobs.new stint_turns.new }
    {
        let n = self.stints;
        match self.part {
            Part::Start | Part::Unreadable => Progress::refused(),
            _ if n < STINT_ENTRIES => {
                stint_jobs[n] = job;
                stint_turns[n] = turns;
                self.with_stints(n + 1)
            }
            _ => self.with_stints(n),
        }
    }

    // Takes a line, or None where it is unreadable.
    pub fn apply(self, line: Option<Line>, lent: &mut Lent) -> Progress
        requires { CountsFit self × Room lent.old.memory.now (lists_in lent.old) }
        ensures read { Applied line self lent.old.memory.now (lists_in lent.old)
            result lent.new.memory.now (lists_in lent.new) }
        ensures same { SameLent lent.old lent.new }
    {
        match line {
            Some(Line::Words(n)) => self.on_words(n, &mut *lent.memory),
            Some(Line::At(a)) => self.on_at(a),
            Some(Line::Word(w)) => self.on_word(w, &mut *lent.memory),
            Some(Line::Job(a)) => self.on_job(a, &mut *lent.jobs),
            Some(Line::Stint(job, turns)) => {
                self.on_stint(job, turns, &mut *lent.stint_jobs, &mut *lent.stint_turns)
            }
            None => Progress::refused(),
        }
    }
}
