// Says why the input on standard input is refused: `refused=` with the console's number, or 0, and then who is at fault. It runs no schedule.
#![tactic(auto)]

use console_grammar::lent::Lent;
use console_grammar::progress::{JOB_ENTRIES, STINT_ENTRIES};
use console_reader::reader::MEMORY_WORDS;
use console_reason::explain::{REASON_BYTES, explain};
use console_stream::answer::{write_answer, write_unended};
use console_stream::pieces::fold_pieces;
use console_unreadable::tracker::Tracker;
use std::process::ExitCode;

fn write_reason(rt: &(impl Print + Eprint), tracker: Tracker, lent: Lent) -> ExitCode {
    let Lent {
        memory,
        jobs,
        stint_jobs,
        stint_turns,
    } = lent;
    let mut out = [0; REASON_BYTES];
    match explain(tracker, memory, jobs, stint_jobs, stint_turns, &mut out) {
        Ok(n) => write_answer(rt, &out[..n]),
        // Of slices with the lengths that `main` gives them, no number refuses one.
        Err(_) => ExitCode::SUCCESS,
    }
}

// Nothing is said of an input of which a part may be missing. No input has more bytes than the number of a line has room for.
fn main(rt: HostRuntime) -> ExitCode {
    let mut memory = [0; MEMORY_WORDS];
    let mut jobs = [0; JOB_ENTRIES];
    let mut stint_jobs = [0; STINT_ENTRIES];
    let mut stint_turns = [0; STINT_ENTRIES];
    let mut lent = Lent {
        memory: &mut memory,
        jobs: &mut jobs,
        stint_jobs: &mut stint_jobs,
        stint_turns: &mut stint_turns,
    };
    let read = fold_pieces(&mut rt.stdin(), Tracker::new(), |tracker, bytes| {
        tracker.track(bytes, &mut lent).unwrap_or(tracker)
    });
    let Ok(tracker) = read else {
        return write_unended(&rt);
    };
    write_reason(&rt, tracker, lent)
}
