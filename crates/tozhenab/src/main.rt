// The console program: the input on standard input, its answer on standard output.
#![tactic(auto)]

use console_calls::finish::{OUTPUT_BYTES, finish};
use console_grammar::lent::Lent;
use console_grammar::progress::{JOB_ENTRIES, STINT_ENTRIES};
use console_reader::reader::{MEMORY_WORDS, Reader};
use console_stream::answer::{write_answer, write_unended};
use console_stream::pieces::fold_pieces;
use std::process::ExitCode;

fn answer_input(rt: &(impl Print + Eprint), reader: Reader, lent: Lent) -> ExitCode {
    let Lent {
        memory,
        jobs,
        stint_jobs,
        stint_turns,
    } = lent;
    let mut out = [0; OUTPUT_BYTES];
    match finish(reader, memory, jobs, stint_jobs, stint_turns, &mut out) {
        Ok(n) => write_answer(rt, &out[..n]),
        // Of slices with the lengths that `main` gives them, no number refuses one.
        Err(_) => ExitCode::SUCCESS,
    }
}

// Nothing is answered where a part of the input may be missing.
fn main(rt: HostRuntime) -> ExitCode {
    let mut memory = [0; MEMORY_WORDS];
    let mut jobs = [0; JOB_ENTRIES];
    let mut stint_jobs = [0; STINT_ENTRIES];
    let mut stint_turns = [0; STINT_ENTRIES];
    let mut lent = Lent {
        memory: &mut memory,
        jobs: &mut jobs,
        stint_jobs: &mut stint_jobs,
        stint_turns: &mut stint_turns,
    };
    let read = fold_pieces(&mut rt.stdin(), Reader::new(), |reader, bytes| {
        reader.feed(bytes, &mut lent).unwrap_or(reader)
    });
    let Ok(reader) = read else {
        return write_unended(&rt);
    };
    answer_input(&rt, reader, lent)
}
