// Answers many console inputs in one stream. Each input is followed by a line `=====`, and so is each answer. The line
// `====-` ends an input whose last line has no line feed: the line feed before it is not part of the input.
#![tactic(auto)]

mod answer;
mod cases;

use cases::Case;
use console_grammar::lent::Lent;
use console_grammar::progress::{JOB_ENTRIES, STINT_ENTRIES};
use console_reader::reader::MEMORY_WORDS;
use console_stream::pieces::fold_pieces;

// A stream that cannot be read ends there: the comparison with the expected output finds what is missing.
fn main(rt: HostRuntime) {
    let mut memory = [0; MEMORY_WORDS];
    let mut jobs = [0; JOB_ENTRIES];
    let mut stint_jobs = [0; STINT_ENTRIES];
    let mut stint_turns = [0; STINT_ENTRIES];
    let mut lent = Lent {
        memory: &mut memory,
        jobs: &mut jobs,
        stint_jobs: &mut stint_jobs,
        stint_turns: &mut stint_turns,
    };
    let _ = fold_pieces(&mut rt.stdin(), Case::new(), |case, bytes| {
        case.take_bytes(&rt, bytes, &mut lent)
    });
}
