// The answer to an input that is given as a whole.
ghost use Rattle.std.specs.Prelude.{◌≡◌};
ghost use Rattle.console_calls.specs.Console.{output_of};
ghost use Rattle.console_calls.specs.Finish.{written, written_to};

use super::finish::finish;
use base_outcome::refusal::Refusal;
use console_grammar::lent::Lent;
use console_grammar::progress::{JOB_ENTRIES, STINT_ENTRIES};
use console_reader::reader::{MEMORY_WORDS, Reader};

pub fn answer(input: &[u8], out: &mut [u8]) -> Result<usize, Refusal>
    ensures { written result out.new ≡ written_to (output_of input.now) out.old }
{
    let mut memory = [0; MEMORY_WORDS];
    let mut jobs = [0; JOB_ENTRIES];
    let mut stint_jobs = [0; STINT_ENTRIES];
    let mut stint_turns = [0; STINT_ENTRIES];
    let mut lent = Lent {
        memory: &mut memory,
        jobs: &mut jobs,
        stint_jobs: &mut stint_jobs,
        stint_turns: &mut stint_turns,
    };
    let reader = Reader::new().feed(input, &mut lent)?;
    let Lent {
        memory,
        jobs,
        stint_jobs,
        stint_turns,
    } = lent;
    finish(reader, memory, jobs, stint_jobs, stint_turns, out)
}
