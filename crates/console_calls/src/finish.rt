// The end of an input: its answer.
ghost use Rattle.std.specs.Prelude.{◌≡◌, ◌≤◌, IfOk, length};
ghost use Rattle.base_lists.specs.Written.{Wrote};
ghost use Rattle.base_outcome.specs.Numbers.{refusal_number};
ghost use Rattle.console_answer.specs.Text.{refused_text};
ghost use Rattle.console_grammar.specs.Held.{lists};
ghost use Rattle.console_reader.specs.Fed.{ReaderReady};
ghost use Rattle.console_reader.specs.Reader.{read_at_end};
ghost use Rattle.console_calls.specs.Finish.{output_number, written, finished, finish_to, finish_answer};

use super::run::run;
use base_outcome::refusal::{Refusal, verdict_number};
use console_answer::refused::write_refused;
use console_reader::reader::{Reader, reader_verdict};
use shared_limits::limits::MOST_STINTS;
use word_octal::write::Writer;

// The room that every answer fits in: the most stints, each of 93 bytes at most, and 4,096 words of 44 bytes at most.
pub const OUTPUT_BYTES: usize = 93 * MOST_STINTS + 44 * 4096;

// The number of what becomes of the end of an input: 0 where there is an answer.
pub fn output_number(output: Result<usize, Refusal>) -> u64
    ensures { result ≡ output_number output }
{
    verdict_number(output.map(|_| ()))
}

// The line of a refusal, from the first byte of the buffer on.
fn print_refused(refusal: Refusal, out: &mut [u8]) -> usize
    requires { 11 ≤ length out.old }
    ensures { Wrote out.old 0 (refused_text (refusal_number refusal)) out.new result }
{
    let mut writer = Writer { out, at: 0 };
    write_refused(&mut writer, refusal.number());
    writer.at
}

// Answers the input of a reader that no number refuses.
#[tactic(auto, unfolding(crate::specs::Finish::written_to, crate::specs::Finish::finished_memory))]
fn answer_input(
    reader: Reader,
    memory: &mut [u64],
    jobs: &[u64],
    stint_jobs: &[u64],
    stint_turns: &[u64],
    out: &mut [u8],
) -> Result<usize, Refusal>
    requires { ReaderReady reader memory.old (lists jobs.now stint_jobs.now stint_turns.now) }
    ensures { finished (written result out.new) memory.new
        ≡ finish_to (read_at_end reader memory.old (lists jobs.now stint_jobs.now stint_turns.now)) out.old memory.old }
{
    if out.len() < OUTPUT_BYTES {
        return Err(Refusal::ListLength);
    }
    if !reader.is_complete() {
        return Ok(print_refused(Refusal::UnreadableLine, out));
    }
    let words = reader.progress.words;
    let listed = reader.progress.jobs;
    let stints = reader.progress.stints;
    Ok(run(
        &mut memory[..words],
        &jobs[..listed],
        &stint_jobs[..stints],
        &stint_turns[..stints],
        out,
    ))
}

// Answers the input that a reader has read: how much of the buffer the answer takes up.
// Kept: four slices and no `Lent`, which asks for leave to write: a caller may have the lists to read alone.
#[tactic(auto, unfolding(crate::specs::Finish::finish_answer))]
pub fn finish(
    reader: Reader,
    memory: &mut [u64],
    jobs: &[u64],
    stint_jobs: &[u64],
    stint_turns: &[u64],
    out: &mut [u8],
) -> Result<usize, Refusal>
    ensures within { IfOk result (λ n. n ≤ length out.new) }
    ensures answered { finished (written result out.new) memory.new
        ≡ finish_answer reader memory.old (lists jobs.now stint_jobs.now stint_turns.now) out.old }
{
    reader_verdict(reader, memory, jobs, stint_jobs, stint_turns)?;
    answer_input(reader, memory, jobs, stint_jobs, stint_turns, out)
}
