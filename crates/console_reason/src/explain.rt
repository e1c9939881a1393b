// Why the input that a tracker has read is refused.
ghost use Rattle.std.specs.Prelude.{IfOk, ◌≡◌, ◌+◌, ◌≤◌, length};
ghost use Rattle.base_lists.specs.Written.{Wrote};
ghost use Rattle.word_octal.specs.Writes.{Writes};
ghost use Rattle.console_grammar.specs.Held.{lists, in_use, CountsFit, Room};
ghost use Rattle.console_reader.specs.Fed.{ReaderReady};
ghost use Rattle.console_unreadable.specs.Tracker.{found_by};
ghost use Rattle.console_calls.specs.Finish.{written};
ghost use Rattle.console_reason.specs.Reason.{most_reason_bytes, reason_by, reason_to, explain_answer};

use super::fault::write_finding;
use super::line::write_unreadable;
use base_outcome::refusal::Refusal;
use console_calls::run::zero_record;
use console_grammar::progress::Progress;
use console_reader::reader::reader_verdict;
use console_unreadable::tracker::{Tracker, UnreadableLine};
use shared_fault::finding::find_fault;
use word_octal::write::Writer;

// The room that every reason fits in: a line of a refusal, and two lines of the longest name and 22 digits.
pub const REASON_BYTES: usize = 73;

// Names the unreadable line, or what is wrong with the schedule.
fn write_reason(
    writer: &mut Writer,
    found: Option<UnreadableLine>,
    progress: Progress,
    memory: &[u64],
    jobs: &[u64],
    stint_jobs: &[u64],
    stint_turns: &[u64],
)
    requires { CountsFit progress × Room memory.now (lists jobs.now stint_jobs.now stint_turns.now) × (writer.old.at + most_reason_bytes ≤ length writer.old.out.now) }
    ensures { Writes writer.old
        (reason_by found (in_use progress memory.now (lists jobs.now stint_jobs.now stint_turns.now)))
        writer.new }
{
    match found {
        Some(line) => write_unreadable(writer, line),
        None => {
            let words = progress.words;
            let listed = progress.jobs;
            let stints = progress.stints;
            let finding = find_fault(
                &memory[..words],
                zero_record(),
                &jobs[..listed],
                &stint_jobs[..stints],
                &stint_turns[..stints],
            );
            write_finding(writer, finding);
        }
    }
}

fn print_reason(
    found: Option<UnreadableLine>,
    progress: Progress,
    memory: &[u64],
    jobs: &[u64],
    stint_jobs: &[u64],
    stint_turns: &[u64],
    out: &mut [u8],
) -> usize
    requires { CountsFit progress × Room memory.now (lists jobs.now stint_jobs.now stint_turns.now) × (most_reason_bytes ≤ length out.old) }
    ensures { Wrote out.old 0
        (reason_by found (in_use progress memory.now (lists jobs.now stint_jobs.now stint_turns.now)))
        out.new result }
{
    let mut writer = Writer { out, at: 0 };
    write_reason(
        &mut writer,
        found,
        progress,
        memory,
        jobs,
        stint_jobs,
        stint_turns,
    );
    writer.at
}

// Explains the input of a reader that no number refuses.
fn explain_input(
    tracker: Tracker,
    memory: &[u64],
    jobs: &[u64],
    stint_jobs: &[u64],
    stint_turns: &[u64],
    out: &mut [u8],
) -> Result<usize, Refusal>
    requires { ReaderReady tracker.reader memory.now (lists jobs.now stint_jobs.now stint_turns.now) }
    ensures { written result out.new
        ≡ reason_to (reason_by (found_by tracker) (in_use tracker.reader.progress memory.now (lists jobs.now stint_jobs.now stint_turns.now)))
        out.old }
{
    if out.len() < REASON_BYTES {
        return Err(Refusal::ListLength);
    }
    let found = tracker.found_at_end();
    let progress = tracker.reader.progress;
    Ok(print_reason(found, progress, memory, jobs, stint_jobs, stint_turns, out))
}

// Says why the input that a tracker has read is refused; 0 where it is not. How much of the buffer that takes up is the answer.
// Kept: four slices and no `Lent`, which asks for leave to write: a caller may have them to read alone.
#[tactic(auto, unfolding(crate::specs::Reason::explain_answer))]
pub fn explain(
    tracker: Tracker,
    memory: &[u64],
    jobs: &[u64],
    stint_jobs: &[u64],
    stint_turns: &[u64],
    out: &mut [u8],
) -> Result<usize, Refusal>
    ensures within { IfOk result (λ n. n ≤ length out.new) }
    ensures explained { written result out.new
        ≡ explain_answer tracker memory.now (lists jobs.now stint_jobs.now stint_turns.now) out.old }
{
    reader_verdict(tracker.reader, memory, jobs, stint_jobs, stint_turns)?;
    explain_input(tracker, memory, jobs, stint_jobs, stint_turns, out)
}
