// Runs the schedule that an input asks for and writes its answer.
ghost use Rattle.std.specs.Prelude.{◌≡◌, ◌≤◌, length};
ghost use Rattle.base_lists.specs.Written.{Wrote};
ghost use Rattle.word_octal.specs.Writes.{Writes};
ghost use Rattle.console_grammar.specs.Reading.{request};
ghost use Rattle.console_calls.specs.Console.{zero_record, schedule_in};
ghost use Rattle.shared_calls.specs.Answer.{schedule_answer_of};
ghost use Rattle.console_calls.specs.Finish.{most_bytes, printed_by, MayPrint, Ran};

use base_outcome::refusal::Refusal;
use central_record::record::Central;
use console_answer::refused::write_refused;
use console_answer::stints::write_stints;
use console_answer::words::write_words;
use shared_calls::call::schedule;
use shared_calls::stints::StintsEnd;
use word_octal::write::Writer;

// The record that the console lends.
pub fn zero_record() -> Central
    ensures { result ≡ zero_record }
{
    Central {
        p: 0,
        ra: 0,
        fl: 0,
        em: 0,
        registers: [0; 24],
        stop: 0,
    }
}

// Writes the stints and the memory, or the refusal.
fn write_end(
    writer: &mut Writer,
    end: Result<StintsEnd, Refusal>,
    stint_jobs: &[u64],
    memory: &[u64],
)
    requires { MayPrint (schedule_answer_of zero_record end) stint_jobs.now memory.now writer.old.out.now × (writer.old.at ≡ 0) }
    ensures { let a = schedule_answer_of zero_record end
        in Writes writer.old (printed_by a.verdict stint_jobs.now a.turns a.stops memory.now) writer.new }
{
    match end {
        Ok(end) => {
            write_stints(writer, stint_jobs, &end.turns(), &end.stops());
            write_words(writer, memory);
        }
        Err(r) => write_refused(writer, r.number()),
    }
}

fn print(
    end: Result<StintsEnd, Refusal>,
    stint_jobs: &[u64],
    memory: &[u64],
    out: &mut [u8],
) -> usize
    requires { MayPrint (schedule_answer_of zero_record end) stint_jobs.now memory.now out.old }
    ensures { let a = schedule_answer_of zero_record end
        in Wrote out.old 0 (printed_by a.verdict stint_jobs.now a.turns a.stops memory.now) out.new result }
{
    let mut writer = Writer { out, at: 0 };
    write_end(&mut writer, end, stint_jobs, memory);
    writer.at
}

pub(crate) fn run(
    memory: &mut [u64],
    jobs: &[u64],
    stint_jobs: &[u64],
    stint_turns: &[u64],
    out: &mut [u8],
) -> usize
    requires { (length memory.old ≤ 4096) × (most_bytes ≤ length out.old) }
    ensures { Ran (schedule_in (request memory.old jobs.now stint_jobs.now stint_turns.now))
        out.old out.new result memory.new }
{
    let end = schedule(memory, zero_record(), jobs, stint_jobs, stint_turns);
    print(end, stint_jobs, memory, out)
}
