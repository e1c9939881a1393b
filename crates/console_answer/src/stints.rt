// The lines of a schedule's stints.
ghost use Rattle.std.specs.Prelude.{◌+◌, ◌*◌, ◌≤◌, length};
ghost use Rattle.word_octal.specs.Writes.{Writes};
ghost use Rattle.console_answer.specs.Text.{stint_text, stints_text};

use console_text::pieces::{write_decimal_line, write_octal_line};
use word_octal::write::Writer;

// The four lines of one stint.
#[tactic(auto, using(crate::specs::Laws::Lengths::length_octal_end))]
fn write_stint(writer: &mut Writer, index: u64, job: u64, turns: u64, stop: u64)
    requires { writer.old.at + 93 ≤ length writer.old.out.now }
    ensures { Writes writer.old (stint_text index job turns stop) writer.new }
{
    write_octal_line(writer, b"stint=", index);
    write_octal_line(writer, b"job=", job);
    write_octal_line(writer, b"turns=", turns);
    write_decimal_line::<2>(writer, b"stop=", stop);
}

// The lines of all stints, by the job, the turns made and the stop of each. Entries past the last job are not written.
// Kept: the turns and stops by index, since zipped the loop reads no plainer: `(index, (job, (turns, stop)))`.
pub fn write_stints(writer: &mut Writer, jobs: &[u64], turns: &[u64], stops: &[u64])
    requires jobs_in_bounds { (length jobs.now ≤ length turns.now) × (length jobs.now ≤ length stops.now) }
    requires jobs_in_bounds_2 { writer.old.at + 93 * length jobs.now ≤ length writer.old.out.now }
    ensures { Writes writer.old (stints_text 0 jobs.now turns.now stops.now) writer.new }
{
    for (index, job) in jobs.iter().enumerate() {
        write_stint(writer, index as u64, *job, turns[index], stops[index]);
    }
}
