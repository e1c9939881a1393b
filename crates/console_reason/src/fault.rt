// The lines of a refused schedule.
ghost use Rattle.std.specs.Prelude.{◌+◌, ◌≤◌, ◌++◌, length};
ghost use Rattle.word_octal.specs.Writes.{Writes};
ghost use Rattle.word_octal.specs.Write.{octal};
ghost use Rattle.console_text.specs.Line.{line};
ghost use Rattle.shared_fault.specs.Fault.{told_by};
ghost use Rattle.console_reason.specs.Text.{fault_text, finding_text};

use console_answer::refused::write_refused;
use console_text::pieces::{write_octal_line, write_text_line};
use shared_fault::fault::Fault;
use shared_fault::finding::Finding;
use word_octal::write::Writer;

// Two lines: each a name and the number of a job.
#[tactic(auto, using(console_answer::specs::Laws::Lengths::length_octal_line))]
fn write_pair(writer: &mut Writer, first: &[u8], i: u64, second: &[u8], j: u64)
    requires { (length first.now ≤ 8) × (length second.now ≤ 8) × (writer.old.at + 62 ≤ length writer.old.out.now) }
    ensures { Writes writer.old (line first.now (octal i) ++ line second.now (octal j)) writer.new }
{
    write_octal_line(writer, first, i);
    write_octal_line(writer, second, j);
}

#[tactic(auto, using(word_octal::specs::Laws::Writes::writes_none))]
fn write_fault(writer: &mut Writer, fault: Option<Fault>)
    requires { writer.old.at + 62 ≤ length writer.old.out.now }
    ensures { Writes writer.old (fault_text fault) writer.new }
{
    let Some(fault) = fault else {
        return;
    };
    match fault {
        Fault::NoJob => write_text_line(writer, b"job=", b"none"),
        Fault::Job(i) => write_octal_line(writer, b"job=", i),
        Fault::Stint(i) => write_octal_line(writer, b"stint=", i),
        Fault::PackageField(i, j) => write_pair(writer, b"package=", i, b"field=", j),
        Fault::Packages(i, j) => write_pair(writer, b"package=", i, b"package=", j),
        Fault::Fields(i, j) => write_pair(writer, b"field=", i, b"field=", j),
    }
}

// The number of the refusal, or 0, and who is at fault.
pub(crate) fn write_finding(writer: &mut Writer, finding: Result<(), Finding>)
    requires { writer.old.at + 73 ≤ length writer.old.out.now }
    ensures { Writes writer.old (finding_text (told_by finding)) writer.new }
{
    match finding {
        Ok(()) => write_refused(writer, 0),
        Err(found) => {
            write_refused(writer, found.refusal.number());
            write_fault(writer, found.fault);
        }
    }
}
