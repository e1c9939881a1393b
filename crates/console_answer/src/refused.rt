// The line of a refusal.
ghost use Rattle.std.specs.Prelude.{◌+◌, ◌≤◌, length};
ghost use Rattle.word_octal.specs.Writes.{Writes};
ghost use Rattle.console_answer.specs.Text.{refused_text};

use console_text::pieces::write_decimal_line;
use word_octal::write::Writer;

#[tactic(auto, unfolding(crate::specs::Text::refused_text))]
pub fn write_refused(writer: &mut Writer, number: u64)
    requires { writer.old.at + 11 ≤ length writer.old.out.now }
    ensures { Writes writer.old (refused_text number) writer.new }
{
    write_decimal_line::<2>(writer, b"refused=", number);
}
