// The lines of an unreadable line.
ghost use Rattle.std.specs.Prelude.{◌+◌, ◌≤◌, length};
ghost use Rattle.word_octal.specs.Writes.{Writes};
ghost use Rattle.console_text.specs.Line.{line};
ghost use Rattle.console_text.specs.Names.{rule_is};
ghost use Rattle.console_reason.specs.Text.{rule_name, unreadable_text};

use base_outcome::refusal::Refusal;
use console_answer::refused::write_refused;
use console_text::pieces::{write_decimal_line, write_text_line};
use console_unreadable::rule::Rule;
use console_unreadable::tracker::UnreadableLine;
use word_octal::write::Writer;

fn write_rule(writer: &mut Writer, rule: Rule)
    requires { writer.old.at + 15 ≤ length writer.old.out.now }
    ensures { Writes writer.old (line rule_is (rule_name rule)) writer.new }
{
    match rule {
        Rule::Form => write_text_line(writer, b"rule=", b"form"),
        Rule::Limit => write_text_line(writer, b"rule=", b"limit"),
        Rule::Order => write_text_line(writer, b"rule=", b"order"),
        Rule::Below => write_text_line(writer, b"rule=", b"below"),
        Rule::Past => write_text_line(writer, b"rule=", b"past"),
        Rule::LineFeed => write_text_line(writer, b"rule=", b"line-feed"),
        Rule::Empty => write_text_line(writer, b"rule=", b"empty"),
    }
}

// The number of the refusal, the number of the line and the rule that it breaks.
pub(crate) fn write_unreadable(writer: &mut Writer, unreadable: UnreadableLine)
    requires { writer.old.at + 52 ≤ length writer.old.out.now }
    ensures { Writes writer.old (unreadable_text unreadable.number unreadable.rule) writer.new }
{
    write_refused(writer, Refusal::UnreadableLine.number());
    write_decimal_line::<20>(writer, b"line=", unreadable.number);
    write_rule(writer, unreadable.rule);
}
