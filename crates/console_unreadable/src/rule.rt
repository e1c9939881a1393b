// The rules for the lines of an input.
ghost use Rattle.std.specs.Prelude.{◌≡◌};
ghost use Rattle.console_unreadable.specs.Rule.{words_rule, at_rule, word_rule, rule_of};

use console_grammar::progress::Part;
use console_line::form::Line;

// What is wrong with an unreadable line.
#[derive(Clone, Copy, Debug, PartialEq, Eq)]
pub enum Rule {
    // It has none of the five forms.
    Form,
    // words= of no word, or of more than 10000 octal.
    Limit,
    // It may not stand here.
    Order,
    // The block begins at or below the block before it, or below that block's end.
    Below,
    // The block begins or runs past the last word of memory.
    Past,
    // No line feed ends it.
    LineFeed,
    // The input is empty.
    Empty,
}

fn words_rule(part: Part) -> Rule
    ensures { result ≡ words_rule part }
{
    match part {
        Part::Start => Rule::Limit,
        _ => Rule::Order,
    }
}

fn at_rule(part: Part, a: u64) -> Rule
    ensures { result ≡ at_rule part a }
{
    match part {
        Part::Words => Rule::Past,
        Part::Block(begin, end) => {
            if a <= begin || a < end {
                Rule::Below
            } else {
                Rule::Past
            }
        }
        _ => Rule::Order,
    }
}

fn word_rule(part: Part) -> Rule
    ensures { result ≡ word_rule part }
{
    match part {
        Part::Block(_, _) => Rule::Past,
        _ => Rule::Order,
    }
}

// The rule that a line breaks, if it is unreadable after a line of this kind.
pub fn rule_of(part: Part, line: Option<Line>) -> Rule
    ensures { result ≡ rule_of part line }
{
    match line {
        Some(Line::Words(_)) => words_rule(part),
        Some(Line::At(a)) => at_rule(part, a),
        Some(Line::Word(_)) => word_rule(part),
        Some(Line::Job(_) | Line::Stint(_, _)) => Rule::Order,
        None => Rule::Form,
    }
}
