// The forms of a line.
ghost use Rattle.std.specs.Prelude.{◌≡◌, eqb, position};
ghost use Rattle.console_line.specs.Form.{stint, line_of};

use super::value::{number_of, word_of};

#[derive(Clone, Copy, Debug, PartialEq, Eq)]
pub enum Line {
    // words=: how many words the memory has.
    Words(u64),
    // at=: where a block begins.
    At(u64),
    // word=: the next word of a block.
    Word(u64),
    // job=: the address of a job's package.
    Job(u64),
    // stint=: its job and its turns.
    Stint(u64, u64),
}

fn first_comma(text: &[u8]) -> Option<usize>
    ensures { result ≡ position (λ byte. eqb byte 44) text.now }
{
    text.iter().position(|byte| *byte == b',')
}

// The job of a stint stands before the first comma, its turns after it.
fn stint_of(text: &[u8]) -> Option<Line>
    ensures { result ≡ stint text.now }
{
    let comma = first_comma(text)?;
    let job = number_of(&text[..comma])?;
    let turns = number_of(&text[comma + 1..])?;
    Some(Line::Stint(job, turns))
}

// What the line says, if it is readable.
pub fn line_of(text: &[u8]) -> Option<Line>
    ensures { result ≡ line_of text.now }
{
    if let Some(number) = text.strip_prefix(b"words=") {
        return Some(Line::Words(number_of(number)?));
    }
    if let Some(address) = text.strip_prefix(b"at=") {
        return Some(Line::At(number_of(address)?));
    }
    if let Some(word) = text.strip_prefix(b"word=") {
        return Some(Line::Word(word_of(word)?));
    }
    if let Some(address) = text.strip_prefix(b"job=") {
        return Some(Line::Job(number_of(address)?));
    }
    if let Some(values) = text.strip_prefix(b"stint=") {
        return stint_of(values);
    }
    None
}
