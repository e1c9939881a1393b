// The lines of a memory's words.
ghost use Rattle.std.specs.Prelude.{◌+◌, ◌*◌, ◌≤◌, ◌<◌, length};
ghost use Rattle.word_octal.specs.Writes.{Writes};
ghost use Rattle.console_answer.specs.Text.{word_text, words_text};

use word_octal::write::Writer;

// The line of a word that is not zero.
#[tactic(auto, using(word_octal::specs::Laws::Write::length_octal, word_octal::specs::Laws::Write::length_digits))]
fn write_nonzero(writer: &mut Writer, address: u64, word: u64)
    requires { (0 < word) × (writer.old.at + 44 ≤ length writer.old.out.now) }
    ensures { Writes writer.old (word_text address word) writer.new }
{
    writer.octal(address);
    writer.text(b"=");
    writer.digits(20, word);
    writer.text(b"\n");
}

// The line of a word; nothing of a zero.
fn write_word(writer: &mut Writer, address: u64, word: u64)
    requires { writer.old.at + 44 ≤ length writer.old.out.now }
    ensures { Writes writer.old (word_text address word) writer.new }
{
    if word != 0 {
        write_nonzero(writer, address, word);
    }
}

// The lines of a memory whose first word has the address 0.
pub fn write_words(writer: &mut Writer, memory: &[u64])
    requires { writer.old.at + 44 * length memory.now ≤ length writer.old.out.now }
    ensures { Writes writer.old (words_text 0 memory.now) writer.new }
{
    for (address, word) in memory.iter().enumerate() {
        write_word(writer, address as u64, *word);
    }
}
