// The pieces of the answer's lines, which a writer puts where it stands.
ghost use Rattle.std.specs.Prelude.{◌≡◌, ◌+◌, ◌≤◌, length, drop};
ghost use Rattle.word_octal.specs.Write.{octal};
ghost use Rattle.word_octal.specs.Writes.{Writes};
ghost use Rattle.console_text.specs.Line.{decimal_in, line};

use word_octal::write::Writer;

// Fills a buffer from its end with the decimal digits of v, the last of them where it has no room for all: where the first stands.
fn decimal_digits(buffer: &mut [u8], v: u64) -> usize
    ensures { (result ≤ length buffer.new) × (drop result buffer.new ≡ decimal_in (length buffer.old) v) }
{
    let mut rest = v;
    for at in (0..buffer.len()).rev() {
        buffer[at] = b'0' + (rest % 10) as u8;
        rest /= 10;
        if rest == 0 {
            return at;
        }
    }
    0
}

// The last N decimal digits of v, or the fewer that it has.
pub fn write_decimal<const N: usize>(writer: &mut Writer, v: u64)
    requires { writer.old.at + N ≤ length writer.old.out.now }
    ensures { Writes writer.old (decimal_in N v) writer.new }
{
    let mut buffer = [0u8; N];
    let digits = &mut buffer[..];
    let first = decimal_digits(digits, v);
    writer.text(&digits[first..]);
}

// The line of a name, with its equals sign, and a value in octal digits.
#[tactic(auto, using(word_octal::specs::Laws::Write::length_octal))]
pub fn write_octal_line(writer: &mut Writer, name: &[u8], value: u64)
    requires { writer.old.at + length name.now + 23 ≤ length writer.old.out.now }
    ensures { Writes writer.old (line name.now (octal value)) writer.new }
{
    writer.text(name);
    writer.octal(value);
    writer.text(b"\n");
}

// The line of a name, with its equals sign, and the last N decimal digits of a value, or the fewer that it has.
#[tactic(auto, using(crate::specs::Laws::Decimal::length_decimal))]
pub fn write_decimal_line<const N: usize>(writer: &mut Writer, name: &[u8], value: u64)
    requires { writer.old.at + length name.now + N + 1 ≤ length writer.old.out.now }
    ensures { Writes writer.old (line name.now (decimal_in N value)) writer.new }
{
    writer.text(name);
    write_decimal::<N>(writer, value);
    writer.text(b"\n");
}

// The line of a name, with its equals sign, and a text as its value.
pub fn write_text_line(writer: &mut Writer, name: &[u8], value: &[u8])
    requires { writer.old.at + length name.now + length value.now + 1 ≤ length writer.old.out.now }
    ensures { Writes writer.old (line name.now value.now) writer.new }
{
    writer.text(name);
    writer.text(value);
    writer.text(b"\n");
}
