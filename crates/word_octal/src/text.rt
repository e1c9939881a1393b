// The number that a text in octal digits says.
ghost use Rattle.std.specs.Prelude.{◌≡◌, ◌≤◌, length};
ghost use Rattle.word_octal.specs.Text.{value_of};

use super::digit::octal_digit;

// The number, if each byte is an octal digit. The value of 20 digits is below 2^60.
pub fn value_of(text: &[u8]) -> Option<u64>
    requires { length text.now ≤ 20 }
    ensures { result ≡ value_of text.now }
{
    let mut value = 0;
    for byte in text {
        value = value * 8 + octal_digit(*byte)?;
    }
    Some(value)
}
