// Reads numbers in octal digits, one byte at a time. The digits of a number that were read so far are their value, if there are any.
ghost use Rattle.std.specs.Prelude.{◌≡◌, ◌<◌};
ghost use Rattle.word_octal.specs.Read.{after_digit, after_end, feed_of};

use super::digit::octal_digit;

// What a byte after these digits makes of them.
// Kept: `Nothing` and `Unreadable` are two cases and no `None`, since `feed_of` of specs/Read.antt tells them apart.
#[derive(Clone, Copy, Debug, PartialEq, Eq)]
pub enum Fed {
    More(Option<u64>),
    // A space or a line feed ended the number.
    Number(u64),
    // A space or a line feed where no number had begun.
    Nothing,
    // Neither a digit, a space nor a line feed, or a number of 2^64 or more.
    Unreadable,
}

#[tactic(auto, unfolding(crate::specs::Read::after_end))]
fn end(digits: Option<u64>) -> Fed
    ensures { result ≡ after_end digits }
{
    match digits {
        Some(value) => Fed::Number(value),
        None => Fed::Nothing,
    }
}

// Below 2^61 the value has room for one more digit, whichever it is.
#[tactic(auto, using(crate::specs::Laws::Read::digits_room, crate::specs::Laws::Read::no_room))]
fn digit(digits: Option<u64>, n: u64) -> Fed
    requires { n < 8 }
    ensures { result ≡ after_digit digits n }
{
    let value = digits.unwrap_or(0);
    if value < 0o200000000000000000000 {
        return Fed::More(Some(value * 8 + n));
    }
    Fed::Unreadable
}

#[tactic(auto, unfolding(crate::specs::Read::feed_of))]
pub fn feed(digits: Option<u64>, byte: u8) -> Fed
    ensures { result ≡ feed_of digits byte }
{
    if byte == b' ' || byte == b'\n' {
        return end(digits);
    }
    let Some(n) = octal_digit(byte) else {
        return Fed::Unreadable;
    };
    digit(digits, n)
}
