// The octal digits, as bytes of a text.
ghost use Rattle.std.specs.Prelude.{◌≡◌};
ghost use Rattle.word_octal.specs.Read.{digit_in};

// The number that the byte says as an octal digit.
pub(crate) fn octal_digit(byte: u8) -> Option<u64>
    ensures { result ≡ digit_in byte }
{
    match byte {
        b'0'..=b'7' => Some(u64::from(byte - b'0')),
        _ => None,
    }
}
