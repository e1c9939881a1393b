// A finite word's sign, size and exponent, and the word that they make.
ghost use Rattle.std.specs.Prelude.{◌≡◌, ◌<◌, ◌≤◌, ◌^◌};
ghost use Rattle.floating_word.specs.Number.{biased_from, stored_for, number_in, word_of};
ghost use Rattle.floating_word.specs.Widths.{NumberFits};

use super::special::{infinity_word, signed};
use word_arithmetic::sums::{is_negative, low, magnitude};

// The largest exponent of a finite word, 1022, with its bias.
const LARGEST: u64 = 1022 + 1023;

// The sign, the 48-bit size of the coefficient, and the exponent e as e + 1023.
// Kept: no ghost field for `NumberFits`, since a definition makes a number of a sum's 97 bits too (`moved_of` of floating_sum).
#[derive(Clone, Copy)]
pub struct Number {
    pub minus: bool,
    pub size: u64,
    pub biased: u64,
}

// From -1, stored as 1776, to 0, stored as 2000, is one step: 1777 is no finite word's.
#[tactic(auto, unfolding(crate::specs::Number::biased_from))]
fn biased_from(stored: u64) -> u64
    ensures { result ≡ biased_from stored }
{
    if stored < 0o2000 { stored } else { stored - 1 }
}

#[tactic(auto, unfolding(crate::specs::Number::stored_for))]
fn stored_for(biased: u64) -> u64
    requires { biased ≤ 2045 }
    ensures { result ≡ stored_for biased }
{
    if biased < 1023 { biased } else { biased + 1 }
}

#[tactic(auto, unfolding(crate::specs::Number::number_in))]
pub fn number_in(x: u64) -> Number
    requires { x < 2 ^ 60 }
    ensures is { result ≡ number_in x }
    ensures fits { NumberFits result }
{
    let m = magnitude::<60>(x);
    Number {
        minus: is_negative::<60>(x),
        size: low::<48>(m),
        biased: biased_from(m >> 48),
    }
}

// The word of a sign, a size and an exponent that falls by so much; past the limits infinity or all zeros.
pub fn word_of(minus: bool, biased: u64, fall: u64, size: u64) -> u64
    requires { size < 2 ^ 48 }
    ensures { result ≡ word_of minus biased fall size }
{
    if biased < fall {
        return 0;
    }
    let e = biased - fall;
    if LARGEST < e {
        return infinity_word(minus);
    }
    signed(minus, (stored_for(e) << 48) | size)
}
