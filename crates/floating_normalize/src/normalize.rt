// Code 24.
ghost use Rattle.std.specs.Prelude.{◌≡◌, ◌<◌, ◌^◌};
ghost use Rattle.floating_word.specs.Widths.{NumberFits};
ghost use Rattle.floating_normalize.specs.Normalized.{left_places, normal_of, normalized};

use floating_word::number::{Number, number_in, word_of};
use floating_word::special::is_special;

// What 24 sends to Xi and to Bj.
#[derive(Clone, Copy)]
pub struct Normal {
    pub word: u64,
    pub count: u64,
}

// Of the 64 bits of a u64, 16 stand above those of a size.
fn left_places(size: u64) -> u64
    requires { size < 2 ^ 48 }
    ensures { result ≡ left_places size }
{
    u64::from(size.leading_zeros()) - 16
}

fn normal_of(x: Number) -> Normal
    requires { NumberFits x }
    ensures { result ≡ normal_of x }
{
    let n = left_places(x.size);
    Normal {
        word: word_of(x.minus, x.biased, n, x.size << n),
        count: n,
    }
}

#[tactic(auto, unfolding(crate::specs::Normalized::normalized))]
pub fn normalize(x: u64) -> Normal
    requires { x < 2 ^ 60 }
    ensures { result ≡ normalized x }
{
    if is_special(x) {
        return Normal { word: x, count: 0 };
    }
    normal_of(number_in(x))
}
