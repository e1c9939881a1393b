// The infinite and the indefinite words.
ghost use Rattle.std.specs.Prelude.{◌≡◌, ◌<◌, ◌^◌};
ghost use Rattle.floating_word.specs.Special.{is_infinite, is_indefinite, is_special, either_infinite, either_indefinite, unlike_signs, signed, infinity_word};

use word_arithmetic::sums::{complement, is_negative};

// The indefinite word that arithmetic gives: 1777 and zeros.
pub const INDEFINITE: u64 = 0o17770000000000000000;

const INFINITY: u64 = 0o37770000000000000000;

pub fn is_infinite(x: u64) -> bool
    ensures { result ≡ is_infinite x }
{
    matches!(x >> 48, 0o3777 | 0o4000)
}

pub fn is_indefinite(x: u64) -> bool
    ensures { result ≡ is_indefinite x }
{
    matches!(x >> 48, 0o1777 | 0o6000)
}

pub fn is_special(x: u64) -> bool
    ensures { result ≡ is_special x }
{
    is_infinite(x) || is_indefinite(x)
}

pub fn either_infinite(x: u64, y: u64) -> bool
    ensures { result ≡ either_infinite x y }
{
    is_infinite(x) || is_infinite(y)
}

pub fn either_indefinite(x: u64, y: u64) -> bool
    ensures { result ≡ either_indefinite x y }
{
    is_indefinite(x) || is_indefinite(y)
}

pub fn unlike_signs(x: u64, y: u64) -> bool
    ensures { result ≡ unlike_signs x y }
{
    is_negative::<60>(x) != is_negative::<60>(y)
}

// w, or its complement where the sign is minus.
#[tactic(auto, unfolding(crate::specs::Special::signed))]
pub fn signed(minus: bool, w: u64) -> u64
    requires { w < 2 ^ 60 }
    ensures { result ≡ signed minus w }
{
    if minus { complement::<60>(w) } else { w }
}

// The infinity that arithmetic gives.
pub fn infinity_word(minus: bool) -> u64
    ensures { result ≡ infinity_word minus }
{
    signed(minus, INFINITY)
}
