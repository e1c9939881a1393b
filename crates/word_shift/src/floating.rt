// Unpack (26) and pack (27).
ghost use Rattle.std.specs.Prelude.{◌≡◌, ◌<◌, ◌^◌};
ghost use Rattle.word_shift.specs.Floating.{coefficient_of, exponent_of, unpacked_from, stored_from, packed};

use word_arithmetic::sums::{complement, is_negative, low, magnitude};

// What 26 sends to Xi and to Bj.
#[derive(Clone, Copy)]
pub struct Unpacked {
    pub coefficient: u64,
    pub exponent: u64,
}

#[tactic(auto, unfolding(crate::specs::Floating::coefficient_of))]
fn coefficient(x: u64) -> u64
    requires { x < 2 ^ 60 }
    ensures { result ≡ coefficient_of x }
{
    let c = low::<48>(magnitude::<60>(x));
    if is_negative::<60>(x) {
        complement::<60>(c)
    } else {
        c
    }
}

#[tactic(auto, unfolding(crate::specs::Floating::exponent_of, crate::specs::Floating::exponent_from))]
fn exponent(x: u64) -> u64
    requires { x < 2 ^ 60 }
    ensures { result ≡ exponent_of x }
{
    let stored = magnitude::<60>(x) >> 48;
    if stored < 0o2000 {
        complement::<18>(0o1777 - stored)
    } else {
        stored - 0o2000
    }
}

// 26.
#[tactic(auto, unfolding(crate::specs::Floating::unpacked_from))]
pub fn unpack(x: u64) -> Unpacked
    requires { x < 2 ^ 60 }
    ensures { result ≡ unpacked_from x }
{
    Unpacked {
        coefficient: coefficient(x),
        exponent: exponent(x),
    }
}

// The 11-bit exponent e with its bias; a negative e, which is e - 3777, is stored as 1777 more.
#[tactic(auto, unfolding(crate::specs::Floating::stored_from))]
fn stored(e: u64) -> u64
    requires { e < 2 ^ 11 }
    ensures { result ≡ stored_from e }
{
    if is_negative::<11>(e) {
        e - 0o2000
    } else {
        0o2000 + e
    }
}

// 27.
pub fn pack(b: u64, x: u64) -> u64
    requires { x < 2 ^ 60 }
    ensures { result ≡ packed b x }
{
    let s = stored(low::<11>(b));
    let c = low::<48>(x);
    if is_negative::<60>(x) {
        ((0o7777 - s) << 48) | c
    } else {
        (s << 48) | c
    }
}
