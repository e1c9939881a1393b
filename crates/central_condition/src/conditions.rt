// The conditions of the branches 03 to 07.
ghost use Rattle.std.specs.Prelude.{◌≡◌, ◌<◌, ◌≤◌};
ghost use Rattle.central_condition.specs.Conditions.{is_zero, word_condition, is_less, comparison};

use floating_word::special::{is_indefinite, is_infinite};
use word_arithmetic::sums::is_negative;

fn is_zero(x: u64) -> bool
    ensures { result ≡ is_zero x }
{
    x == 0 || x == 0o77777777777777777777
}

// Code 03 with i, of Xj. Out of range is infinite.
#[tactic(auto, unfolding(crate::specs::Conditions::word_condition))]
pub fn word_condition(i: u64, x: u64) -> bool
    requires { i < 8 }
    ensures { result ≡ word_condition i x }
{
    match i {
        0 => is_zero(x),
        1 => !is_zero(x),
        2 => !is_negative::<60>(x),
        3 => is_negative::<60>(x),
        4 => !is_infinite(x),
        5 => is_infinite(x),
        6 => !is_indefinite(x),
        _ => is_indefinite(x),
    }
}

// As signed values of 18 bits, minus zero below plus zero.
#[tactic(auto, unfolding(crate::specs::Conditions::is_less))]
fn is_less(a: u64, b: u64) -> bool
    ensures { result ≡ is_less a b }
{
    match (is_negative::<18>(a), is_negative::<18>(b)) {
        (true, false) => true,
        (false, true) => false,
        _ => a < b,
    }
}

// Code 0m, m from 4 to 7, of Bi and Bj.
#[tactic(auto, unfolding(crate::specs::Conditions::comparison))]
pub fn comparison(m: u64, bi: u64, bj: u64) -> bool
    requires { (4 ≤ m) × (m < 8) }
    ensures { result ≡ comparison m bi bj }
{
    match m {
        4 => bi == bj,
        5 => bi != bj,
        6 => !is_less(bi, bj),
        _ => is_less(bi, bj),
    }
}
