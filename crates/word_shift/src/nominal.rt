// 22 and 23: shifts of Xk by Bj places. `left` is the direction that the code names.
ghost use Rattle.std.specs.Prelude.{◌≡◌, ◌<◌, ◌^◌};
ghost use Rattle.word_shift.specs.Nominal.{goes_left, shifted_by, nominal};

use super::shifts::{rotate_left, shift_right_signed};
use word_arithmetic::sums::{is_negative, low, magnitude};

// A negative Bj turns the direction.
#[tactic(auto, unfolding(crate::specs::Nominal::goes_left))]
fn goes_left(left: bool, b: u64) -> bool
    ensures { result ≡ goes_left left b }
{
    left != is_negative::<18>(b)
}

// By k places, in the direction that the shift has. Left, the bits of k above the low six do not count.
#[tactic(auto, unfolding(crate::specs::Nominal::shifted_by))]
fn shift_by(left: bool, k: u64, x: u64) -> u64
    requires { x < 2 ^ 60 }
    ensures { result ≡ shifted_by left k x }
{
    if left {
        rotate_left::<60>(x, low::<6>(k))
    } else if 63 < k {
        0
    } else {
        shift_right_signed::<60>(x, k)
    }
}

// 22 with `left`, 23 without.
#[tactic(auto, unfolding(crate::specs::Nominal::nominal))]
pub fn nominal(left: bool, b: u64, x: u64) -> u64
    requires { (b < 2 ^ 18) × (x < 2 ^ 60) }
    ensures { result ≡ nominal left b x }
{
    shift_by(goes_left(left, b), magnitude::<18>(b), x)
}
