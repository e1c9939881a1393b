// Shifts, masks and counts of the bits of values of N bits: 20, 21, 43, 47 and the peripheral SHN.
ghost use Rattle.std.specs.Prelude.{◌≡◌, ◌≤◌, ◌<◌, ◌^◌};
ghost use Rattle.word_shift.specs.Shifts.{rotate_left, mask, shift_right, shift_right_signed, shift_a, count_ones};

use word_arithmetic::sums::{complement, is_negative, ones};

// 20, for any count.
pub fn rotate_left<const N: u32>(w: u64, k: u64) -> u64
    requires { (0 < N) × (N < 64) × (w < 2 ^ N) }
    ensures { result ≡ rotate_left N w k }
{
    let up = k % u64::from(N);
    let down = u64::from(N) - up;
    ((w << up) & ones::<N>()) | (w >> down)
}

// End off, with zeros from the top.
pub fn shift_right(w: u64, k: u64) -> u64
    requires { k < 64 }
    ensures { result ≡ shift_right w k }
{
    w >> k
}

// 43: the ones that a shift right by k frees.
pub fn mask<const N: u32>(k: u64) -> u64
    requires { (N < 64) × (k < 64) }
    ensures { result ≡ mask N k }
{
    complement::<N>(ones::<N>() >> k)
}

// 21: end off, with the sign extended.
#[tactic(auto, unfolding(crate::specs::Shifts::shift_right_signed))]
pub fn shift_right_signed<const N: u32>(w: u64, k: u64) -> u64
    requires { (0 < N) × (N < 64) × (w < 2 ^ N) × (k < 64) }
    ensures { result ≡ shift_right_signed N w k }
{
    if is_negative::<N>(w) {
        (w >> k) | mask::<N>(k)
    } else {
        w >> k
    }
}

// SHN.
#[tactic(auto, unfolding(crate::specs::Shifts::shift_a))]
pub fn shift_a(d: u64, a: u64) -> u64
    requires { (d < 64) × (a < 2 ^ 18) }
    ensures { result ≡ shift_a d a }
{
    if d < 0o40 {
        rotate_left::<18>(a, d)
    } else {
        shift_right(a, 0o77 - d)
    }
}

// 47.
pub fn count_ones<const N: u32>(w: u64) -> u64
    requires { (N ≤ 64) × (w < 2 ^ N) }
    ensures { result ≡ count_ones N w }
{
    u64::from(w.count_ones())
}
