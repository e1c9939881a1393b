// Codes 30 to 33.
ghost use Rattle.std.specs.Prelude.{true, false, ◌≡◌, ◌<◌, ◌^◌};
ghost use Rattle.floating_word.specs.Halves.{whole};
ghost use Rattle.floating_sum.specs.Halves.{aligned_in, sum_in, cut_sum, Cut97, total_in, cut_total, Cut96};
ghost use Rattle.floating_sum.specs.Sums.{coefficient, aligned, added_of, moved_of, finite_sum, half_of, unlike_infinities, sum_word, floating_sum};
ghost use Rattle.floating_word.specs.Widths.{NumberFits};

use super::halves::Size96;
use floating_word::halves::Halves;
use floating_word::number::{Number, number_in, word_of};
use floating_word::special::{
    INDEFINITE, either_indefinite, infinity_word, is_infinite, unlike_signs,
};
use word_arithmetic::sums::{complement, is_negative};

// The first number of 49 bits.
const OVERFLOW: u64 = 0o10000000000000000;

// A coefficient as aligned.
#[derive(Clone, Copy)]
pub struct Aligned {
    pub minus: bool,
    pub size: Size96,
}

// A sum of two aligned coefficients: a sign and up to 97 bits.
// Kept: a type of its own beside `Aligned` and `Total`, since each has its own width and its own methods: a `Signed<S>` of sign and size
// would share two fields and no method. So too `Total` beside `Number` of floating_word.
#[derive(Clone, Copy)]
pub struct Sum {
    pub minus: bool,
    pub size: Halves,
}

// A sum of 96 bits, and the exponent of its upper half, biased.
#[derive(Clone, Copy)]
pub struct Total {
    pub minus: bool,
    pub size: Halves,
    pub biased: u64,
}

impl Aligned {
    // The coefficient of x beside y, moved right by as far as its exponent lies below.
    fn beside(x: Number, y: Number) -> Aligned
        requires { NumberFits x }
        ensures { aligned_in result ≡ aligned x y }
    {
        Aligned {
            minus: x.minus,
            size: Size96::placed(x.size, y.biased.saturating_sub(x.biased)),
        }
    }

    fn plus(self, other: Aligned) -> Sum
        ensures { result ≡ cut_sum (added_of (aligned_in self) (aligned_in other)) }
    {
        if self.minus == other.minus {
            Sum {
                minus: self.minus,
                size: self.size.plus(other.size),
            }
        } else if self.minus {
            Sum::of_unlike(other.size, self.size)
        } else {
            Sum::of_unlike(self.size, other.size)
        }
    }
}

impl Sum {
    // Of a plus size and a minus one: the smaller is taken from the larger, whose sign the sum has. Equal ones give plus zero.
    fn of_unlike(p: Size96, q: Size96) -> Sum
        ensures { result ≡ cut_sum (added_of (coefficient false (whole p.halves)) (coefficient true (whole q.halves))) }
    {
        if p.halves < q.halves {
            Sum {
                minus: true,
                size: q.less(p),
            }
        } else {
            Sum {
                minus: false,
                size: p.less(q),
            }
        }
    }

    // On overflow one place to the right.
    fn moved(self, biased: u64) -> Total
        requires cut97 { Cut97 self }
        requires biased_bound { biased < 2 ^ 11 }
        ensures { result ≡ cut_total (moved_of (sum_in self) biased) }
    {
        if self.size.high < OVERFLOW {
            Total {
                minus: self.minus,
                size: self.size,
                biased,
            }
        } else {
            Total {
                minus: self.minus,
                size: self.size.halved(),
                biased: biased + 1,
            }
        }
    }
}

impl Total {
    fn half(self, lower: bool) -> u64
        requires { Cut96 self }
        ensures { result ≡ half_of lower (total_in self) }
    {
        if lower {
            word_of(self.minus, self.biased, 48, self.size.low)
        } else {
            word_of(self.minus, self.biased, 0, self.size.high)
        }
    }
}

// The sum of two finite numbers. Of the places by which they move one is 0.
fn finite_sum(x: Number, y: Number) -> Total
    requires number_fits { NumberFits x }
    requires number_fits_2 { NumberFits y }
    ensures { result ≡ cut_total (finite_sum x y) }
{
    let s = Aligned::beside(x, y).plus(Aligned::beside(y, x));
    s.moved(x.biased.max(y.biased))
}

fn unlike_infinities(x: u64, y: u64) -> bool
    ensures { result ≡ unlike_infinities x y }
{
    is_infinite(x) && is_infinite(y) && unlike_signs(x, y)
}

#[tactic(auto, unfolding(crate::specs::Sums::sum_word))]
fn sum_word(lower: bool, x: u64, y: u64) -> u64
    requires { (x < 2 ^ 60) × (y < 2 ^ 60) }
    ensures { result ≡ sum_word lower x y }
{
    if either_indefinite(x, y) || unlike_infinities(x, y) {
        return INDEFINITE;
    }
    if is_infinite(x) {
        return infinity_word(is_negative::<60>(x));
    }
    if is_infinite(y) {
        return infinity_word(is_negative::<60>(y));
    }
    finite_sum(number_in(x), number_in(y)).half(lower)
}

// 30, 31 (subtract), 32 (lower) and 33 (both).
#[tactic(auto, unfolding(crate::specs::Sums::floating_sum))]
pub fn floating_sum(subtract: bool, lower: bool, xj: u64, xk: u64) -> u64
    requires { (xj < 2 ^ 60) × (xk < 2 ^ 60) }
    ensures { result ≡ floating_sum subtract lower xj xk }
{
    if subtract {
        sum_word(lower, xj, complement::<60>(xk))
    } else {
        sum_word(lower, xj, xk)
    }
}
