// Sizes of 96 and 97 bits in halves, of which the lower has 48 bits.
ghost use Rattle.std.specs.Prelude.{◌≡◌, ◌+◌, ◌-◌, ◌<◌, ◌≤◌, ◌^◌};
ghost use Rattle.floating_word.specs.Halves.{whole, halves_of, Cut};
ghost use Rattle.floating_sum.specs.Sums.{placed};

use floating_word::halves::Halves;
use word_arithmetic::sums::low;

// The bits of a size.
const BITS: u64 = 96;

// A size of 96 bits: both halves have 48.
#[derive(Clone, Copy)]
pub struct Size96 {
    pub halves: Halves,
    ghost cut: { Cut halves },
}

impl Size96 {
    // A size in the upper half of 96 bits, moved right; low bits are dropped.
    pub(crate) fn placed(size: u64, places: u64) -> Size96
        requires { size < 2 ^ 48 }
        ensures { result.halves ≡ halves_of (placed size places) }
    {
        let halves = if places < 48 {
            Halves {
                high: size >> places,
                low: low::<48>(size << (48 - places)),
            }
        } else if places < BITS {
            Halves {
                high: 0,
                low: size >> (places - 48),
            }
        } else {
            Halves { high: 0, low: 0 }
        };
        Size96 { halves }
    }

    // With the carry of the lower half.
    pub(crate) fn plus(self, other: Size96) -> Halves
        ensures { result ≡ halves_of (whole self.halves + whole other.halves) }
    {
        let sum = self.halves.low + other.halves.low;
        Halves {
            high: self.halves.high + other.halves.high + (sum >> 48),
            low: low::<48>(sum),
        }
    }

    // With the borrow of the lower half.
    pub(crate) fn less(self, other: Size96) -> Halves
        requires { whole other.halves ≤ whole self.halves }
        ensures { result ≡ halves_of (whole self.halves - whole other.halves) }
    {
        let (a, b) = (self.halves, other.halves);
        if a.low < b.low {
            Halves {
                high: a.high - b.high - 1,
                low: a.low + 0o10000000000000000 - b.low,
            }
        } else {
            Halves {
                high: a.high - b.high,
                low: a.low - b.low,
            }
        }
    }
}
