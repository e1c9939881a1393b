// A size of up to 97 bits as two halves, of which the lower has 48 bits.
ghost use Rattle.std.specs.Prelude.{◌≡◌, ◌*◌, ◌/◌, ◌<◌, ◌^◌};
ghost use Rattle.floating_word.specs.Halves.{whole, halves_of};

use word_arithmetic::sums::low;

// Where the lower half has 48 bits, their order is that of the sizes.
#[derive(Clone, Copy, PartialEq, Eq, PartialOrd, Ord)]
pub struct Halves {
    pub high: u64,
    pub low: u64,
}

impl Halves {
    // One place to the right: the lowest bit of the upper half goes over into the lower.
    pub fn halved(self) -> Halves
        requires { (self.high < 2 ^ 49) × (self.low < 2 ^ 48) }
        ensures { result ≡ halves_of (whole self / 2) }
    {
        Halves {
            high: self.high >> 1,
            low: (self.low >> 1) + ((self.high & 1) << 47),
        }
    }

    // One place to the left: the top bit of the lower half goes over into the upper.
    pub fn doubled(self) -> Halves
        requires { (self.high < 2 ^ 47) × (self.low < 2 ^ 48) }
        ensures { result ≡ halves_of (whole self * 2) }
    {
        Halves {
            high: 2 * self.high + (self.low >> 47),
            low: low::<48>(2 * self.low),
        }
    }
}
