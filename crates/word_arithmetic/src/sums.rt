// One's-complement arithmetic of N bits: 12, 18 or 60 in this machine.
ghost use Rattle.std.specs.Prelude.{◌≡◌, ◌-◌, ◌^◌, ◌<◌};
ghost use Rattle.word_arithmetic.specs.Bits.{low, negative};
ghost use Rattle.word_arithmetic.specs.Sums.{complement, magnitude, sum, difference, sign_extend};

// N bits that are all set.
pub fn ones<const N: u32>() -> u64
    requires { N < 64 }
    ensures { result ≡ 2 ^ N - 1 }
{
    (1 << N) - 1
}

pub fn complement<const N: u32>(a: u64) -> u64
    requires { (N < 64) × (a < 2 ^ N) }
    ensures { result ≡ complement N a }
{
    ones::<N>() - a
}

pub fn is_negative<const N: u32>(a: u64) -> bool
    requires { (0 < N) × (N < 64) }
    ensures { result ≡ negative N a }
{
    1 << (N - 1) <= a
}

#[tactic(auto, unfolding(crate::specs::Sums::magnitude))]
pub fn magnitude<const N: u32>(a: u64) -> u64
    requires { (0 < N) × (N < 64) × (a < 2 ^ N) }
    ensures { result ≡ magnitude N a }
{
    if is_negative::<N>(a) {
        complement::<N>(a)
    } else {
        a
    }
}

// A plain sum of all ones or more loses all ones, so that 3 - 3 is plus zero.
pub fn sum<const N: u32>(a: u64, b: u64) -> u64
    requires { (N < 64) × (a < 2 ^ N) × (b < 2 ^ N) }
    ensures { result ≡ sum N a b }
{
    let plain = a + b;
    if plain < ones::<N>() {
        plain
    } else {
        plain - ones::<N>()
    }
}

pub fn difference<const N: u32>(a: u64, b: u64) -> u64
    requires { (N < 64) × (a < 2 ^ N) × (b < 2 ^ N) }
    ensures { result ≡ difference N a b }
{
    sum::<N>(a, complement::<N>(b))
}

// An 18-bit value as a 60-bit word.
#[tactic(auto, unfolding(crate::specs::Sums::sign_extend))]
pub fn sign_extend18(a: u64) -> u64
    requires { a < 2 ^ 18 }
    ensures { result ≡ sign_extend 18 60 a }
{
    if is_negative::<18>(a) {
        a + (ones::<60>() - ones::<18>())
    } else {
        a
    }
}

pub fn low<const N: u32>(w: u64) -> u64
    requires { N < 64 }
    ensures { result ≡ low N w }
{
    w & ones::<N>()
}
