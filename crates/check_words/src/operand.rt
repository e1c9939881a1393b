// The operands of what is printed.
ghost use Rattle.std.specs.Prelude.{◌<◌, ◌^◌};

use word_arithmetic::sums::low;

// A number of N bits.
#[derive(Clone, Copy)]
pub(crate) struct Operand<const N: u32> {
    pub bits: u64,
    ghost fits: { bits < 2 ^ N },
}

impl<const N: u32> Operand<N> {
    // The low N bits of a number.
    pub(crate) fn of(number: u64) -> Operand<N>
        requires { N < 64 }
    {
        Operand {
            bits: low::<N>(number),
        }
    }
}

// A word of 60 bits.
pub(crate) type Word = Operand<60>;

// What a B register or the A of a peripheral processor holds.
pub(crate) type Value = Operand<18>;
