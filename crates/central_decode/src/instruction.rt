// Decoding.
ghost use Rattle.central_decode.specs.Shifted.{decoded_top};
ghost use Rattle.central_decode.specs.Widths.{Read};

use word_arithmetic::sums::low;

// Kept: the widths (`Fit` of specs/Widths.antt) are no ghost fields, since the definitions `decoded` and `decoded_top` build instructions
// too and would have to carry proofs beside the bits.
#[derive(Clone, Copy)]
pub struct Instruction {
    // The digits f and m.
    pub code: u64,
    pub i: usize,
    pub j: usize,
    pub k: usize,
    // The digits j and k as one number.
    pub jk: u64,
    // K, 18 bits.
    pub constant: u64,
}

// The instruction that begins at the top of v, a word shifted left.
pub fn decode(v: u64) -> Instruction
    ensures { Read result (decoded_top v) }
{
    Instruction {
        code: v >> 58,
        i: low::<3>(v >> 55) as usize,
        j: low::<3>(v >> 52) as usize,
        k: low::<3>(v >> 49) as usize,
        jk: low::<6>(v >> 49),
        constant: low::<18>(v >> 34),
    }
}
