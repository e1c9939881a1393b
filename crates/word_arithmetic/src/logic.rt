// The logical codes: 10 to 17 on 60 bits, and those of the peripheral processors on 18.
ghost use Rattle.std.specs.Prelude.{◌≡◌, ◌<◌, ◌^◌};
ghost use Rattle.word_arithmetic.specs.Logic.{logical, logical_product, logical_difference, selective_clear};

use super::sums::complement;

// Code 1m of Xj and Xk.
// Kept: the operation is the octal digit m, by which the manual names it and as which the listing has it; a name for each is no plainer.
#[tactic(auto, unfolding(crate::specs::Logic::logical))]
pub fn logical(m: u64, xj: u64, xk: u64) -> u64
    requires { (m < 8) × (xk < 2 ^ 60) }
    ensures { result ≡ logical m xj xk }
{
    match m {
        0 => xj,
        1 => xj & xk,
        2 => xj | xk,
        3 => xj ^ xk,
        4 => complement::<60>(xk),
        5 => xj & complement::<60>(xk),
        6 => xj | complement::<60>(xk),
        _ => xj ^ complement::<60>(xk),
    }
}

// LPN, LPC: A's bits where the operand's are set.
pub fn logical_product(a: u64, b: u64) -> u64
    ensures { result ≡ logical_product a b }
{
    a & b
}

// LMN, LMC, LMD, LMI, LMM: A's bits changed where the operand's are set.
pub fn logical_difference(a: u64, b: u64) -> u64
    ensures { result ≡ logical_difference a b }
{
    a ^ b
}

// SCN: A's bits cleared where the operand's are set.
pub fn selective_clear(a: u64, b: u64) -> u64
    requires { b < 2 ^ 18 }
    ensures { result ≡ selective_clear a b }
{
    a & complement::<18>(b)
}
