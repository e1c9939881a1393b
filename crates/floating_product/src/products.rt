// Codes 40 and 42.
ghost use Rattle.std.specs.Prelude.{false, ◌≡◌, ◌+◌, ◌<◌, ◌^◌};
ghost use Rattle.floating_word.specs.Widths.{NumberFits};
ghost use Rattle.floating_product.specs.Products.{is_zero_operand, either_zero, product_half, product_word, is_complemented, floating_product};

use super::halves::moved_product;
use floating_word::number::{Number, number_in, word_of};
use floating_word::special::{
    INDEFINITE, either_indefinite, either_infinite, infinity_word, is_indefinite, is_special,
    signed, unlike_signs,
};

// The bias of one exponent, which a sum of two has twice.
const BIAS: u64 = 1023;

// A half of the product of two finite numbers, without its sign.
#[tactic(auto, unfolding(crate::specs::Products::product_half))]
fn product_half(lower: bool, x: Number, y: Number) -> u64
    requires number_fits { NumberFits x }
    requires number_fits_2 { NumberFits y }
    ensures { result ≡ product_half lower x y }
{
    let p = moved_product(x.size, y.size);
    let sum = x.biased + y.biased;
    let fall = BIAS + p.places;
    if lower {
        word_of(false, sum, fall, p.size.low)
    } else {
        word_of(false, sum + 48, fall, p.size.high)
    }
}

// A finite operand of zero coefficient.
fn is_zero_operand(x: u64) -> bool
    requires { x < 2 ^ 60 }
    ensures { result ≡ is_zero_operand x }
{
    !is_special(x) && number_in(x).size == 0
}

fn either_zero(x: u64, y: u64) -> bool
    requires { (x < 2 ^ 60) × (y < 2 ^ 60) }
    ensures { result ≡ either_zero x y }
{
    is_zero_operand(x) || is_zero_operand(y)
}

// The result before its complement.
#[tactic(auto, unfolding(crate::specs::Products::product_word))]
fn product_word(lower: bool, x: u64, y: u64) -> u64
    requires { (x < 2 ^ 60) × (y < 2 ^ 60) }
    ensures { result ≡ product_word lower x y }
{
    let zero = either_zero(x, y);
    if either_indefinite(x, y) || (either_infinite(x, y) && zero) {
        return INDEFINITE;
    }
    if either_infinite(x, y) {
        return infinity_word(false);
    }
    if zero {
        return 0;
    }
    product_half(lower, number_in(x), number_in(y))
}

fn is_complemented(differ: bool, w: u64) -> bool
    ensures { result ≡ is_complemented differ w }
{
    differ && !is_indefinite(w) && w != 0
}

// 40, and 42 (lower).
#[tactic(auto, unfolding(crate::specs::Products::floating_product))]
pub fn floating_product(lower: bool, xj: u64, xk: u64) -> u64
    requires { (xj < 2 ^ 60) × (xk < 2 ^ 60) }
    ensures { result ≡ floating_product lower xj xk }
{
    let w = product_word(lower, xj, xk);
    signed(is_complemented(unlike_signs(xj, xk), w), w)
}
