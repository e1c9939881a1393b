// The exact product of two sizes in halves of 48 bits, and its move to the left.
ghost use Rattle.std.specs.Prelude.{◌≡◌, ◌*◌, ◌/◌, ◌<◌, ◌^◌};
ghost use Rattle.floating_word.specs.Halves.{halves_of};
ghost use Rattle.floating_product.specs.Products.{is_normal, moves_left};
ghost use Rattle.floating_product.specs.Halves.{cut_product};

use floating_word::halves::Halves;

// 2^24, the base in which a product is worked out.
const BASE: u64 = 0o100000000;

// 2^47, the least size that is normalized.
const TOP: u64 = 0o4000000000000000;

// A product as moved, and the places, 0 or 1, by which it was moved.
#[derive(Clone, Copy)]
pub struct Product {
    pub size: Halves,
    pub places: u64,
}

// Digit by digit: the low column, the middle one with the carry of the low, the high one with the carry of the middle.
fn exact_product(a: u64, b: u64) -> Halves
    requires { (a < 2 ^ 48) × (b < 2 ^ 48) }
    ensures { result ≡ halves_of (a * b) }
{
    let a0 = a % BASE;
    let a1 = a / BASE;
    let b0 = b % BASE;
    let b1 = b / BASE;
    let low = a0 * b0;
    let middle = a1 * b0 + a0 * b1 + low / BASE;
    Halves {
        high: a1 * b1 + middle / BASE,
        low: middle % BASE * BASE + low % BASE,
    }
}

fn is_normal(size: u64) -> bool
    ensures { result ≡ is_normal size }
{
    size >= TOP
}

// A product is below 2^95 where its upper half is below 2^47.
fn moves_left(a: u64, b: u64, high: u64) -> bool
    requires { high ≡ a * b / 2 ^ 48 }
    ensures { result ≡ moves_left a b }
{
    is_normal(a) && is_normal(b) && high < TOP
}

pub(crate) fn moved_product(a: u64, b: u64) -> Product
    requires { (a < 2 ^ 48) × (b < 2 ^ 48) }
    ensures { result ≡ cut_product a b }
{
    let p = exact_product(a, b);
    if moves_left(a, b, p.high) {
        Product {
            size: p.doubled(),
            places: 1,
        }
    } else {
        Product { size: p, places: 0 }
    }
}
