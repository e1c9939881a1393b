// Operations on values of 18 bits, alone and with a word.
ghost use Rattle.std.specs.Prelude.{◌<◌};

use super::operand::{Operand, Value, Word};
use super::show;
use central_condition::conditions::comparison;
use word_arithmetic::logic::{logical_difference, logical_product, selective_clear};
use word_arithmetic::sums::{complement, difference, is_negative, magnitude, sign_extend18, sum};
use word_print::text;
use word_shift::floating::pack;
use word_shift::shifts::{rotate_left, shift_a, shift_right};

const EDGES: [u64; 12] = [
    0, 1, 3, 0o77, 0o100, 0o1776, 0o377777, 0o400000, 0o400001, 0o777700, 0o777776, 0o777777,
];

pub(crate) fn edges() -> [Value; 12] {
    EDGES.map(|a| Operand::of(a))
}

pub(crate) fn pair(output: &impl Print, a: Value, b: Value) {
    show(output, &text::short(a.bits));
    show(output, &text::short(b.bits));
    show(output, &text::short(sum::<18>(a.bits, b.bits)));
    show(output, &text::short(difference::<18>(a.bits, b.bits)));
    show(output, &text::short(logical_product(a.bits, b.bits)));
    show(output, &text::short(logical_difference(a.bits, b.bits)));
    show(output, &text::short(selective_clear(a.bits, b.bits)));
    for m in 4..8 {
        show(output, &text::flag(comparison(m, a.bits, b.bits)));
    }
    show(output, b"\n");
}

pub(crate) fn shift(output: &impl Print, a: Value, d: u64)
    requires { d < 64 }
{
    show(output, &text::short(a.bits));
    show(output, &text::short(d));
    show(output, &text::short(shift_a(d, a.bits)));
    show(output, &text::short(rotate_left::<18>(a.bits, d % 32)));
    show(output, &text::short(shift_right(a.bits, d % 32)));
    show(output, b"\n");
}

pub(crate) fn with_word(output: &impl Print, b: Value, x: Word) {
    show(output, &text::short(b.bits));
    show(output, &text::word(x.bits));
    show(output, &text::short(complement::<18>(b.bits)));
    show(output, &text::flag(is_negative::<18>(b.bits)));
    show(output, &text::short(magnitude::<18>(b.bits)));
    show(output, &text::word(sign_extend18(b.bits)));
    show(output, &text::word(pack(b.bits, x.bits)));
    show(output, b"\n");
}
