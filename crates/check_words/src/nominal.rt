// 22 and 23, by Bj of edge magnitudes.
use super::operand::{Operand, Value, Word};
use super::show;
use word_arithmetic::sums::complement;
use word_print::text;
use word_shift::nominal::nominal;

// Counts below 60, 60 to 63, 64 and 65, other multiples of 64 with neighbours, and the greatest magnitude.
const MAGNITUDES: [u64; 16] = [
    0, 1, 3, 0o73, 0o74, 0o77, 0o100, 0o101, 0o177, 0o200, 0o201, 0o300, 0o1776, 0o10000, 0o377700,
    0o377777,
];

pub(crate) fn magnitudes() -> [Value; 16] {
    MAGNITUDES.map(|b| Operand::of(b))
}

fn shift(output: &impl Print, b: Value, x: Word) {
    show(output, &text::short(b.bits));
    show(output, &text::word(x.bits));
    show(output, &text::word(nominal(true, b.bits, x.bits)));
    show(output, &text::word(nominal(false, b.bits, x.bits)));
    show(output, b"\n");
}

// By the magnitude itself, and by its complement.
pub(crate) fn shifts(output: &impl Print, b: Value, x: Word) {
    shift(output, b, x);
    shift(output, Operand::of(complement::<18>(b.bits)), x);
}
