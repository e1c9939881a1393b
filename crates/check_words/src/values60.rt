// Operations on words of 60 bits.
ghost use Rattle.std.specs.Prelude.{◌<◌};

use super::operand::{Operand, Word};
use super::show;
use central_condition::conditions::word_condition;
use central_decode::instruction::{Instruction, decode};
use word_arithmetic::logic::logical;
use word_arithmetic::sums::{complement, difference, is_negative, low, magnitude, sum};
use word_fields::fields::{from_parts, part};
use word_print::text;
use word_shift::floating::unpack;
use word_shift::shifts::{count_ones, mask, rotate_left, shift_right_signed};

const EDGES: [u64; 12] = [
    0,
    1,
    3,
    0o37777777777777777777,
    0o40000000000000000000,
    0o77777777777777777774,
    0o77777777777777777776,
    0o77777777777777777777,
    0o17760000000000000005,
    0o60010000000000000003,
    0o37770000000000000000,
    0o51234567012345670123,
];

pub(crate) fn edges() -> [Word; 12] {
    EDGES.map(|w| Operand::of(w))
}

pub(crate) fn pair(output: &impl Print, a: Word, b: Word) {
    show(output, &text::word(a.bits));
    show(output, &text::word(b.bits));
    show(output, &text::word(sum::<60>(a.bits, b.bits)));
    show(output, &text::word(difference::<60>(a.bits, b.bits)));
    for m in 0..8 {
        show(output, &text::word(logical(m, a.bits, b.bits)));
    }
    show(output, b"\n");
}

pub(crate) fn shift(output: &impl Print, w: Word, k: u64)
    requires { k < 64 }
{
    show(output, &text::word(w.bits));
    show(output, &text::short(k));
    show(output, &text::word(rotate_left::<60>(w.bits, k)));
    show(output, &text::word(shift_right_signed::<60>(w.bits, k)));
    show(output, &text::word(mask::<60>(k)));
    show(output, b"\n");
}

// The digits f m i j k, the code and jk.
fn digits(output: &impl Print, q: Instruction) {
    show(output, &text::short(q.code / 8));
    show(output, &text::short(q.code % 8));
    show(output, &text::short(q.i as u64));
    show(output, &text::short(q.j as u64));
    show(output, &text::short(q.k as u64));
    show(output, &text::short(q.code));
    show(output, &text::short(q.jk));
}

// The instruction at each of the four places, and K where there is one.
fn instructions(output: &impl Print, w: u64) {
    let all = [
        decode(w << 4),
        decode(w << 19),
        decode(w << 34),
        decode(w << 49),
    ];
    for q in all {
        digits(output, q);
    }
    for q in &all[..3] {
        show(output, &text::short(q.constant));
    }
}

fn parts(output: &impl Print, w: u64) {
    for place in 0..5 {
        show(output, &text::short(part(w, place)));
    }
}

// The word with its five parts in the opposite order.
fn reversed(w: u64) -> u64 {
    from_parts(part(w, 4), part(w, 3), part(w, 2), part(w, 1), part(w, 0))
}

pub(crate) fn alone(output: &impl Print, word: Word) {
    let w = word.bits;
    show(output, &text::word(w));
    show(output, &text::word(complement::<60>(w)));
    show(output, &text::word(magnitude::<60>(w)));
    show(output, &text::short(low::<18>(w)));
    show(output, &text::short(low::<12>(w)));
    show(output, &text::short(count_ones::<60>(w)));
    let u = unpack(w);
    show(output, &text::word(u.coefficient));
    show(output, &text::short(u.exponent));
    show(output, &text::flag(is_negative::<60>(w)));
    for i in 0..8 {
        show(output, &text::flag(word_condition(i, w)));
    }
    show(output, b"\n");
    instructions(output, w);
    parts(output, w);
    show(output, &text::word(reversed(w)));
    show(output, b"\n");
}
