// The results of one pair of words, and of one word.
ghost use Rattle.std.specs.Prelude.{◌<◌, ◌^◌};

use super::show;
use floating_normalize::normalize::normalize;
use floating_sum::sums::floating_sum;
use floating_word::special::{is_indefinite, is_infinite};
use word_print::text;

// Of 30 to 33.
pub(crate) fn sums(output: &impl Print, xj: u64, xk: u64)
    requires { (xj < 2 ^ 60) × (xk < 2 ^ 60) }
{
    show(output, &text::word(xj));
    show(output, &text::word(xk));
    for lower in [false, true] {
        for subtract in [false, true] {
            show(output, &text::word(floating_sum(subtract, lower, xj, xk)));
        }
    }
    show(output, b"\n");
}

// Of 24, and of both tests.
pub(crate) fn alone(output: &impl Print, xk: u64)
    requires { xk < 2 ^ 60 }
{
    let n = normalize(xk);
    show(output, &text::word(xk));
    show(output, &text::word(n.word));
    show(output, &text::short(n.count));
    show(output, &text::flag(is_infinite(xk)));
    show(output, &text::flag(is_indefinite(xk)));
    show(output, b"\n");
}
