// Prints the results of every operation of `word_arithmetic`, `word_fields`, `central_condition` and `word_shift`, and of decoding, on edge
// operands, in octal.
// The expected output, in the file stdout, was written by expected.py beside it, which goes by strings of bits and by signed whole numbers
// and shares nothing with this code.
#![tactic(auto)]

mod nominal;
mod operand;
mod values18;
mod values60;

use operand::{Value, Word};

// A write that fails is passed over: the comparison with the expected output finds what is missing.
fn show(output: &impl Print, text: &[u8]) {
    let _ = output.write_all(text);
}

// Each pair of the twelve edge operands: of words, of 18-bit values, and of an 18-bit value with a word.
fn pairs(output: &impl Print, words: &[Word; 12], values: &[Value; 12]) {
    for (x, a) in words.iter().zip(values) {
        for (y, b) in words.iter().zip(values) {
            values60::pair(output, *x, *y);
            values18::pair(output, *a, *b);
            values18::with_word(output, *a, *y);
        }
    }
}

fn main(rt: HostRuntime) {
    let words = values60::edges();
    let values = values18::edges();
    pairs(&rt, &words, &values);
    // Each edge operand with each count.
    for (w, a) in words.iter().zip(&values) {
        for count in 0..64 {
            values60::shift(&rt, *w, count);
            values18::shift(&rt, *a, count);
        }
    }
    // Each edge magnitude, in both signs of Bj, with each edge word.
    for b in nominal::magnitudes() {
        for x in words {
            nominal::shifts(&rt, b, x);
        }
    }
    for w in words {
        values60::alone(&rt, w);
    }
}
