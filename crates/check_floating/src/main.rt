// Prints the results of the floating sums and of normalize, and the tests for infinite and indefinite words, on edge operands, in octal.
// The expected output, in the file stdout, was written by expected.py beside it, which goes by exact fractions and shares nothing with
// this code.
#![tactic(auto)]

mod edges;
mod results;

// A write that fails is passed over: the comparison with the expected output finds what is missing.
fn show(output: &impl Print, text: &[u8]) {
    let _ = output.write_all(text);
}

fn main(rt: HostRuntime) {
    let words = edges::edges();
    for xj in words {
        for xk in words {
            results::sums(&rt, xj, xk);
        }
    }
    for xk in words {
        results::alone(&rt, xk);
    }
}
