// Prints the table of length and fitness for the field engineers: a line for each nine-bit beginning f m i, in their order. The expected
// output, in the file stdout, was written by expected.py beside it, from the lists of documents 01 and 02.
#![tactic(auto)]

ghost use Rattle.std.specs.Prelude.{◌<◌};

use central_codes::table::{CodeTable, UNFIT, table};

fn digit(n: u64) -> u8 {
    b'0' + ((n % 8) as u8)
}

// A line, as `010 30 fit`. A write that fails is passed over: the comparison with the expected output finds what is missing.
fn print_line(output: &impl Print, t: &CodeTable, n: u64)
    requires { n < 512 }
{
    let entry = t.entry(n);
    let beginning = [digit(n / 64), digit(n / 8), digit(n), b' '];
    let _ = output.write_all(&beginning);
    let _ = output.print(entry % UNFIT);
    if entry < UNFIT {
        let _ = output.write_all(b" fit\n");
    } else {
        let _ = output.write_all(b" unfit\n");
    }
}

fn main(rt: HostRuntime) {
    let t = table();
    for n in 0..512u64 {
        print_line(&rt, &t, n);
    }
}
