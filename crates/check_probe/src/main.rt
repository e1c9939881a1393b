// Answers the probe format, in octal numbers: each line of standard input is one call on the memories and the record in it,
// and has one line of standard output.
#![tactic(auto)]

mod answer;
mod call;
mod central_call;
mod device_call;
mod given;
mod lent;
mod line;
mod machine;
mod machine_call;
mod reader;
mod schedule_call;

use reader::Reader;
use std::io::Read;

// A proved loop has to end, and nothing says that the input does: the count is one that no run uses up.
fn answer_all(input: &mut impl Read, output: &impl Print) {
    let mut reader = Reader::new();
    let mut buffer = [0; 65536];
    for _ in 0..u64::MAX {
        let n = input.read(&mut buffer).unwrap_or(0);
        if n == 0 {
            return;
        }
        if reader.take_bytes(output, &buffer[..n]).is_none() {
            return answer::write_all(output, b"unreadable\n");
        }
    }
}

fn main(rt: HostRuntime) {
    answer_all(&mut rt.stdin(), &rt);
}
