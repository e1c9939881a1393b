// Writes the answer to one input and the line that ends it. A write that fails is passed over: the comparison with the expected output finds
// what is missing.
use console_calls::finish::{OUTPUT_BYTES, finish};
use console_grammar::lent::Lent;
use console_reader::reader::Reader;

pub(crate) fn write(output: &impl Print, reader: Reader, lent: &mut Lent) {
    let mut out = [0; OUTPUT_BYTES];
    let memory = &mut *lent.memory;
    let jobs = &mut *lent.jobs;
    let stint_jobs = &mut *lent.stint_jobs;
    let stint_turns = &mut *lent.stint_turns;
    // Of slices with the lengths that `main` gives them, no number refuses one.
    if let Ok(n) = finish(reader, memory, jobs, stint_jobs, stint_turns, &mut out) {
        let _ = output.write_all(&out[..n]);
    }
    let _ = output.write_all(b"=====\n");
}
