// The bytes of one line, taken from the input at once.
ghost use Rattle.std.specs.Prelude.{◌≡◌, ◌≤◌, length};
ghost use Rattle.console_reader.specs.LineBytes.{LineFilled};

// Where the bytes of a line end, and how many of the line are kept.
#[derive(Clone, Copy)]
pub(crate) struct Filled {
    pub(crate) at: usize,
    pub(crate) length: usize,
}

// Goes to the next line feed, or to the end of the bytes. The bytes of a line past the first 32 are not kept: it is unreadable already.
#[tactic(auto, using(crate::proofs::Filling::filling_steps))]
pub(crate) fn fill(line: &mut [u8; 32], begun: usize, bytes: &[u8], from: usize) -> Filled
    requires { (begun ≤ 32) × (length line.old ≡ 32) }
    ensures { LineFilled bytes.now from line.old begun line.new result }
{
    let mut n = begun;
    for at in from..bytes.len() {
        let byte = bytes[at];
        if byte == b'\n' {
            return Filled { at, length: n };
        }
        if n < 32 {
            line[n] = byte;
            n += 1;
        }
    }
    Filled {
        at: from.max(bytes.len()),
        length: n,
    }
}
