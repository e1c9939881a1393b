// An input, read in pieces.
ghost use Rattle.std.specs.Prelude.{OnOk};
ghost use Rattle.std.specs.Io.KnownBytes.{IsAtEnd};

use std::io;
use std::io::{ErrorKind, Read};

// Hands each piece of an input to a step, in order, with what the steps before have made of the others. Only the whole input gives an `Ok`.
// A proved loop has to end, and nothing says that the input does: the count is one that no run uses up.
pub fn fold_pieces<R: Read, T: Drop, F: FnMut(T, &[u8]) -> T>(
    input: &mut R,
    first: T,
    mut step: F,
) -> io::Result<T>
    requires { F.IsAlwaysCallable step }
    ensures { OnOk result (IsAtEnd (R.remaining input.new)) }
{
    let mut made = first;
    let mut buffer = [0; 65536];
    for _ in 0..u64::MAX {
        let n = input.read(&mut buffer)?;
        if n == 0 {
            return Ok(made);
        }
        made = step(made, &buffer[..n]);
    }
    Err(io::Error::from(ErrorKind::Other))
}
