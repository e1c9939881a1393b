// The exit status of an answer.
ghost use Rattle.std.specs.Prelude.{◌≡◌, ◌⊎◌};
ghost use Rattle.std.specs.Process.{exit_status};

use std::io::ErrorKind;
use std::process::ExitCode;

// The status where whoever read the answer has left, as a shell gives it of a program that SIGPIPE ended. The runtime has that signal
// ignored.
const READER_LEFT: u8 = 141;

// Writes an answer.
pub fn write_answer(rt: &(impl Print + Eprint), bytes: &[u8]) -> ExitCode
    ensures { (result ≡ ExitCode.SUCCESS) ⊎ ((exit_status result ≡ 141) ⊎ (result ≡ ExitCode.FAILURE)) }
{
    let Err(error) = rt.write_all(bytes) else {
        return ExitCode::SUCCESS;
    };
    if error.kind() == ErrorKind::BrokenPipe {
        return ExitCode::from(READER_LEFT);
    }
    let _ = rt.eprintln("tozhenab: the answer cannot be written");
    ExitCode::FAILURE
}

// Of an input of which a part may be missing nothing is answered.
pub fn write_unended(rt: &impl Eprint) -> ExitCode
    ensures { result ≡ ExitCode.FAILURE }
{
    let _ = rt.eprintln("tozhenab: the input cannot be read to its end");
    ExitCode::FAILURE
}
