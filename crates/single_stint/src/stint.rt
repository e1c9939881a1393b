// A stint of one program.
ghost use Rattle.std.specs.Prelude.{◌≡◌};
ghost use Rattle.single_stint.specs.Stint.{stint_to, stint_of, StintAccepted};

use super::field::run;
use base_outcome::stop::CentralStop;
use central_record::record::Central;
use exchange_jump::jump::exchange_jump;

// The record after a stint, the turns it made, and its stop, if any.
#[derive(Clone, Copy)]
pub struct StintEnd {
    pub central: Central,
    pub turns: u64,
    pub stop: Option<CentralStop>,
}

// Exchanges in at the package, makes up to n turns, exchanges out, and puts the record's own stop back.
pub fn stint(m: &mut [u64], c: Central, at: usize, n: u64) -> StintEnd
    requires { StintAccepted m.old c at }
    ensures { stint_to m.new result ≡ stint_of m.old c at n }
{
    let program = exchange_jump(m, c, at);
    let (ran, stop) = run(m, program, n);
    let mut back = exchange_jump(m, ran.central, at);
    back.stop = c.stop;
    StintEnd {
        central: back,
        turns: ran.turns,
        stop,
    }
}
