// Turns of a central record on its field, the one part of memory that they are lent.
ghost use Rattle.std.specs.Prelude.{◌≡◌};
ghost use Rattle.exchange_jump.specs.Accepted.{HostAccepted};
ghost use Rattle.central_turn.specs.Turn.{stop_number};
ghost use Rattle.single_stint.specs.Field.{ran_on, ran_to};

use base_outcome::stop::CentralStop;
use central_codes::table::table;
use central_field::address::Bounds;
use central_record::record::Central;
use central_turn::turn::{stop_number, turns};

// The record after turns, and how many were made.
#[derive(Clone, Copy)]
pub struct Ran {
    pub central: Central,
    pub turns: u64,
}

// Up to n turns of a running processor, and the stop that ended them, if any.
pub fn run(m: &mut [u64], c: Central, n: u64) -> (Ran, Option<CentralStop>)
    requires { HostAccepted m.old c }
    ensures ran { ran_to m.new result.0 ≡ ran_on m.old c n }
    ensures stop { result.0.central.stop ≡ stop_number result.1 }
{
    let b = Bounds {
        ra: c.ra,
        fl: c.fl,
        em: c.em,
    };
    let mut registers = c.registers;
    let start = c.ra as usize;
    let end = start + (c.fl as usize);
    let o = turns(&mut registers, &mut m[start..end], &table(), b, c.p, n);
    let central = Central {
        p: o.p,
        ra: c.ra,
        fl: c.fl,
        em: c.em,
        registers,
        stop: stop_number(o.stop),
    };
    let ran = Ran {
        central,
        turns: o.turns,
    };
    (ran, o.stop)
}
