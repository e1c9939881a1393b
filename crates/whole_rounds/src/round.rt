// A round, and a run of rounds.
// Kept: m, c, x and s come one by one, here and in `whole_processors`, `peripheral_turn` and `peripheral_machine`. A struct of the four for a
// turn would hold a part of m (`&mut m[start..end]` of `processor_turn`), and of such an m the proof does not get to know what becomes (tried
// with a `Field` in `single_stint::field::run`); and each function would have to promise that the four references are the ones that came.
ghost use Rattle.std.specs.Prelude.{true, ◌≡◌, ◌*◌, ◌^◌, ◌<◌, ◌≤◌, length};
ghost use Rattle.exchange_jump.specs.Accepted.{HostAccepted};
ghost use Rattle.peripheral_machine.specs.Numbers.{central_of, clock_of};
ghost use Rattle.peripheral_machine.specs.Machine.{machine, central_side};
ghost use Rattle.peripheral_machine.specs.Widths.{MachineKept};
ghost use Rattle.whole_rounds.specs.Rounds.{central_turn_of, ticked, round_of, all_stopped, rounds_ran, rounds_of};

use central_codes::table::{CodeTable, table};
use central_turn::turn::{stop_number, turns};
use peripheral_machine::numbers::Numbers;
use whole_processors::processors::processors_turn;

// One turn of the central processor, which is lent its field alone. A stopped processor's turn changes nothing.
fn central_turn(c: &mut [u64], x: &mut [u64; 24], s: &mut Numbers, t: &CodeTable)
    requires host_accepted { HostAccepted c.old (central_of x.old s.old.places) }
    requires x_len { length x.old ≡ 24 }
    ensures { central_side c.new x.new s.new.places
        ≡ central_turn_of c.old x.old s.old.places }
{
    if s.central_stop() != 0 {
        return;
    }
    let b = s.central_bounds();
    let start = b.ra as usize;
    let end = start + b.fl as usize;
    let o = turns(x, &mut c[start..end], t, b, s.central_p(), 1);
    s.set_controls(o.p, b.ra, b.fl, b.em, stop_number(o.stop));
}

#[tactic(auto, unfolding(crate::specs::Rounds::ticked))]
fn tick(s: &mut Numbers)
    requires { clock_of s.old.places < 2 ^ 12 }
    ensures { s.new.places ≡ ticked s.old.places }
{
    s.set_clock((s.clock() + 1) % 4096);
}

// With k peripheral processors.
fn round(m: &mut [u16], c: &mut [u64], x: &mut [u64; 24], s: &mut Numbers, t: &CodeTable, k: usize)
    requires machine_kept { MachineKept (k * 4096) (machine m.old c.old x.old s.old.places) }
    requires k_bound { k ≤ 10 }
    ensures { machine m.new c.new x.new s.new.places
        ≡ round_of k (machine m.old c.old x.old s.old.places) }
{
    processors_turn(m, c, x, s, 0, k);
    central_turn(c, x, s, t);
    tick(s);
}

fn all_stopped(s: &Numbers, k: usize) -> bool
    requires { k ≤ 10 }
    ensures { result ≡ all_stopped k s.now.places }
{
    s.central_stop() != 0 && (0..k).all(|n: usize| s.processor(n).stop != 0)
}

// Up to n rounds; gives the rounds made.
pub fn run(
    m: &mut [u16],
    c: &mut [u64],
    x: &mut [u64; 24],
    s: &mut Numbers,
    k: usize,
    n: u64,
) -> u64
    requires machine_kept { MachineKept (k * 4096) (machine m.old c.old x.old s.old.places) }
    requires k_bound { k ≤ 10 }
    ensures { rounds_ran (machine m.new c.new x.new s.new.places) result
        ≡ rounds_of n k (machine m.old c.old x.old s.old.places) }
{
    let t = table();
    for made in 0..n {
        if all_stopped(s, k) {
            return made;
        }
        round(m, c, x, s, &t, k);
    }
    n
}
