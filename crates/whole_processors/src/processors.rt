// Turns of the peripheral processors, each on its own memory.
ghost use Rattle.std.specs.Prelude.{◌≡◌, ◌+◌, ◌*◌, ◌<◌, ◌≤◌, length};
ghost use Rattle.peripheral_machine.specs.Machine.{machine};
ghost use Rattle.peripheral_machine.specs.Widths.{MachineKept};
ghost use Rattle.whole_processors.specs.Processors.{processor_turned, processors_turned};

use peripheral_machine::numbers::Numbers;
use peripheral_turn::turn::turn;

// Processor n: its own 4,096 words alone are lent to its turn.
fn processor_turn(m: &mut [u16], c: &mut [u64], x: &mut [u64; 24], s: &mut Numbers, n: usize)
    requires machine_kept { MachineKept (length m.old) (machine m.old c.old x.old s.old.places) }
    requires n_in_bounds { (n * 4096 + 4096 ≤ length m.old) × (n < 10) }
    ensures { machine m.new c.new x.new s.new.places
        ≡ processor_turned (machine m.old c.old x.old s.old.places) n }
{
    let start = n * 4096;
    let end = start + 4096;
    turn(&mut m[start..end], c, x, s, n);
}

// So many processors from the first on, in rising number. One alone is asked for here too: with a second place that calls `processor_turn`
// the compiler would not inline it, and rounds would be slower.
pub fn processors_turn(
    m: &mut [u16],
    c: &mut [u64],
    x: &mut [u64; 24],
    s: &mut Numbers,
    first: usize,
    count: usize,
)
    requires machine_kept { MachineKept (length m.old) (machine m.old c.old x.old s.old.places) }
    requires count_in_bounds { ((first + count) * 4096 ≤ length m.old) × (first + count ≤ 10) }
    ensures { machine m.new c.new x.new s.new.places
        ≡ processors_turned count first (machine m.old c.old x.old s.old.places) }
{
    for n in first..first + count {
        processor_turn(m, c, x, s, n);
    }
}
