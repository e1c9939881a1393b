// A turn: one instruction.
ghost use Rattle.std.specs.Prelude.{◌≡◌, ◌<◌};
ghost use Rattle.peripheral_machine.specs.Machine.{machine};
ghost use Rattle.peripheral_machine.specs.Widths.{MachineKept};
ghost use Rattle.peripheral_turn.specs.Turn.{peripheral_turn_of};

use super::listing::effect_of;
use peripheral_codes::addresses::{OwnMemory, Registers, View};
use peripheral_machine::apply::apply;
use peripheral_machine::numbers::Numbers;

// Processor n, whose own memory is m, on central memory c, the central processor's registers x and the machine's numbers s. A stopped
// processor's turn changes nothing.
pub fn turn(m: &mut [u16], c: &mut [u64], x: &mut [u64; 24], s: &mut Numbers, n: usize)
    requires machine_kept { MachineKept 4096 (machine m.old c.old x.old s.old.places) }
    requires n_bound { n < 10 }
    ensures { machine m.new c.new x.new s.new.places
        ≡ peripheral_turn_of (machine m.old c.old x.old s.old.places) n }
{
    let processor = s.processor(n);
    if processor.stop != 0 {
        return;
    }
    let v = View {
        memory: OwnMemory { words: m },
        registers: Registers { processor },
    };
    let e = effect_of(&v, c, s);
    apply(m, c, x, s, n, e);
}
