// One instruction: stops 4 and 5 by its entry of the table, 4 before 5; then its effect is worked out and applied.
ghost use Rattle.std.specs.Prelude.{◌≡◌, ◌%◌, ◌<◌, ◌≤◌};
ghost use Rattle.central_decode.specs.Shifted.{decoded_top};
ghost use Rattle.central_registers.specs.Widths.{Wide};
ghost use Rattle.central_apply.specs.State.{state};
ghost use Rattle.central_apply.specs.Apply.{after};
ghost use Rattle.central_turn.specs.Turn.{ran_at};
ghost use Rattle.central_turn.specs.Remaining.{place_by_remaining, after_by_remaining};

use base_outcome::stop::CentralStop;
use central_apply::apply::{Step, apply};
use central_apply::field::Field;
use central_codes::table::{CodeTable, UNFIT};
use central_effect::listing::effect_of;

// The instruction at the top of v, in the word at p, of which this many bits remain.
pub(crate) fn step(
    r: &mut [u64; 24],
    field: &mut Field,
    t: &CodeTable,
    p: u64,
    v: u64,
    remaining: u64,
) -> Step
    requires wide { Wide r.old }
    requires p_bound { p < 131072 }
    requires remaining_bound { remaining ≤ 60 }
    requires remaining_value { remaining % 15 ≡ 0 }
    ensures same_reference { field.new.words.ghost_name ≡ field.old.words.ghost_name }
    ensures same_bounds { field.new.bounds ≡ field.old.bounds }
    ensures value { after r.new field.new.words.now result
        ≡ after_by_remaining (ran_at (state r.old field.old.words.now) field.old.bounds p (place_by_remaining remaining) (decoded_top v)) }
{
    // By the nine bits f m i alone: the code's own arm decodes the rest.
    let entry = t.entry(v >> 55);
    if remaining < entry {
        if UNFIT <= entry {
            return Step::Stop(CentralStop::UnfitCode);
        }
        return Step::Stop(CentralStop::LastParcel);
    }
    let e = effect_of(r, v, field.bounds.em, p);
    apply(r, field, e, remaining - entry)
}
