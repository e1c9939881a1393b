// A turn, and up to n turns.
// Kept: `StateKept` is no invariant of a type, since it speaks of the registers and of the field, which come by two references. With a type
// that holds both, each contract would have to say that both are the ones that came (by `ghost_name`, as for `Field`).
ghost use Rattle.std.specs.Prelude.{◌≡◌, ◌+◌, ◌^◌, ◌<◌, ◌≤◌};
ghost use Rattle.central_apply.specs.State.{state};
ghost use Rattle.central_turn.specs.Turn.{stop_number, turned, word_run, turn_of, ran, turns_of};
ghost use Rattle.central_apply.specs.Widths.{StateKept};

use super::step::step;
use base_outcome::stop::CentralStop;
use central_apply::apply::Step;
use central_apply::field::Field;
use central_codes::table::CodeTable;
use central_field::address::{Bounds, Relative, convert};

// P after a turn, and the stop, if any.
#[derive(Clone, Copy)]
pub struct TurnEnd {
    pub p: u64,
    pub stop: Option<CentralStop>,
}

// The same after several turns, and how many were made, the stopping one included.
#[derive(Clone, Copy)]
pub struct RunEnd {
    pub p: u64,
    pub stop: Option<CentralStop>,
    pub turns: u64,
}

// The number that a record holds for a stop, or 0 for none.
pub fn stop_number(stop: Option<CentralStop>) -> u64
    ensures { result ≡ stop_number stop }
{
    match stop {
        None => 0,
        Some(s) => s.number(),
    }
}

// The parcels of the word w, which stands at p, from the first on.
// Kept: a `while`, since `step` says how many bits remain, which no range counts.
fn run_word(r: &mut [u64; 24], field: &mut Field, t: &CodeTable, p: u64, w: u64) -> TurnEnd
    requires state_kept { StateKept field.old.bounds.fl (state r.old field.old.words.now) }
    requires p_lt_fl { p < field.old.bounds.fl }
    ensures same_reference { field.new.words.ghost_name ≡ field.old.words.ghost_name }
    ensures same_bounds { field.new.bounds ≡ field.old.bounds }
    ensures value { turned (state r.new field.new.words.now) result
        ≡ word_run field.old.bounds p w (state r.old field.old.words.now) }
{
    let mut remaining: u64 = 60;
    let mut v = w << 4;
    while 0 < remaining {
        match step(r, field, t, p, v, remaining) {
            Step::Next(next) => {
                v <<= remaining - next;
                remaining = next;
            }
            Step::Branch(target) => {
                return TurnEnd {
                    p: target,
                    stop: None,
                };
            }
            Step::Stop(s) => return TurnEnd { p, stop: Some(s) },
        }
    }
    TurnEnd {
        p: p + 1,
        stop: None,
    }
}

// The word at p is fetched once and run, or the fetch is outside the field.
pub(crate) fn turn(r: &mut [u64; 24], field: &mut Field, t: &CodeTable, p: u64) -> TurnEnd
    requires state_kept { StateKept field.old.bounds.fl (state r.old field.old.words.now) }
    ensures same_reference { field.new.words.ghost_name ≡ field.old.words.ghost_name }
    ensures same_bounds { field.new.bounds ≡ field.old.bounds }
    ensures value { turned (state r.new field.new.words.now) result
        ≡ turn_of field.old.bounds p (state r.old field.old.words.now) }
{
    let Some(a) = convert(field.bounds, Relative(p)) else {
        return TurnEnd {
            p,
            stop: Some(CentralStop::FetchOutside),
        };
    };
    let w = field.read(a);
    run_word(r, field, t, p, w)
}

// Up to n turns, the first at p; a stop ends them.
fn field_turns(r: &mut [u64; 24], field: &mut Field, t: &CodeTable, p: u64, n: u64) -> RunEnd
    requires state_kept { StateKept field.old.bounds.fl (state r.old field.old.words.now) }
    requires p_bound { p < 2 ^ 18 }
    ensures same_reference { field.new.words.ghost_name ≡ field.old.words.ghost_name }
    ensures same_bounds { field.new.bounds ≡ field.old.bounds }
    ensures value { ran (state r.new field.new.words.now) result
        ≡ turns_of n field.old.bounds p (state r.old field.old.words.now) }
{
    let mut at = p;
    for made in 0..n {
        let e = turn(r, field, t, at);
        at = e.p;
        if e.stop.is_some() {
            return RunEnd {
                p: at,
                stop: e.stop,
                turns: made + 1,
            };
        }
    }
    RunEnd {
        p: at,
        stop: None,
        turns: n,
    }
}

// The same, with the words of a field and its bounds by themselves, as a caller has them.
// Kept: no `Field` is asked for: of a memory of which a caller puts a part `&mut m[a..b]` into a `Field`, the proof does not get to know
// what becomes (tried in `single_stint::field::run`).
pub fn turns(
    r: &mut [u64; 24],
    words: &mut [u64],
    t: &CodeTable,
    bounds: Bounds,
    p: u64,
    n: u64,
) -> RunEnd
    requires state_kept { StateKept bounds.fl (state r.old words.old) }
    requires fl_bound { bounds.ra + bounds.fl ≤ 131072 }
    requires p_bound { p < 2 ^ 18 }
    ensures { ran (state r.new words.new) result ≡ turns_of n bounds p (state r.old words.old) }
{
    let mut field = Field { bounds, words };
    field_turns(r, &mut field, t, p, n)
}
