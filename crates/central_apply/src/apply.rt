// The only code that writes registers or the field.
ghost use Rattle.std.specs.Prelude.{◌≡◌, ◌^◌, ◌<◌, ◌≤◌};
ghost use Rattle.central_effect.specs.Sound.{CentralSound};
ghost use Rattle.central_apply.specs.State.{state};
ghost use Rattle.central_field.specs.Address.{Within};
ghost use Rattle.central_apply.specs.Apply.{after, referred, a_set, stored, return_jumped, applied};

use super::field::Field;
use base_outcome::stop::CentralStop;
use central_effect::effect::CentralEffect;
use central_field::address::{Absolute, Relative, convert};
use central_registers::registers::{set_b, set_x};

// What follows an instruction.
#[derive(Clone, Copy)]
pub enum Step {
    // The word goes on: the number that `apply` was given.
    Next(u64),
    // The new P.
    Branch(u64),
    Stop(CentralStop),
}

// EM bit 010000, which is bit 12.
const ADDRESS_BIT: u64 = 12;

// A1 to A7 was set: the read into Xi, or the store of Xi. Outside the field a read gives zero and a store is dropped, or,
// with the EM bit, nothing changes.
fn refer(r: &mut [u64; 24], field: &mut Field, i: usize, p: Option<Absolute>, next: u64) -> Step
    requires le_i { (1 ≤ i) × (i < 8) }
    requires within { Within field.old.bounds p }
    ensures same_reference { field.new.words.ghost_name ≡ field.old.words.ghost_name }
    ensures same_bounds { field.new.bounds ≡ field.old.bounds }
    ensures value { after r.new field.new.words.now result
        ≡ referred (state r.old field.old.words.now) field.old.bounds i p next }
{
    let Some(a) = p else {
        // Stop 2: operand outside the field with EM bit 010000.
        if (field.bounds.em >> ADDRESS_BIT) & 1 == 1 {
            return Step::Stop(CentralStop::OperandOutside);
        }
        if i < 6 {
            set_x(r, i, 0);
        }
        return Step::Next(next);
    };
    if i < 6 {
        set_x(r, i, field.read(a));
    } else {
        field.write(a, r[16 + i]);
    }
    Step::Next(next)
}

// A is set in all cases, and all of its 18 bits go into the field test.
fn set_a(r: &mut [u64; 24], field: &mut Field, i: usize, v: u64, next: u64) -> Step
    requires { i < 8 }
    ensures same_reference { field.new.words.ghost_name ≡ field.old.words.ghost_name }
    ensures same_bounds { field.new.bounds ≡ field.old.bounds }
    ensures value { after r.new field.new.words.now result
        ≡ a_set (state r.old field.old.words.now) field.old.bounds i v next }
{
    r[i] = v;
    if i == 0 {
        return Step::Next(next);
    }
    let p = convert(field.bounds, Relative(v));
    refer(r, field, i, p, next)
}

// 010: nothing is written where the target is outside the field.
fn return_jump(field: &mut Field, target: u64, word: u64) -> Step
    requires { target < 2 ^ 18 }
    ensures same_reference { field.new.words.ghost_name ≡ field.old.words.ghost_name }
    ensures same_bounds { field.new.bounds ≡ field.old.bounds }
    ensures value { stored field.new.words.now result
        ≡ return_jumped field.old.words.now field.old.bounds target word }
{
    let Some(a) = convert(field.bounds, Relative(target)) else {
        return Step::Stop(CentralStop::FetchOutside);
    };
    field.write(a, word);
    Step::Branch(target + 1)
}

// The effect e, and what follows it; next, the bits that remain after the instruction, is handed on as it is.
pub fn apply(r: &mut [u64; 24], field: &mut Field, e: CentralEffect, next: u64) -> Step
    requires { CentralSound e }
    ensures same_reference { field.new.words.ghost_name ≡ field.old.words.ghost_name }
    ensures same_bounds { field.new.bounds ≡ field.old.bounds }
    ensures value { after r.new field.new.words.now result
        ≡ applied (state r.old field.old.words.now) field.old.bounds e next }
{
    match e {
        CentralEffect::Pass => Step::Next(next),
        CentralEffect::Stop(s) => Step::Stop(s),
        CentralEffect::Jump(p) => Step::Branch(p),
        CentralEffect::ReturnJump(k, w) => return_jump(field, k, w),
        CentralEffect::SetA(i, v) => set_a(r, field, i, v, next),
        CentralEffect::SetB(i, v) => {
            set_b(r, i, v);
            Step::Next(next)
        }
        CentralEffect::SetX(i, v) => {
            set_x(r, i, v);
            Step::Next(next)
        }
        CentralEffect::SetXB(i, v, j, e) => {
            set_x(r, i, v);
            set_b(r, j, e);
            Step::Next(next)
        }
    }
}
