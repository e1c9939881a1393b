// The register file: A0 to A7 at 0 to 7, B0 to B7 at 8 to 15, X0 to X7 at 16 to 23.
// Kept: an array and no type with `Wide` as its invariant, since `set_b` and `set_x` promise their answers for a value of any width. A
// struct with methods and no invariant would save no clause, and records and packages go through the 24 by place, as hosts lend them.
ghost use Rattle.std.specs.Prelude.{◌≡◌, ◌<◌};
ghost use Rattle.central_registers.specs.Registers.{a_of, b_of, x_of, set_b, set_x};
ghost use Rattle.central_registers.specs.Widths.{Wide, Short, Long};

pub fn a_of(r: &[u64; 24], i: usize) -> u64
    requires i_bound { i < 8 }
    requires wide { Wide r.now }
    ensures { Short result (a_of r.now i) }
{
    r[i]
}

pub fn b_of(r: &[u64; 24], i: usize) -> u64
    requires i_bound { i < 8 }
    requires wide { Wide r.now }
    ensures { Short result (b_of r.now i) }
{
    r[8 + i]
}

pub fn x_of(r: &[u64; 24], i: usize) -> u64
    requires i_bound { i < 8 }
    requires wide { Wide r.now }
    ensures { Long result (x_of r.now i) }
{
    r[16 + i]
}

// A store to B0 is dropped.
#[tactic(auto, unfolding(crate::specs::Registers::set_b))]
pub fn set_b(r: &mut [u64; 24], i: usize, v: u64)
    requires { i < 8 }
    ensures { r.new ≡ set_b r.old i v }
{
    if i != 0 {
        r[8 + i] = v;
    }
}

pub fn set_x(r: &mut [u64; 24], i: usize, v: u64)
    requires { i < 8 }
    ensures { r.new ≡ set_x r.old i v }
{
    r[16 + i] = v;
}
