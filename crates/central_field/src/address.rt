// The field, and the one place where an address relative to it becomes absolute.
ghost use Rattle.std.specs.Prelude.{Some, ◌≡◌, ◌+◌, ◌≤◌};
ghost use Rattle.central_field.specs.Address.{place_of, Within, Index};

// The field's first word RA and its length FL, and the exit mode EM.
// Kept: no fact `ra + fl ≤ 131072` stands in the type, since `bounds` of specs/Address.antt makes a value of any three numbers, of which the
// theorem `turns-anywhere` of central_turn speaks.
#[derive(Clone, Copy)]
pub struct Bounds {
    pub ra: u64,
    pub fl: u64,
    pub em: u64,
}

// An address as a program has it: all of its 18 bits.
#[derive(Clone, Copy)]
pub struct Relative(pub u64);

// An address in central memory.
#[derive(Clone, Copy)]
pub struct Absolute(pub u64);

// The field test: below FL, and RA is added. Nothing else makes an absolute address of a program's number.
#[tactic(auto, unfolding(crate::specs::Address::place_of))]
pub fn convert(b: Bounds, a: Relative) -> Option<Absolute>
    requires { b.ra + b.fl ≤ 131072 }
    ensures { result ≡ place_of b a }
{
    if a.0 < b.fl {
        Some(Absolute(b.ra + a.0))
    } else {
        None
    }
}

// Where a word of the field stands in the part that is lent, which begins at RA.
pub fn index(b: Bounds, a: Absolute) -> usize
    requires { Within b (Some a) }
    ensures { Index b a result }
{
    (a.0 - b.ra) as usize
}
