// A program's field, as it is lent to the instructions.
ghost use Rattle.std.specs.Prelude.{Some, ◌≡◌, get_or, set};
ghost use Rattle.central_field.specs.Address.{Within, index_of};
ghost use Rattle.central_apply.specs.Widths.{Lent};

use central_field::address::{Absolute, Bounds, index};

// The field's bounds, and its words from RA on.
#[derive(Drop)]
pub struct Field<'a> {
    pub bounds: Bounds,
    pub words: &'a mut [u64],
    ghost lent: { Lent bounds words.now },
}

impl<'a> Field<'a> {
    // The word at an address that the field test gave.
    pub fn read(&self, a: Absolute) -> u64
        requires { Within self.now.bounds (Some a) }
        ensures { result ≡ get_or self.now.words.now (index_of self.now.bounds a) 0 }
    {
        self.words[index(self.bounds, a)]
    }

    pub fn write(&mut self, a: Absolute, word: u64)
        requires { Within self.old.bounds (Some a) }
        ensures same_reference { self.new.words.ghost_name ≡ self.old.words.ghost_name }
        ensures same_bounds { self.new.bounds ≡ self.old.bounds }
        ensures written { self.new.words.now
            ≡ set self.old.words.now (index_of self.old.bounds a) word }
    {
        let n = index(self.bounds, a);
        self.words[n] = word;
    }
}
