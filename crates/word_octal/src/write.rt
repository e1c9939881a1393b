// Writes text and numbers in octal digits into a lent buffer.
ghost use Rattle.std.specs.Prelude.{◌≡◌, ◌+◌, ◌≤◌, ◌<◌, length};
ghost use Rattle.word_octal.specs.Write.{digit_of, digits, width_in, octal};
ghost use Rattle.word_octal.specs.Writes.{Writes};

// The byte of the digit of v that is worth 8 to the power k.
fn digit(v: u64, k: usize) -> u8
    requires { k < 22 }
    ensures { result ≡ digit_of v k }
{
    b'0' + ((v >> (3 * k)) % 8) as u8
}

// How many digits v has.
#[tactic(auto, using(crate::specs::Laws::Write::width_found, crate::specs::Laws::Write::width_below, crate::specs::Laws::Write::width_last))]
fn width(v: u64) -> usize
    ensures { result ≡ width_in 21 v }
{
    for k in (1..22).rev() {
        if (v >> (3 * k)) % 8 != 0 {
            return k + 1;
        }
    }
    1
}

// A lent buffer, and the place where the next byte goes.
#[derive(Drop)]
pub struct Writer<'a> {
    pub out: &'a mut [u8],
    pub at: usize,
}

impl<'a> Writer<'a> {
    // Bytes as they are.
    #[tactic(auto, using(crate::specs::Laws::Write::wrote_part))]
    pub fn text(&mut self, text: &[u8])
        requires { self.old.at + length text.now ≤ length self.old.out.now }
        ensures { Writes self.old text.now self.new }
    {
        let end = self.at + text.len();
        self.out[self.at..end].copy_from_slice(text);
        self.at = end;
    }

    // The last n digits of v.
    pub fn digits(&mut self, n: usize, v: u64)
        requires { (n ≤ 22) × (self.old.at + n ≤ length self.old.out.now) }
        ensures { Writes self.old (digits n v) self.new }
    {
        for k in (0..n).rev() {
            self.out[self.at] = digit(v, k);
            self.at += 1;
        }
    }

    // All digits of v without leading zeros.
    #[tactic(auto, using(crate::specs::Laws::Write::width_fits), unfolding(crate::specs::Write::octal))]
    pub fn octal(&mut self, v: u64)
        requires { self.old.at + 22 ≤ length self.old.out.now }
        ensures { Writes self.old (octal v) self.new }
    {
        self.digits(width(v), v);
    }
}
