// Numbers as octal digits.
ghost use Rattle.std.specs.Prelude.{◌≡◌, ◌-◌, ◌≤◌, ◌<◌, ◌++◌, ◌∷◌, [], length};
ghost use Rattle.std.specs.Int.{from_bool};
ghost use Rattle.word_octal.specs.Write.{digits};
ghost use Rattle.base_lists.specs.Written.{Stores};

use word_octal::write::Writer;

// The last k digits of n, at the beginning of a text.
fn begin(out: &mut [u8], k: usize, n: u64)
    requires { (k ≤ 22) × (k ≤ length out.old) }
    ensures { Stores out.old 0 (digits k n) out.new }
{
    let mut writer = Writer { out, at: 0 };
    writer.digits(k, n);
}

// The last N - 1 digits of n and a space.
#[tactic(auto, using(crate::proofs::Field::before_the_last))]
fn field<const N: usize>(n: u64) -> [u8; N]
    requires { (0 < N) × (N ≤ 23) }
    ensures { result ≡ digits (N - 1) n ++ (32 ∷ []) }
{
    let mut text = [b' '; N];
    begin(&mut text, N - 1, n);
    text
}

// A word of 60 bits and a space.
pub fn word(n: u64) -> [u8; 21]
    ensures { result ≡ digits 20 n ++ (32 ∷ []) }
{
    field::<21>(n)
}

// A value of 18 bits and a space.
pub fn short(n: u64) -> [u8; 7]
    ensures { result ≡ digits 6 n ++ (32 ∷ []) }
{
    field::<7>(n)
}

// 1 for true, 0 for false.
#[tactic(auto, unfolding(word_octal::specs::Write::digits))]
pub fn flag(yes: bool) -> [u8; 1]
    ensures { result ≡ digits 1 (from_bool yes) }
{
    [b'0' + u8::from(yes)]
}
