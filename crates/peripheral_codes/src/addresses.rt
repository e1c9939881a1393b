// The words and addresses of an instruction.
ghost use Rattle.std.specs.Prelude.{◌≡◌, ◌^◌, ◌<◌};
ghost use Rattle.peripheral_codes.specs.Addresses.{word_at, onward, second, indexed, constant, jump_target};
ghost use Rattle.peripheral_codes.specs.IndexSum.{index_sum};
ghost use Rattle.peripheral_codes.specs.Widths.{Memory, Held, Twelve};

use peripheral_machine::numbers::Processor;

// The memory of a peripheral processor: 4,096 words of 12 bits.
#[derive(Clone, Copy)]
pub struct OwnMemory<'a> {
    pub words: &'a [u16],
    ghost fits: { Memory words.now },
}

impl OwnMemory<'_> {
    // A word of the processor's memory.
    pub fn read(&self, at: u64) -> u64
        requires { at < 4096 }
        ensures { Twelve result (word_at self.now.words.now at) }
    {
        u64::from(self.words[at as usize])
    }

    // m, the word after the instruction at p.
    pub fn second(&self, p: u64) -> u64
        requires { p < 2 ^ 12 }
        ensures { Twelve result (second self.now.words.now p) }
    {
        self.read((p + 1) % 4096)
    }

    // m + (d), or m alone.
    #[tactic(auto, unfolding(crate::specs::Addresses::indexed))]
    pub fn indexed(&self, p: u64, d: u64) -> u64
        requires p_bound { p < 2 ^ 12 }
        requires d_bound { d < 64 }
        ensures { Twelve result (indexed self.now.words.now p d) }
    {
        let base = self.second(p);
        if d == 0 {
            return base;
        }
        index_sum(base, self.read(d))
    }

    // The 18 bits of d and m.
    pub(crate) fn constant(&self, p: u64, d: u64) -> u64
        requires p_bound { p < 2 ^ 12 }
        requires d_bound { d < 64 }
        ensures { result ≡ constant self.now.words.now p d }
    {
        d * 4096 + self.second(p)
    }
}

// The registers of a processor that may take a turn: P of 12 bits and A of 18.
// Kept: `Processor` itself has no such fact, since a host may lend any numbers and number 5 is the test of them (`processor_fits` of
// whole_record).
#[derive(Clone, Copy)]
pub struct Registers {
    pub processor: Processor,
    ghost held: { Held processor },
}

// A peripheral processor as its instruction finds it.
#[derive(Clone, Copy)]
pub struct View<'a> {
    pub memory: OwnMemory<'a>,
    pub registers: Registers,
}

// P, k words on.
pub fn onward(p: u64, k: u64) -> u64
    requires { (p < 2 ^ 12) × (k < 2 ^ 12) }
    ensures { result ≡ onward p k }
{
    (p + k) % 4096
}

// The sum of a base and an index. A carry out of the 12 bits comes back in as one; 7777 stays, so this is not the sum of A.
fn index_sum(base: u64, index: u64) -> u64
    requires { (base < 2 ^ 12) × (index < 2 ^ 12) }
    ensures { result ≡ index_sum 12 base index }
{
    let plain = base + index;
    if plain <= 0o7777 {
        plain
    } else {
        plain - 0o7777
    }
}

// The target of 03 to 07: from 40 up d counts back, as a negative number of six bits.
#[tactic(auto, unfolding(crate::specs::Addresses::jump_target))]
pub(crate) fn jump_target(p: u64, d: u64) -> u64
    requires p_bound { p < 2 ^ 12 }
    requires d_bound { d < 64 }
    ensures { result ≡ jump_target p d }
{
    if d < 0o40 {
        return (p + d) % 4096;
    }
    (p + 4096 - (0o77 - d)) % 4096
}
