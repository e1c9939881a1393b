// The central processor's record, and the tests of what the host lends: numbers 1, 3 and 5.
ghost use Rattle.std.specs.Prelude.{◌≡◌, ◌^◌, length};
ghost use Rattle.base_lists.specs.Indexed.{all_below};
ghost use Rattle.base_outcome.specs.Numbers.{central_stop_listed};
ghost use Rattle.central_record.specs.Record.{em_fits, register_width, registers_fit, record_fits, length_fits, below, words_fit, host_verdict};

use base_outcome::refusal::Refusal;

// The central processor's record.
#[derive(Clone, Copy)]
pub struct Central {
    pub p: u64,
    pub ra: u64,
    pub fl: u64,
    pub em: u64,
    // A0 to A7 at 0 to 7, B0 to B7 at 8 to 15, X0 to X7 at 16 to 23.
    pub registers: [u64; 24],
    // 0 while the processor runs, else its stop's number.
    // Kept: a number and no `Option` of a stop, since a host may lend any, and number 5 is the test of it (`record_fits`).
    pub stop: u64,
}

// Only the bits 010000, 020000 and 040000 are set.
pub fn em_fits(em: u64) -> bool
    ensures { result ≡ em_fits em }
{
    em == ((em >> 12) & 7) << 12
}

// The first number that is too wide for register i: A and B registers come before X0 at 16.
fn register_limit(i: usize) -> u64
    ensures { result ≡ 2 ^ register_width i }
{
    if i < 16 {
        0o1000000
    } else {
        0o100000000000000000000
    }
}

// Each register has its width.
fn registers_fit(registers: [u64; 24]) -> bool
    ensures { result ≡ registers_fit registers }
{
    (0..24).all(|i: usize| registers[i] < register_limit(i))
}

// A stop that a central record may hold, or 0.
fn stop_listed(stop: u64) -> bool
    ensures { result ≡ central_stop_listed stop }
{
    stop <= 5 || stop == 7 || stop == 8
}

// Number 5 does not refuse the record. RA and FL are added once both are known to have 18 bits.
#[tactic(auto, unfolding(crate::specs::Record::record_fits))]
pub fn record_fits(c: Central, words: u64) -> bool
    ensures { result ≡ record_fits words c }
{
    c.p <= 0o777777
        && c.ra <= 0o777777
        && c.fl <= 0o777777
        && c.ra + c.fl <= words
        && stop_listed(c.stop)
        && c.registers[8] == 0
        && em_fits(c.em)
        && registers_fit(c.registers)
}

// Each entry is below this limit.
pub fn all_below(m: &[u64], limit: u64) -> bool
    ensures { result ≡ all_below (length m.now) (below limit m.now) }
{
    m.iter().all(|word| *word < limit)
}

// Each word of memory has 60 bits. The words are ORed in one pass without an early exit, of which the compiler makes wide instructions.
pub fn words_fit(m: &[u64]) -> bool
    ensures { result ≡ words_fit m.now }
{
    m.iter().fold(0, |all, word| all | word) < 0o100000000000000000000
}

// Number 1: central memory has 1 to 131,072 words.
pub fn length_fits(words: usize) -> bool
    ensures { result ≡ length_fits words }
{
    (1..=131072).contains(&words)
}

// Numbers 1, 3 and 5 on a lent memory and record, lowest first.
#[tactic(auto, unfolding(crate::specs::Record::host_verdict))]
pub fn host_verdict(m: &[u64], c: Central) -> Result<(), Refusal>
    ensures { result ≡ host_verdict m.now c }
{
    if !length_fits(m.len()) {
        return Err(Refusal::CentralLength);
    }
    if !words_fit(m) {
        return Err(Refusal::CentralWord);
    }
    if !record_fits(c, m.len() as u64) {
        return Err(Refusal::RecordValue);
    }
    Ok(())
}
