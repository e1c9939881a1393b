// The exchange package: sixteen words that hold a central record.
// Kept: the words are a slice with `length ≡ 16` in the contracts, since they are a part of lent memory: an array of it comes from std by a
// test that can fail, which no package does.
ghost use Rattle.std.specs.Prelude.{◌≡◌, ◌+◌, ◌^◌, ◌≤◌, ◌<◌, length, get_or};
ghost use Rattle.word_arithmetic.specs.Bits.{bits};
ghost use Rattle.base_lists.specs.Indexed.{all_below, tabulate};
ghost use Rattle.central_record.specs.Record.{FitsPackage};
ghost use Rattle.base_lists.specs.Parts.{part};
ghost use Rattle.exchange_package.specs.Package.{controls, package_word, coded, register_in, package_record, bits_in_use, word_has_no_stray, has_stray};

use central_record::record::{Central, em_fits};
use std::array;

// The 18 bits of a word from this bit up.
fn bits18(w: u64, first: u64) -> u64
    requires { first < 64 }
    ensures { result ≡ bits w first 18 }
{
    (w >> first) & 0o777777
}

// Register i of a package: An and Bn share a word, Xn has a word of its own.
#[tactic(auto, unfolding(crate::specs::Package::register_in))]
fn register_in(w: &[u64], i: usize) -> u64
    requires { (length w.now ≡ 16) × (i < 24) }
    ensures { result ≡ register_in w.now i }
{
    match i {
        0..=7 => bits18(w[i], 18),
        8..=15 => bits18(w[i - 8], 0),
        _ => w[i - 8],
    }
}

// All 24 registers of a package.
fn registers_in(w: &[u64]) -> [u64; 24]
    requires { length w.now ≡ 16 }
    ensures { result ≡ tabulate 24 (register_in w.now) }
{
    array::from_fn(|i| register_in(w, i))
}

// The record in a package's sixteen words.
#[tactic(auto, unfolding(crate::specs::Package::package_record))]
fn decode(w: &[u64]) -> Central
    requires { length w.now ≡ 16 }
    ensures { result ≡ package_record w.now }
{
    Central {
        p: bits18(w[0], 36),
        ra: bits18(w[1], 36),
        fl: bits18(w[2], 36),
        em: bits18(w[3], 36),
        registers: registers_in(w),
        stop: 0,
    }
}

// The record in the package at this address.
pub fn load(m: &[u64], at: usize) -> Central
    requires { at + 16 ≤ length m.now }
    ensures { result ≡ package_record (part m.now at 16) }
{
    decode(&m[at..at + 16])
}

// P, RA, FL and EM, which words 0 to 3 hold above A and B.
fn control(c: Central, n: usize) -> u64
    ensures { result ≡ get_or (controls c) n 0 }
{
    match n {
        0 => c.p,
        1 => c.ra,
        2 => c.fl,
        3 => c.em,
        _ => 0,
    }
}

// Word n of the package that holds the record.
#[tactic(auto, unfolding(crate::specs::Package::package_word))]
fn package_word(c: Central, n: usize) -> u64
    requires { (n < 16) × FitsPackage c }
    ensures { result ≡ package_word c n }
{
    if n < 8 {
        (control(c, n) << 36) | (c.registers[n] << 18) | c.registers[8 + n]
    } else {
        c.registers[8 + n]
    }
}

// Makes the words a package that holds the record.
pub fn store(w: &mut [u64], c: Central)
    requires { (length w.old ≡ 16) × FitsPackage c }
    ensures { w.new ≡ coded c }
{
    let words: [u64; 16] = array::from_fn(|n| package_word(c, n));
    w.copy_from_slice(&words);
}

// The first number with a bit above those in use in word n of a package, for 0 to 7.
fn word_limit(n: usize) -> u64
    ensures { result ≡ 2 ^ bits_in_use n }
{
    if n < 4 {
        0o1000000000000000000
    } else {
        0o1000000000000
    }
}

// No bit is set above P, RA, FL and EM in words 0 to 3, and none above A in words 4 to 7.
fn words_have_no_stray(w: &[u64]) -> bool
    requires { length w.now ≡ 16 }
    ensures { result ≡ all_below 8 (word_has_no_stray w.now) }
{
    (0..8).all(|n: usize| w[n] < word_limit(n))
}

// A stray bit is set in a package's sixteen words.
#[tactic(auto, unfolding(crate::specs::Package::has_stray))]
fn package_has_stray(w: &[u64]) -> bool
    requires { length w.now ≡ 16 }
    ensures { result ≡ has_stray w.now }
{
    let fits = words_have_no_stray(w) && bits18(w[0], 0) == 0 && em_fits(bits18(w[3], 36));
    !fits
}

// A stray bit is set in the package at this address.
pub fn has_stray(m: &[u64], at: usize) -> bool
    requires { at + 16 ≤ length m.now }
    ensures { result ≡ has_stray (part m.now at 16) }
{
    package_has_stray(&m[at..at + 16])
}
