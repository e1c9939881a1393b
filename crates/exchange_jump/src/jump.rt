// The exchange jump, and the tests of its package: numbers 9, 10 and 11.
ghost use Rattle.std.specs.Prelude.{◌≡◌, ◌+◌, ◌≤◌, leb, length};
ghost use Rattle.central_record.specs.Record.{FitsPackage};
ghost use Rattle.exchange_jump.specs.Jump.{field_inside, package_verdict, exchanged_to, exchanged};

use base_outcome::refusal::Refusal;
use central_record::record::Central;
use exchange_package::package::{has_stray, load, store};

// The sixteen words from this address up are in a memory of so many words. The address is any number, so 16 is not added to it.
pub fn package_is_inside(words: u64, at: u64) -> bool
    ensures { result ≡ leb (at + 16) words }
{
    words >= 16 && at <= words - 16
}

// Number 11 does not refuse the package at this address.
#[tactic(auto, unfolding(crate::specs::Jump::field_inside))]
pub fn field_inside(m: &[u64], at: usize) -> bool
    requires { at + 16 ≤ length m.now }
    ensures { result ≡ field_inside m.now at }
{
    let c = load(m, at);
    c.ra + c.fl <= m.len() as u64
}

// Numbers 9, 10 and 11 on the package at this address, lowest first.
#[tactic(auto, unfolding(crate::specs::Jump::package_verdict, crate::specs::Jump::package_inside, crate::specs::Jump::package_clean))]
pub fn package_verdict(m: &[u64], at: u64) -> Result<(), Refusal>
    ensures { result ≡ package_verdict m.now at }
{
    if !package_is_inside(m.len() as u64, at) {
        return Err(Refusal::PackagePastEnd);
    }
    let at = at as usize;
    if has_stray(m, at) {
        return Err(Refusal::StrayBits);
    }
    if !field_inside(m, at) {
        return Err(Refusal::FieldPastEnd);
    }
    Ok(())
}

// Swaps the record and the package at this address, and hands back the record that the package held.
pub fn exchange_jump(m: &mut [u64], c: Central, at: usize) -> Central
    requires { (at + 16 ≤ length m.old) × FitsPackage c }
    ensures { exchanged_to m.new result ≡ exchanged m.old c at }
{
    let next = load(m, at);
    store(&mut m[at..at + 16], c);
    next
}
