// Which job is at fault by its package, and which two jobs: numbers 9 to 12. A job is the address of its package.
ghost use Rattle.std.specs.Prelude.{true, false, ◌≡◌, ◌<◌, length};
ghost use Rattle.exchange_jump.specs.Jump.{package_inside, package_clean, field_inside};
ghost use Rattle.shared_schedule.specs.Refusals.{every_job, all_apart};
ghost use Rattle.shared_verdict.specs.Owners.{Inside};
ghost use Rattle.shared_fault.specs.Fault.{first_job, first_not_apart, first_met, pair_fault, overlap_fault};

use super::fault::Fault;
use base_lists::overlap::shares_word;
use exchange_jump::jump::{field_inside, package_is_inside};
use exchange_package::package::{has_stray, load};
use shared_verdict::owners::Packages;

// Number 9. An address is any number, and nothing is read at it before this test.
pub(crate) fn first_past_end(m: &[u64], jobs: &[u64]) -> usize
    ensures { result ≡ first_job jobs.now (package_inside m.now) }
{
    jobs.iter()
        .position(|job| !package_is_inside(m.len() as u64, *job))
        .unwrap_or(jobs.len())
}

// Number 10.
pub(crate) fn first_stray(m: &[u64], jobs: &[u64]) -> usize
    requires { every_job jobs.now (package_inside m.now) ≡ true }
    ensures { result ≡ first_job jobs.now (package_clean m.now) }
{
    jobs.iter()
        .position(|job| has_stray(m, *job as usize))
        .unwrap_or(jobs.len())
}

// Number 11.
pub(crate) fn first_field_past_end(m: &[u64], jobs: &[u64]) -> usize
    requires { every_job jobs.now (package_inside m.now) ≡ true }
    ensures { result ≡ first_job jobs.now (field_inside m.now) }
{
    jobs.iter()
        .position(|job| !field_inside(m, *job as usize))
        .unwrap_or(jobs.len())
}

// The first job that is not apart from every job.
fn first_not_apart(p: &Packages<'_>) -> usize
    ensures { result ≡ first_not_apart p.now.memory.now p.now.jobs.now }
{
    (0..p.jobs.len())
        .find(|i| !p.apart_from_all(*i))
        .unwrap_or(p.jobs.len())
}

// The first job that job i is not apart from.
fn first_met(p: &Packages<'_>, i: usize) -> usize
    requires { i < length p.now.jobs.now }
    ensures { result ≡ first_met p.now.memory.now p.now.jobs.now i }
{
    (0..p.jobs.len())
        .find(|j| !p.jobs_apart(i, *j))
        .unwrap_or(p.jobs.len())
}

// What jobs i and j have a word of in common.
fn pair_fault(p: &Packages<'_>, i: usize, j: usize) -> Fault
    requires { (i < length p.now.jobs.now) × (j < length p.now.jobs.now) }
    ensures { result ≡ pair_fault p.now.memory.now p.now.jobs.now i j }
{
    let a = p.jobs[i];
    let b = p.jobs[j];
    let second = load(p.memory, b as usize);
    if shares_word(a, 16, second.ra, second.fl) {
        return Fault::PackageField(i as u64, j as u64);
    }
    if shares_word(a, 16, b, 16) {
        return Fault::Packages(i as u64, j as u64);
    }
    Fault::Fields(i as u64, j as u64)
}

// Number 12.
pub(crate) fn overlap_fault(p: &Packages<'_>) -> Fault
    requires { all_apart p.now.memory.now p.now.jobs.now ≡ false }
    ensures { result ≡ overlap_fault p.now.memory.now p.now.jobs.now }
{
    let i = first_not_apart(p);
    let j = first_met(p, i);
    pair_fault(p, i, j)
}
