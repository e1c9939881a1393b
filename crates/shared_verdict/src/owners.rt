// The tests of the jobs' packages: numbers 9 to 12, each over all jobs before the next. A job is the address of its package.
ghost use Rattle.std.specs.Prelude.{true, ◌≡◌, ◌+◌, ◌≤◌, ◌<◌, length};
ghost use Rattle.base_lists.specs.Indexed.{all_below};
ghost use Rattle.exchange_jump.specs.Jump.{package_inside, package_clean, field_inside};
ghost use Rattle.shared_schedule.specs.Refusals.{every_job, jobs_apart, all_apart, owners_verdict};
ghost use Rattle.shared_verdict.specs.Owners.{Inside};

use base_lists::overlap::shares_word;
use base_outcome::refusal::Refusal;
use exchange_jump::jump::{field_inside, package_is_inside};
use exchange_package::package::{has_stray, load};

// Number 9 refuses no job. An address is any number, and nothing is read at it before this test.
fn packages_inside(m: &[u64], jobs: &[u64]) -> bool
    ensures { result ≡ every_job jobs.now (package_inside m.now) }
{
    jobs.iter().all(|at| package_is_inside(m.len() as u64, *at))
}

// Number 10 refuses no job.
fn packages_clean(m: &[u64], jobs: &[u64]) -> bool
    requires { every_job jobs.now (package_inside m.now) ≡ true }
    ensures { result ≡ every_job jobs.now (package_clean m.now) }
{
    jobs.iter().all(|at| !has_stray(m, *at as usize))
}

// Number 11 refuses no job.
fn fields_inside(m: &[u64], jobs: &[u64]) -> bool
    requires { every_job jobs.now (package_inside m.now) ≡ true }
    ensures { result ≡ every_job jobs.now (field_inside m.now) }
{
    jobs.iter().all(|at| field_inside(m, *at as usize))
}

// The memory and the addresses of all jobs' packages, where every package and every field is inside the memory.
#[derive(Clone, Copy)]
pub struct Packages<'a> {
    pub memory: &'a [u64],
    pub jobs: &'a [u64],
    ghost inside: { Inside memory.now jobs.now },
}

impl<'a> Packages<'a> {
    // The package of job i and the field of job j share no word; of two different jobs the packages share none either, nor the fields.
    #[tactic(auto, unfolding(shared_schedule::specs::Refusals::jobs_apart))]
    pub fn jobs_apart(&self, i: usize, j: usize) -> bool
        requires { (i < length self.now.jobs.now) × (j < length self.now.jobs.now) }
        ensures { result ≡ jobs_apart self.now.memory.now self.now.jobs.now i j }
    {
        let a = self.jobs[i];
        let b = self.jobs[j];
        let first = load(self.memory, a as usize);
        let second = load(self.memory, b as usize);
        !shares_word(a, 16, second.ra, second.fl)
            && (i == j
                || !shares_word(a, 16, b, 16)
                    && !shares_word(first.ra, first.fl, second.ra, second.fl))
    }

    // Job i against every job, itself included.
    pub fn apart_from_all(&self, i: usize) -> bool
        requires { i < length self.now.jobs.now }
        ensures { result ≡ all_below (length self.now.jobs.now) (jobs_apart self.now.memory.now self.now.jobs.now i) }
    {
        (0..self.jobs.len()).all(|j| self.jobs_apart(i, j))
    }

    // Number 12 does not refuse the jobs.
    fn all_apart(&self) -> bool
        ensures { result ≡ all_apart self.now.memory.now self.now.jobs.now }
    {
        (0..self.jobs.len()).all(|i| self.apart_from_all(i))
    }
}

// Numbers 9 to 12, lowest first.
#[tactic(auto, unfolding(shared_schedule::specs::Refusals::owners_verdict))]
pub(crate) fn owners_verdict(m: &[u64], jobs: &[u64]) -> Result<(), Refusal>
    requires { length m.now ≤ 131072 }
    ensures { result ≡ owners_verdict m.now jobs.now }
{
    if !packages_inside(m, jobs) {
        return Err(Refusal::PackagePastEnd);
    }
    if !packages_clean(m, jobs) {
        return Err(Refusal::StrayBits);
    }
    if !fields_inside(m, jobs) {
        return Err(Refusal::FieldPastEnd);
    }
    if !(Packages { memory: m, jobs }).all_apart() {
        return Err(Refusal::SharedWord);
    }
    Ok(())
}
