// How long the lists of a schedule may be. Every other limit and all room for jobs or stints follows from these two.
ghost use Rattle.std.specs.Prelude.{◌≡◌};
ghost use Rattle.shared_limits.specs.Limits.{jobs_fit};

pub const MOST_JOBS: usize = 11;

pub const MOST_STINTS: usize = 256;

// Whether a list may have so many jobs: at least one, and no more than the limit.
#[tactic(auto, unfolding(crate::specs::Limits::jobs_fit))]
pub fn jobs_fit(n: usize) -> bool
    ensures { result ≡ jobs_fit n }
{
    (1..=MOST_JOBS).contains(&n)
}
