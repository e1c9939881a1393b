// Parts of memory with a word in common.
ghost use Rattle.std.specs.Prelude.{◌≡◌, ◌+◌, ◌≤◌};
ghost use Rattle.base_lists.specs.Overlap.{shares_word};

// The n words from a up and the k words from b up have one in common.
#[tactic(auto, unfolding(crate::specs::Overlap::shares_word))]
pub fn shares_word(a: u64, n: u64, b: u64, k: u64) -> bool
    requires { (a + n ≤ 131072) × (b + k ≤ 131072) }
    ensures { result ≡ shares_word a n b k }
{
    n != 0 && k != 0 && a < b + k && b < a + n
}
