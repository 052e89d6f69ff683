// How often each node is a child, counted up to two in one array.
ghost use Rattle.std.specs.Prelude.{◌≡◌, ◌≤◌, ◌<◌, length, get_or, eqb};
ghost use Rattle.basis.specs.Tests.{all};
ghost use Rattle.nodes.specs.Inside.Counting.{counted};

/// Counts node w once more.
#[tactic(auto, unfolding(crate::specs::Inside::Counting::counted))]
pub fn count_use(used: &mut [u8], w: usize)
    requires { w < length used.old }
    ensures { used.new ≡ counted w used.old }
{
    used[w] = if used[w] == 0 { 1 } else { 2 };
}

/// Whether the first n counts are all 1. It goes over all of them, so that many are compared at a time.
pub fn all_once(used: &[u8], n: usize) -> bool
    requires { n ≤ length used.now }
    ensures { result ≡ all n (λ c. eqb (get_or used.now c 0) 1) }
{
    let mut once = true;
    for uses in &used[..n] {
        once &= *uses == 1;
    }
    once
}
