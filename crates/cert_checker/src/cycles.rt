// Whether objects run in a circle along orders of the path.
ghost use Rattle.std.specs.Prelude.{◌≡◌, ◌≤◌, ◌<◌, ◌+◌, length, true, false};
ghost use Rattle.seq_model.specs.Trees.{IsCycle};
ghost use Rattle.cert_checker.specs.Circles.{IsOnTrail, RunsOn};
ghost use Rattle.cert_checker.specs.Trails.{IsFit};

use crate::trail::Trail;

fn runs_on(trail: &Trail, first: u32, rest: &[u32]) -> bool
    requires { IsFit trail.now }
    ensures yes { result ≡ true → RunsOn (IsOnTrail trail.now) first rest.now first }
    ensures no { result ≡ false → RunsOn (IsOnTrail trail.now) first rest.now first → ⊥ }
{
    let mut from = first;
    for to in rest {
        if !trail.is_before(from, *to) {
            return false;
        }
        from = *to;
    }
    trail.is_before(from, first)
}

/// Whether the objects run in a circle along orders of the path.
pub fn runs_in_circle(trail: &Trail, objects: &[u32]) -> bool
    requires { IsFit trail.now }
    ensures yes { result ≡ true → IsCycle (IsOnTrail trail.now) objects.now }
    ensures no { result ≡ false → IsCycle (IsOnTrail trail.now) objects.now → ⊥ }
{
    if objects.len() < 2 {
        return false;
    }
    match objects.split_first() {
        None => false,
        Some((first, rest)) => runs_on(trail, *first, rest),
    }
}
