//! Whether an object collides with a later one at a point, by their maximal contacts.

ghost use Rattle.std.specs.Prelude.{◌≡◌, ◌≢◌, ℕ, ◌+◌, ◌<◌, ◌⊎◌, List, length, slice_index_or, MatchOption, Some};
ghost use Rattle.node_looks.specs.Candidates.{IsHit, IsNearest};
ghost use Rattle.node_looks.specs.Sites.{Hits, IsSite};
ghost use Rattle.pair_constraints.specs.Keeping.{IsKept};
ghost use Rattle.pair_constraints.specs.Maximal.{IsOf, IsPair};
ghost use Rattle.pair_constraints.specs.declared.kept.Kept.{Kept};

use crate::advice::live_sides;
use crate::site::Site;
use pair_constraints::Kept;

/// A contact that collides, and how many of its sides can still be kept beyond.
#[derive(Clone, Copy, Debug)]
pub(crate) struct Hit<'a> {
    pub kept: &'a Kept,
    pub sides: u64,
}

// The cheaper of the two, the first where they are alike.
fn cheaper<'a>(best: Option<Hit<'a>>, hit: Hit<'a>) -> Hit<'a>
    ensures { (result ≡ hit.entry) ⊎ (Some result ≡ best.entry) }
{
    match best {
        Some(first) => {
            if first.sides <= hit.sides {
                return first;
            }
            hit
        }
        None => hit,
    }
}

// The best so far, and one contact more.
fn with_contact<'a>(best: Option<Hit<'a>>, site: &Site<'a>, kept: &'a Kept) -> Option<Hit<'a>>
    requires site { IsSite site.now }
    requires kept { IsKept site.now.job.now kept.now }
    ensures { (i j k : ℕ) (pair : List Kept) → k < length pair → slice_index_or pair k kept.now ≡ kept.now
        → IsOf site.now.job.now i j kept.now.contact → IsNearest site.now i j k pair best.entry
        → IsNearest site.now i j (k + 1) pair result }
{
    if !kept.collides_at(site.job, &site.at) {
        return best;
    }
    let hit = Hit {
        kept,
        sides: live_sides(site.room, kept),
    };
    Some(cheaper(best, hit))
}

// Of the contacts that collide at the point the one with the fewest live sides.
fn cheapest_hit<'a>(site: &Site<'a>, pair: &'a [Kept], i: u32, j: u32) -> Option<Hit<'a>>
    requires site { IsSite site.now }
    requires pair { IsPair site.now.job.now i j pair.now }
    ensures { IsNearest site.now i j (length pair.now) pair.now result }
{
    let mut best: Option<Hit<'a>> = None;
    for k in 0..pair.len() {
        best = with_contact(best, site, &pair[k]);
    }
    best
}

/// A contact of two objects in this order that collides at the point, if they collide.
pub(crate) fn hit_of<'a>(site: &Site<'a>, i: u32, j: u32) -> Option<Hit<'a>>
    requires site { IsSite site.now }
    requires i { i < length site.now.job.now.objects }
    requires j { j < length site.now.job.now.objects }
    requires apart { i ≢ j }
    ensures { MatchOption result (Hits site.now i j → ⊥) (λ hit. IsHit site.now i j hit.kept.now) }
{
    let contacts = site.contacts;
    cheapest_hit(site, contacts.of_pair(i, j), i, j)
}
