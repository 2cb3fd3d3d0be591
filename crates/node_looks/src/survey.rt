//! What stands against an order of all objects at a point: a candidate for a split, or the orders that are forced there.

ghost use Rattle.std.specs.Prelude.{◌≡◌, ◌≢◌, ℕ, ◌+◌, ◌<◌, ◌⊎◌, ◌∷◌, ◌++◌, [], length, IfOk, OnOk, Some, IsSome, MatchOption};
ghost use Rattle.node_looks.specs.Candidates.{IsCandidate, IsOpenable, IsPairLook, IsSurveyed};
ghost use Rattle.node_looks.specs.Sites.{Hits, IsSite};
ghost use Rattle.node_looks.specs.declared.survey.Candidate.TheVariants as Candidates;
ghost use Rattle.node_looks.specs.declared.survey.PairLook.TheVariants as PairLooks;
ghost use Rattle.plan_laws.specs.Looking.{OnPath};
ghost use Rattle.seq_model.specs.Splits.{IsUnordered};

use crate::hits::{Hit, hit_of};
use crate::site::Site;
use pair_constraints::Kept;
use std::alloc::{AllocError, Global};

/// A split that could be made.
#[derive(Clone, Copy, Debug)]
pub(crate) enum Candidate<'a> {
    /// This contact is opened.
    Side(&'a Kept),
    /// These two are ordered.
    Order { i: u32, j: u32 },
}

/// What the contacts of two objects show at a point.
#[derive(Clone, Copy, Debug)]
pub(crate) enum PairLook<'a> {
    Settled,
    Forced {
        first: u32,
        second: u32,
    },
    Split {
        candidate: Candidate<'a>,
        price: u64,
    },
}

/// What all of them show.
#[derive(Debug, Drop)]
pub(crate) struct Survey<'a> {
    pub best: Option<Candidate<'a>>,
    pub price: u64,
    pub forced: Vec<(u32, u32)>,
}

// What it costs to open a contact: one with at most one live side comes before all others.
fn side_of<'a>(hit: &Hit<'a>) -> PairLook<'a>
    ensures { (price : ℕ) × (result ≡ PairLooks.Split (Candidates.Side hit.now.kept) price) }
{
    let price = if hit.sides <= 1 {
        hit.sides.saturating_mul(10)
    } else {
        hit.sides.saturating_mul(10).saturating_add(10)
    };
    PairLook::Split {
        candidate: Candidate::Side(hit.kept),
        price,
    }
}

// What it costs to order a pair: the sum of what both orders cost, right behind where that is at most 1.
fn order_of<'a>(i: u32, j: u32, there: &Hit<'a>, back: &Hit<'a>) -> PairLook<'a>
    ensures { (price : ℕ) × (result ≡ PairLooks.Split (Candidates.Order i j) price) }
{
    let sides = there.sides.saturating_add(back.sides);
    let price = if sides <= 1 {
        sides.saturating_mul(10).saturating_add(1)
    } else {
        sides.saturating_mul(10).saturating_add(10)
    };
    PairLook::Split {
        candidate: Candidate::Order { i, j },
        price,
    }
}

// A contact of an order of the path that collides.
fn hit_on_path<'a>(site: &Site<'a>, i: u32, j: u32) -> Option<Hit<'a>>
    requires site { IsSite site.now }
    requires i { i < length site.now.job.now.objects }
    requires j { j < length site.now.job.now.objects }
    requires apart { i ≢ j }
    ensures { MatchOption result (OnPath site.now.path.now i j → Hits site.now i j → ⊥)
        (λ hit. IsOpenable site.now hit.kept.now) }
{
    if !site.is_before(i, j) {
        return None;
    }
    hit_of(site, i, j)
}

// Two objects of which one is before the other on the path.
fn ordered_pair<'a>(site: &Site<'a>, i: u32, j: u32) -> PairLook<'a>
    requires site { IsSite site.now }
    requires i { i < length site.now.job.now.objects }
    requires j { j < length site.now.job.now.objects }
    requires apart { i ≢ j }
    requires ordered { OnPath site.now.path.now i j ⊎ OnPath site.now.path.now j i }
    ensures { IsPairLook site.now i j result }
{
    match hit_on_path(site, i, j) {
        Some(hit) => side_of(&hit),
        None => match hit_on_path(site, j, i) {
            Some(hit) => side_of(&hit),
            None => PairLook::Settled,
        },
    }
}

// Two objects that are unordered on the path.
fn unordered_pair<'a>(site: &Site<'a>, i: u32, j: u32) -> PairLook<'a>
    requires site { IsSite site.now }
    requires low { i < j }
    requires high { j < length site.now.job.now.objects }
    requires unordered { IsUnordered site.now.path.now i j }
    ensures { IsPairLook site.now i j result }
{
    let there = hit_of(site, i, j);
    let back = hit_of(site, j, i);
    match (there, back) {
        (None, None) => PairLook::Settled,
        (Some(_), None) => PairLook::Forced {
            first: j,
            second: i,
        },
        (None, Some(_)) => PairLook::Forced {
            first: i,
            second: j,
        },
        (Some(there), Some(back)) => order_of(i, j, &there, &back),
    }
}

fn pair_look<'a>(site: &Site<'a>, i: u32, j: u32) -> PairLook<'a>
    requires site { IsSite site.now }
    requires low { i < j }
    requires high { j < length site.now.job.now.objects }
    ensures { IsPairLook site.now i j result }
{
    if site.is_before(i, j) {
        return ordered_pair(site, i, j);
    }
    if site.is_before(j, i) {
        return ordered_pair(site, i, j);
    }
    unordered_pair(site, i, j)
}

impl<'a> Survey<'a> {
    // The cheapest one is the best, the first of those that are alike.
    fn keep(&mut self, candidate: Candidate<'a>, price: u64)
        ensures best { (self.new.best ≡ Some candidate.entry)
            ⊎ (IsSome self.old.best × (self.new.best ≡ self.old.best)) }
        ensures forced { self.new.forced.items ≡ self.old.forced.items }
    {
        if self.best.is_none() || price < self.price {
            self.best = Some(candidate);
            self.price = price;
        }
    }

    fn force(&mut self, first: u32, second: u32) -> Result<(), AllocError>
        ensures { OnOk result ((self.new.best ≡ self.old.best)
            × (self.new.forced.items ≡ self.old.forced.items ++ (first, second) ∷ [])) }
    {
        self.forced.push((first, second))?;
        Ok(())
    }

    fn look_at_pair(&mut self, site: &Site<'a>, i: u32, j: u32) -> Result<(), AllocError>
        requires site { IsSite site.now }
        requires low { i < j }
        requires high { j < length site.now.job.now.objects }
        requires before { IsSurveyed site.now i j self.old.best self.old.forced.items }
        ensures { OnOk result (IsSurveyed site.now i (j + 1) self.new.best self.new.forced.items) }
    {
        match pair_look(site, i, j) {
            PairLook::Settled => Ok(()),
            PairLook::Forced { first, second } => self.force(first, second),
            PairLook::Split { candidate, price } => {
                self.keep(candidate, price);
                Ok(())
            }
        }
    }

    // Looks at an object with each later one.
    fn look_at_object(&mut self, site: &Site<'a>, i: u32) -> Result<(), AllocError>
        requires site { IsSite site.now }
        requires i { i < length site.now.job.now.objects }
        requires before { IsSurveyed site.now i 0 self.old.best self.old.forced.items }
        ensures { OnOk result (IsSurveyed site.now (i + 1) 0 self.new.best self.new.forced.items) }
    {
        for j in i + 1..site.object_count() {
            self.look_at_pair(site, i, j)?;
        }
        Ok(())
    }
}

/// Looks at all pairs of objects at the point.
pub(crate) fn look_at_pairs<'a>(alloc: Global, site: &Site<'a>) -> Result<Survey<'a>, AllocError>
    requires { IsSite site.now }
    ensures { IfOk result (λ s.
        IsSurveyed site.now (length site.now.job.now.objects) 0 s.best s.forced.items) }
{
    let mut survey = Survey {
        best: None,
        price: 0,
        forced: Vec::new(alloc),
    };
    for i in 0..site.object_count() {
        survey.look_at_object(site, i)?;
    }
    Ok(survey)
}
