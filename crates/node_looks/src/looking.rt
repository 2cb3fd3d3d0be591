//! A look that keeps the rows and the orders of the path that it looked at last, and solves the system of a node anew where they are cold.

ghost use Rattle.std.specs.Prelude.{◌≡◌, ◌*◌, ◌≤◌, ◌^◌, ◌<ℤ◌, [], All, length, pos, IfOk, IfSome, OnOk};
ghost use Rattle.feasible_point.specs.Answering.{HasSmallDen, Solves, IsZeroPoint};
ghost use Rattle.feasible_point.specs.Shortening.{IsShortest};
ghost use Rattle.integer_laws.specs.Vectors.{zeros};
ghost use Rattle.node_looks.specs.Candidates.{IsCandidate};
ghost use Rattle.node_looks.specs.Questions.{IsAnswer, IsQuestion, IsZeroAnswer, IsZeroQuestion, system_of};
ghost use Rattle.node_looks.specs.Sites.{HoldsAll, IsLookAt, IsSite, IsZeroLookAt, IsZeroSite};
ghost use Rattle.node_looks.specs.Kept.{KeepsTrail};
ghost use Rattle.node_looks.specs.Trails.{IsTrail, IsTrailOf};
ghost use Rattle.seq_model.specs.Systems.{MeetsRows};
ghost use Rattle.warm_rows.specs.Warming.{IsRowStep};

use crate::advice::room_of;
use crate::completing::complete;
use crate::orders::{graph_of, table_of};
use crate::site::Site;
use crate::splits::{close_cycle, open_contact, order_split};
use crate::survey::{Candidate, look_at_pairs};
use crate::system::system_rows;
use crate::trail::{Entered, Trail};
use crate::{Look, Looks};
use feasible_point::{Solved, solve};
use order_graph::OrderGraph;
use owned_lists::Items;
use pair_constraints::{Contacts, SolvedPoint};
use seq_model::{Choice, Job, Node, Row};
use seq_num::NoMemory;
use std::alloc::{AllocError, Global};
use warm_rows::Warmed;

// The split of a candidate.
fn split(alloc: Global, site: &Site, candidate: &Candidate) -> Result<Look, AllocError>
    requires site { IsSite site.now }
    requires candidate { IsCandidate site.now candidate.now }
    ensures { IfOk result (IsLookAt site.now) }
{
    match candidate {
        Candidate::Side(kept) => open_contact(alloc, site, kept),
        Candidate::Order { i, j } => order_split(alloc, site, *i, *j),
    }
}

// The look at a site whose path has no cycle of orders.
fn look_in_order(alloc: Global, site: &Site, graph: &OrderGraph) -> Result<Look, AllocError>
    requires site { IsSite site.now }
    requires held { HoldsAll site.now graph.now }
    ensures look { IfOk result (IsLookAt site.now) }
    ensures zero { IsZeroSite site.now → IfOk result (IsZeroLookAt site.now) }
{
    let survey = look_at_pairs(alloc, site)?;
    match &survey.best {
        Some(candidate) => split(alloc, site, candidate),
        None => complete(alloc, site, graph, &survey.forced),
    }
}

// The look at a site whose orders aren't held yet.
fn look_at_site(alloc: Global, site: &Site) -> Result<Look, AllocError>
    requires { IsSite site.now }
    ensures look { IfOk result (IsLookAt site.now) }
    ensures zero { IsZeroSite site.now → IfOk result (IsZeroLookAt site.now) }
{
    match graph_of(site) {
        Ok(graph) => look_in_order(alloc, site, &graph),
        Err(cycle) => close_cycle(
            alloc,
            site.job,
            site.extent,
            site.path,
            &cycle.objects[..cycle.len as usize],
        ),
    }
}

/// What a look is asked.
#[derive(Clone, Copy, Debug)]
pub(crate) struct Question<'a> {
    pub job: &'a Job,
    pub extent: u32,
    pub path: &'a [Choice],
    /// The maximal contacts of the job.
    pub contacts: &'a Contacts,
}

/// How often a look asked for what a system has.
#[derive(Clone, Copy, Debug, PartialEq, Eq)]
pub struct Counts {
    /// From the basis that was kept.
    pub repairs: u64,
    /// From all slacks.
    pub solves: u64,
}

// What the system of the path has, from all slacks.
fn solve_path(alloc: Global, asked: &Question, rows: &[Row]) -> Result<Solved, NoMemory>
    requires asked { IsQuestion asked.now }
    requires rows { rows.now ≡ system_of asked.now }
    ensures is { IfOk result (Solves (2 * length asked.now.job.now.objects) (system_of asked.now)) }
    ensures shortest { IfOk result IsShortest }
    ensures den { IfOk result HasSmallDen }
    ensures zero { IsZeroQuestion asked.now
        → IfOk result (IsZeroPoint (2 * length asked.now.job.now.objects)) }
{
    solve(alloc, 2 * asked.job.objects.len() as u32, rows)
}

// The look at the path, from all slacks and without the orders that are held.
fn look_anew<'a>(alloc: Global, asked: &Question<'a>, counts: &mut Counts) -> Result<Look, NoMemory>
    requires { IsQuestion asked.now }
    ensures look { IfOk result (IsAnswer asked.now) }
    ensures zero { IsZeroQuestion asked.now → IfOk result (IsZeroAnswer asked.now) }
{
    counts.solves = counts.solves.saturating_add(1);
    let rows = system_rows(alloc, asked.job, asked.extent, asked.path)?;
    match solve_path(alloc, asked, &rows)? {
        Solved::Point { den, nums } => {
            let table = table_of(asked.path);
            let room = room_of(asked.job, asked.path, &rows);
            let at = SolvedPoint::new(den, &nums);
            let site = Site {
                job: asked.job,
                extent: asked.extent,
                path: asked.path,
                table: &table,
                contacts: asked.contacts,
                room: &room,
                at,
            };
            Ok(look_at_site(alloc, &site)?)
        }
        Solved::Contradiction(mults) => Ok(Look::Close(Node::Bound {
            mults: Items::from_vec(mults),
        })),
        Solved::Wide { basis, row } => Ok(Look::Wide {
            basis: Items::from_vec(basis),
            row,
        }),
    }
}

// The look at a point of the path that the trail stands at.
fn look_at_point(
    alloc: Global,
    asked: &Question,
    trail: &Trail,
    den: &i64,
    nums: &[i64],
) -> Result<Look, AllocError>
    requires asked { IsQuestion asked.now }
    requires at { IsTrailOf asked.now.job.now asked.now.extent asked.now.path.now trail.now }
    requires meets { MeetsRows (system_of asked.now) den.now nums.now }
    requires many { length nums.now ≡ 2 * length asked.now.job.now.objects }
    requires small { den.now <ℤ pos (2 ^ 62) }
    ensures look { IfOk result (IsAnswer asked.now) }
    ensures zero { IsZeroQuestion asked.now → den.now ≡ pos 1
        → nums.now ≡ zeros (2 * length asked.now.job.now.objects) → IfOk result (IsZeroAnswer asked.now) }
{
    let table = table_of(asked.path);
    let at = SolvedPoint::new(*den, nums);
    let site = Site {
        job: asked.job,
        extent: asked.extent,
        path: asked.path,
        table: &table,
        contacts: asked.contacts,
        room: &trail.room,
        at,
    };
    look_in_order(alloc, &site, &trail.graph)
}

// The look at the path that the trail stands at.
fn look_warm(
    alloc: Global,
    asked: &Question,
    trail: &mut Trail,
    counts: &mut Counts,
) -> Result<Look, NoMemory>
    requires asked { IsQuestion asked.now }
    requires at { IsTrailOf asked.now.job.now asked.now.extent asked.now.path.now trail.old }
    ensures stays { IsTrail asked.now.job.now trail.new }
    ensures look { IfOk result (IsAnswer asked.now) }
    ensures zero { IsZeroQuestion asked.now → All IsRowStep trail.old.warm.steps
        → IfOk result (IsZeroAnswer asked.now) }
{
    counts.repairs = counts.repairs.saturating_add(1);
    match trail.repair(alloc, asked.job, asked.extent, asked.path)? {
        Warmed::Point { den, nums } => Ok(look_at_point(alloc, asked, trail, &den, &nums)?),
        Warmed::Contradiction(mults) => Ok(Look::Close(Node::Bound {
            mults: Items::from_vec(mults),
        })),
        Warmed::Cold => look_anew(alloc, asked, counts),
    }
}

// The look at the path, to which the trail goes from wherever it is.
fn look_along(
    alloc: Global,
    asked: &Question,
    trail: &mut Trail,
    counts: &mut Counts,
) -> Result<Look, NoMemory>
    requires asked { IsQuestion asked.now }
    requires trail { IsTrail asked.now.job.now trail.old }
    requires extent { trail.old.extent ≡ asked.now.extent }
    ensures stays { OnOk result (IsTrail asked.now.job.now trail.new) }
    ensures look { IfOk result (IsAnswer asked.now) }
{
    match trail.follow(alloc, asked.job, asked.path)? {
        Entered::Held => look_warm(alloc, asked, trail, counts),
        Entered::Missed => look_anew(alloc, asked, counts),
        Entered::Cycle(cycle) => Ok(close_cycle(
            alloc,
            asked.job,
            asked.extent,
            asked.path,
            &cycle.objects[..cycle.len as usize],
        )?),
    }
}

fn boxed(alloc: Global, trail: Trail) -> Result<Box<Trail>, AllocError>
    ensures { IfOk result (λ kept. kept.value ≡ trail) }
{
    Ok(Box::new(alloc, trail)?)
}

// A trail at the empty path, if the bounds of the extent can be held.
fn begun(alloc: Global, job: &Job, extent: u32) -> Result<Option<Box<Trail>>, NoMemory>
    requires low { 1 ≤ extent }
    requires high { extent ≤ job.now.printer.grid }
    ensures at { IfOk result (λ made. IfSome made (λ kept. IsTrailOf job.now extent [] kept.value)) }
    ensures unmoved { IfOk result (λ made. IfSome made (λ kept. All IsRowStep kept.value.warm.steps)) }
{
    match Trail::new(alloc, job, extent)? {
        Some(trail) => Ok(Some(boxed(alloc, trail)?)),
        None => Ok(None),
    }
}

// The trail that is kept, if it is of this extent; else one that begins.
fn trail_for(
    alloc: Global,
    kept: Option<Box<Trail>>,
    job: &Job,
    extent: u32,
) -> Result<Option<Box<Trail>>, NoMemory>
    requires low { 1 ≤ extent }
    requires high { extent ≤ job.now.printer.grid }
    requires kept { KeepsTrail job.now kept }
    ensures { IfOk result (λ made. IfSome made (λ kept.
        IsTrail job.now kept.value × (kept.value.extent ≡ extent))) }
{
    if let Some(trail) = kept {
        if trail.extent == extent {
            return Ok(Some(trail));
        }
    }
    begun(alloc, job, extent)
}

// The look at the empty path, where a search of an extent begins.
fn look_at_root(
    alloc: Global,
    asked: &Question,
    kept: &mut Option<Box<Trail>>,
    counts: &mut Counts,
) -> Result<Look, NoMemory>
    requires asked { IsQuestion asked.now }
    requires root { asked.now.path.now ≡ [] }
    ensures stays { KeepsTrail asked.now.job.now kept.new }
    ensures look { IfOk result (IsAnswer asked.now) }
    ensures zero { IsZeroQuestion asked.now → IfOk result (IsZeroAnswer asked.now) }
{
    *kept = None;
    let Some(mut trail) = begun(alloc, asked.job, asked.extent)? else {
        return look_anew(alloc, asked, counts);
    };
    let look = look_warm(alloc, asked, &mut trail, counts)?;
    *kept = Some(trail);
    Ok(look)
}

// The look at any other path.
fn look_below(
    alloc: Global,
    asked: &Question,
    kept: &mut Option<Box<Trail>>,
    counts: &mut Counts,
) -> Result<Look, NoMemory>
    requires asked { IsQuestion asked.now }
    requires kept { KeepsTrail asked.now.job.now kept.old }
    ensures stays { KeepsTrail asked.now.job.now kept.new }
    ensures look { IfOk result (IsAnswer asked.now) }
{
    let Some(mut trail) = trail_for(alloc, kept.take(), asked.job, asked.extent)? else {
        return look_anew(alloc, asked, counts);
    };
    let look = look_along(alloc, asked, &mut trail, counts)?;
    *kept = Some(trail);
    Ok(look)
}

fn look_by(
    alloc: Global,
    asked: &Question,
    kept: &mut Option<Box<Trail>>,
    counts: &mut Counts,
) -> Result<Look, NoMemory>
    requires asked { IsQuestion asked.now }
    requires kept { KeepsTrail asked.now.job.now kept.old }
    ensures stays { KeepsTrail asked.now.job.now kept.new }
    ensures look { IfOk result (IsAnswer asked.now) }
    ensures zero { IsZeroQuestion asked.now → IfOk result (IsZeroAnswer asked.now) }
{
    if asked.path.is_empty() {
        return look_at_root(alloc, asked, kept, counts);
    }
    look_below(alloc, asked, kept, counts)
}

fn asking<'a>(job: &'a Job, extent: u32, path: &'a [Choice], contacts: &'a Contacts) -> Question<'a>
    ensures job { result.job.now ≡ job.now }
    ensures extent { result.extent ≡ extent }
    ensures path { result.path.now ≡ path.now }
    ensures contacts { result.contacts.now ≡ contacts.now }
{
    Question {
        job,
        extent,
        path,
        contacts,
    }
}

/// Looks at nodes of a job, and finds what to split by the maximal contacts, fewest live sides first.
///
/// It keeps the rows and the orders of the path that it looked at last, and changes them where the next path differs: a search that
/// goes depth first has one choice to enter at a node. Where the kept rows are cold, the node's system is solved anew.
#[derive(Drop)]
pub struct Looker {
    alloc: Global,
    contacts: Contacts,
    kept: Option<Box<Trail>>,
    counts: Counts,
}

impl Looks for Looker {
    ghost use Rattle.node_looks.specs.Kept.{KeepsTrail};
    ghost use Rattle.pair_constraints.specs.Maximal.{AreContacts};

    ghost IsFor = { λ looker job. AreContacts job looker.contacts × KeepsTrail job looker.kept };

    fn look(&mut self, job: &Job, extent: u32, path: &[Choice]) -> Result<Look, NoMemory> {
        look_by(
            self.alloc,
            &asking(job, extent, path, &self.contacts),
            &mut self.kept,
            &mut self.counts,
        )
    }
}

impl Looker {
    /// One for a job, with its maximal contacts.
    pub fn new(alloc: Global, job: &Job) -> Result<Looker, NoMemory>
        ensures { IfOk result (λ looker. ⟦<Looker as Looks>⟧.IsFor looker job.now) }
    {
        let contacts = Contacts::of(alloc, job)?;
        Ok(Looker {
            alloc,
            contacts,
            kept: None,
            counts: Counts {
                repairs: 0,
                solves: 0,
            },
        })
    }

    /// How often it has asked so far.
    pub fn counts(&self) -> Counts
        ensures { result ≡ self.now.counts }
    {
        self.counts
    }
}
