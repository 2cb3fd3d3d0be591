//! What a search keeps of the path that it looked at last: the rows of its system, warm, its orders, and the room that they leave.
//!
//! The next path mostly has one choice more, or leaves this one near its end. `follow` undoes the choices that the two don't share,
//! newest first, and enters the new ones.

ghost use Rattle.std.specs.Prelude.{◌≡◌, ◌+◌, ◌-◌, ◌*◌, ◌<◌, ◌≤◌, ◌≢◌, ◌^◌, [], ◌∷◌, ◌++◌, All, length, pos, slice_get, take, Some, IfOk, IfSome, OnOk, IsTrue};
ghost use Rattle.integer_laws.specs.Vectors.{zeros};
ghost use Rattle.node_looks.specs.Trails.{HasOnlyRows, IsEntered, IsFollowed, IsTrail, IsWarmed, IsTrailOf, orders_of, path_of};
ghost use Rattle.object_orders.specs.Orders.{IsAmong};
ghost use Rattle.row_dictionary.specs.Scans.{IsSmallRow};
ghost use Rattle.row_pivots.specs.Tables.{AreRowsOf};
ghost use Rattle.seq_model.specs.Systems.{MeetsRows, system};
ghost use Rattle.seq_model.specs.Trees.{IsPath};
ghost use Rattle.seq_model.specs.declared.tree.Choice.TheVariants as Choices;
ghost use Rattle.warm_rows.specs.Warming.{IsRowStep, IsZeroPoint};

use crate::advice::bounds_room;
use crate::system::{row_of_side, system_rows};
use order_graph::{Cycle, OrderGraph};
use search_room::Room;
use seq_limits::MOST_NODES;
use seq_model::{Choice, Contact, Dir, Job, Row};
use seq_num::NoMemory;
use std::alloc::{AllocError, Global};
use warm_rows::{Added, Mark, Warm, Warmed};

/// A choice that was entered, and what there was before: the steps of the rows, and the room.
#[derive(Clone, Copy, Debug)]
pub(crate) struct Level {
    pub choice: Choice,
    pub before: Mark,
    pub room: Room,
}

/// The choices that were entered, with the rows and the orders that they add to the bounds of an extent.
#[derive(Drop)]
pub(crate) struct Trail {
    pub extent: u32,
    pub levels: Vec<Level>,
    pub warm: Warm,
    /// What the choices leave each variable.
    pub room: Room,
    pub graph: OrderGraph,
    /// How many orders the graph holds.
    pub orders: usize,
}

/// What became of a choice.
#[derive(Debug, Drop)]
pub(crate) enum Entered {
    /// What it adds is held.
    Held,
    /// The orders run in a circle.
    Cycle(Cycle),
    /// What it adds isn't held.
    Missed,
}

// Adds the rows of a system, as long as they can be held.
fn add_all(warm: &mut Warm, alloc: Global, rows: &[Row]) -> Result<bool, NoMemory>
    requires long { AreRowsOf warm.old.vars rows.now }
    requires small { All IsSmallRow rows.now }
    requires count { warm.old.vars + length rows.now < 2 ^ 32 }
    requires none { warm.old.steps ≡ [] }
    ensures { IfOk result (λ held. IsTrue held → HasOnlyRows warm.new warm.old.vars rows.now) }
{
    for row in rows {
        match warm.add(alloc, row)? {
            Added::Held => {}
            Added::Cold => return Ok(false),
        }
    }
    Ok(true)
}

// The bounds, if they can be held.
fn warm_bounds(
    alloc: Global,
    job: &Job,
    extent: u32,
    rows: &[Row],
) -> Result<Option<Warm>, NoMemory>
    requires rows { rows.now ≡ system job.now extent [] }
    requires high { extent ≤ job.now.printer.grid }
    ensures { IfOk result (λ made. IfSome made (λ warm.
        HasOnlyRows warm (2 * length job.now.objects) rows.now)) }
{
    let mut warm = Warm::new(alloc, 2 * job.objects.len() as u32)?;
    if add_all(&mut warm, alloc, rows)? {
        return Ok(Some(warm));
    }
    Ok(None)
}

// Whether so many orders leave room for this one, which is an order of two objects of the job.
fn may_hold(job: &Job, orders: usize, i: u32, j: u32) -> bool
    ensures { IsTrue result → IsAmong (length job.now.objects) (i, j)
        × (orders < 16 * length job.now.objects) }
{
    let count = job.objects.len();
    (i as usize) < count && (j as usize) < count && i != j && orders < 16 * count
}

// Takes the order of a choice back, which was held last.
fn forget(graph: &mut OrderGraph, orders: &mut usize, choice: &Choice)
    requires count { orders.old ≡ length graph.old.held }
    requires some { length (orders_of (choice.now ∷ [])) ≤ length graph.old.held }
    ensures objects { graph.new.objects ≡ graph.old.objects }
    ensures held { graph.new.held
        ≡ take (length graph.old.held - length (orders_of (choice.now ∷ []))) graph.old.held }
    ensures count { orders.new ≡ length graph.new.held }
{
    match choice {
        Choice::Before { i: _, j: _ } => {
            graph.undo();
            *orders -= 1;
        }
        Choice::Side { contact: _, dir: _ } => {}
    }
}

fn is_of(level: &Level, choice: &Choice) -> bool
    ensures { IsTrue result → level.now.choice ≡ choice.now }
{
    level.choice == *choice
}

// How many of the choices that were entered the path begins with.
fn shared(levels: &[Level], path: &[Choice]) -> usize
    ensures entered { result ≤ length levels.now }
    ensures within { result ≤ length path.now }
    ensures same { path_of (take result levels.now) ≡ take result path.now }
{
    let count = levels.len().min(path.len());
    for k in 0..count {
        if !is_of(&levels[k], &path[k]) {
            return k;
        }
    }
    count
}

impl Trail {
    /// That of an extent at the empty path, if its bounds can be held.
    pub fn new(alloc: Global, job: &Job, extent: u32) -> Result<Option<Trail>, NoMemory>
        requires low { 1 ≤ extent }
        requires high { extent ≤ job.now.printer.grid }
        ensures at { IfOk result (λ made. IfSome made (IsTrailOf job.now extent [])) }
        ensures unmoved { IfOk result (λ made. IfSome made (λ trail. All IsRowStep trail.warm.steps)) }
    {
        let rows = system_rows(alloc, job, extent, &[])?;
        let Some(warm) = warm_bounds(alloc, job, extent, &rows)? else {
            return Ok(None);
        };
        Ok(Some(Trail {
            extent,
            levels: Vec::new(alloc),
            warm,
            room: bounds_room(job, &rows),
            graph: OrderGraph::new(job.objects.len() as u32),
            orders: 0,
        }))
    }

    // Takes back what was entered last.
    fn leave(&mut self, job: &Job)
        requires trail { IsTrail job.now self.old }
        requires some { 0 < length self.old.levels.items }
        ensures trail { IsTrail job.now self.new }
        ensures extent { self.new.extent ≡ self.old.extent }
        ensures levels { self.new.levels.items
            ≡ take (length self.old.levels.items - 1) self.old.levels.items }
    {
        if let Some(level) = self.levels.pop() {
            self.warm.undo_to(level.before);
            self.room = level.room;
            forget(&mut self.graph, &mut self.orders, &level.choice);
        }
    }

    // Takes back all but the first n choices.
    fn back_to(&mut self, job: &Job, n: usize)
        requires trail { IsTrail job.now self.old }
        requires entered { n ≤ length self.old.levels.items }
        ensures trail { IsTrail job.now self.new }
        ensures extent { self.new.extent ≡ self.old.extent }
        ensures levels { self.new.levels.items ≡ take n self.old.levels.items }
    {
        while self.levels.len() > n {
            self.leave(job);
        }
    }

    fn push(&mut self, choice: Choice, before: Mark, room: Room) -> Result<(), AllocError>
        ensures extent { self.new.extent ≡ self.old.extent }
        ensures warm { self.new.warm ≡ self.old.warm }
        ensures graph { self.new.graph ≡ self.old.graph }
        ensures orders { self.new.orders ≡ self.old.orders }
        ensures levels { OnOk result (self.new.levels.items ≡ self.old.levels.items
            ++ record { choice = choice; before = before; room = room } ∷ []) }
    {
        self.levels.push(Level {
            choice,
            before,
            room,
        })?;
        Ok(())
    }

    // Enters an order, choice k of the path.
    fn enter_order(
        &mut self,
        job: &Job,
        path: &[Choice],
        k: usize,
        i: u32,
        j: u32,
    ) -> Result<Entered, AllocError>
        requires at { IsTrailOf job.now self.old.extent (take k path.now) self.old }
        requires choice { slice_get path.now k ≡ Some (Choices.Before i j) }
        ensures is { IfOk result (IsEntered job.now self.old.extent path.now k self.new) }
        ensures stays { OnOk result (IsTrail job.now self.new) }
    {
        if !may_hold(job, self.orders, i, j) {
            return Ok(Entered::Missed);
        }
        let before = self.warm.mark();
        if let Err(cycle) = self.graph.add(i, j) {
            return Ok(Entered::Cycle(cycle));
        }
        self.orders += 1;
        self.push(Choice::Before { i, j }, before, self.room)?;
        Ok(Entered::Held)
    }

    // Enters a side, choice k of the path.
    fn enter_side(
        &mut self,
        alloc: Global,
        job: &Job,
        path: &[Choice],
        k: usize,
        contact: &Contact,
        dir: &Dir,
    ) -> Result<Entered, NoMemory>
        requires at { IsTrailOf job.now self.old.extent (take k path.now) self.old }
        requires choice { slice_get path.now k ≡ Some (Choices.Side contact.now dir.now) }
        requires high { self.old.extent ≤ job.now.printer.grid }
        requires path { IsPath job.now path.now }
        requires short { length path.now ≤ MOST_NODES }
        ensures is { IfOk result (IsEntered job.now self.old.extent path.now k self.new) }
        ensures stays { OnOk result (IsTrail job.now self.new) }
    {
        let row = row_of_side(alloc, job, contact, dir)?;
        let before = self.warm.mark();
        match self.warm.add(alloc, &row)? {
            Added::Cold => Ok(Entered::Missed),
            Added::Held => {
                self.push(
                    Choice::Side {
                        contact: *contact,
                        dir: *dir,
                    },
                    before,
                    self.room,
                )?;
                self.room.narrow(contact.i, contact.j, dir, row.c);
                Ok(Entered::Held)
            }
        }
    }

    // Enters choice k of the path.
    fn enter(
        &mut self,
        alloc: Global,
        job: &Job,
        path: &[Choice],
        k: usize,
    ) -> Result<Entered, NoMemory>
        requires at { IsTrailOf job.now self.old.extent (take k path.now) self.old }
        requires known { k < length path.now }
        requires high { self.old.extent ≤ job.now.printer.grid }
        requires path { IsPath job.now path.now }
        requires short { length path.now ≤ MOST_NODES }
        ensures is { IfOk result (IsEntered job.now self.old.extent path.now k self.new) }
        ensures stays { OnOk result (IsTrail job.now self.new) }
    {
        match &path[k] {
            Choice::Before { i, j } => Ok(self.enter_order(job, path, k, *i, *j)?),
            Choice::Side { contact, dir } => self.enter_side(alloc, job, path, k, contact, dir),
        }
    }

    /// Goes to this path, from wherever it is, and says what has become of it.
    pub fn follow(&mut self, alloc: Global, job: &Job, path: &[Choice]) -> Result<Entered, NoMemory>
        requires trail { IsTrail job.now self.old }
        requires high { self.old.extent ≤ job.now.printer.grid }
        requires path { IsPath job.now path.now }
        requires short { length path.now ≤ MOST_NODES }
        ensures is { IfOk result (IsFollowed job.now self.old.extent path.now self.new) }
        ensures stays { OnOk result (IsTrail job.now self.new) }
    {
        let n = shared(&self.levels, path);
        self.back_to(job, n);
        for k in n..path.len() {
            match self.enter(alloc, job, path, k)? {
                Entered::Held => {}
                Entered::Cycle(cycle) => return Ok(Entered::Cycle(cycle)),
                Entered::Missed => return Ok(Entered::Missed),
            }
        }
        Ok(Entered::Held)
    }

    /// What the rows have of the path that it stands at.
    pub fn repair(
        &mut self,
        alloc: Global,
        job: &Job,
        extent: u32,
        path: &[Choice],
    ) -> Result<Warmed, NoMemory>
        requires { IsTrailOf job.now extent path.now self.old }
        ensures at { IsTrailOf job.now extent path.now self.new }
        ensures is { IfOk result (IsWarmed (2 * length job.now.objects) (system job.now extent path.now)) }
        ensures zero { All IsRowStep self.old.warm.steps
            → MeetsRows (system job.now extent path.now) (pos 1) (zeros (2 * length job.now.objects))
            → IfOk result (IsZeroPoint (2 * length job.now.objects)) }
    {
        self.warm.repair(alloc)
    }
}
