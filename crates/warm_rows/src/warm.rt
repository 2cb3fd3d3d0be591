ghost use Rattle.std.specs.Prelude.{◌≡◌, ◌+◌, ◌<◌, ◌≤◌, ◌^◌, ◌-◌, pos, All, length, take, IfOk, OnErr};
ghost use Rattle.integer_laws.specs.Vectors.{zeros};
ghost use Rattle.row_dictionary.specs.Scans.{IsSmallRow};
ghost use Rattle.seq_model.specs.Systems.{MeetsRows};
ghost use Rattle.warm_rows.specs.Answering.{IsReadOff};
ghost use Rattle.warm_rows.specs.Keeping.{Kept};
ghost use Rattle.warm_rows.specs.Warming.{AddsRow, AddsPivots, Gives, IsRowStep, IsZeroPoint, Repairs, no_steps, rows_of};

use crate::answering::answer;
use crate::step::{Added, Mark, Step, Warmed};
use crate::walking::{push_step, walk};
use row_dictionary::{Dictionary, Pushed};
use seq_model::Row;
use seq_num::NoMemory;
use std::alloc::{AllocError, Global};
use std::marker::Model;

/// The rows of a system and its dictionary, as steps that can be undone.
#[derive(Debug, Drop)]
pub struct Warm {
    vars: u32,
    dictionary: Dictionary,
    steps: Vec<Step>,
}

impl Model for Warm {
    ghost use Rattle.std.specs.Prelude.{◌≡◌};
    ghost use Rattle.warm_rows.specs.Keeping.{Kept};
    ghost use Rattle.warm_rows.specs.Warming.{Warmth};

    ghost Value = { Warmth };

    ghost view = { λ s. record { vars = s.vars; steps = s.steps.items; table = s.dictionary } };

    ghost invariant = { λ s. Kept s.vars s.steps.items s.dictionary };
}

fn copy_of(alloc: Global, row: &Row) -> Result<Row, AllocError>
    ensures { IfOk result (λ copy. copy ≡ row.now) }
{
    Ok(Row {
        c: row.c,
        a: row.a.copy(alloc)?,
    })
}

impl Warm {
    /// A system of so many variables without rows.
    pub fn new(alloc: Global, vars: u32) -> Result<Warm, NoMemory>
        ensures { IfOk result (λ warm. warm ≡ no_steps vars) }
    {
        Ok(Warm {
            vars,
            dictionary: Dictionary::of(alloc, vars, &[])?,
            steps: Vec::new(alloc),
        })
    }

    pub fn vars(&self) -> u32
        ensures { result ≡ self.now.vars }
    {
        self.vars
    }

    /// How many rows there are.
    pub fn count(&self) -> u32
        ensures { result ≡ length (rows_of self.now.steps) }
    {
        self.dictionary.count()
    }

    pub fn dictionary(&self) -> &Dictionary
        ensures { result.now ≡ self.now.table }
    {
        &self.dictionary
    }

    /// How many steps there are now.
    pub fn mark(&self) -> Mark
        ensures is { result.steps ≡ length self.now.steps }
        ensures kept { Kept self.now.vars self.now.steps self.now.table }
    {
        Mark {
            steps: self.steps.len(),
        }
    }

    fn len(&self) -> usize
        ensures is { result ≡ length self.now.steps }
        ensures kept { Kept self.now.vars self.now.steps self.now.table }
    {
        self.steps.len()
    }

    /// Undoes all steps but the first so many.
    pub fn undo_to(&mut self, mark: Mark)
        requires { mark.steps ≤ length self.old.steps }
        ensures vars { self.new.vars ≡ self.old.vars }
        ensures steps { self.new.steps ≡ take mark.steps self.old.steps }
        ensures kept { Kept self.new.vars self.new.steps self.new.table }
    {
        while self.len() > mark.steps {
            self.undo();
        }
    }

    /// Undoes the last step.
    fn undo(&mut self)
        ensures vars { self.new.vars ≡ self.old.vars }
        ensures steps { self.new.steps ≡ take (length self.old.steps - 1) self.old.steps }
        ensures gives { Gives self.new.vars self.new.steps self.new.table }
    {
        match self.steps.pop() {
            None => {}
            Some(Step::Row(_)) => self.dictionary.pop(),
            Some(Step::Pivot { leaving, entering }) => {
                self.dictionary.pivot_back(leaving, entering)
            }
        }
    }

    /// One row more; or it is too wide over the present basis, and then nothing is changed.
    pub fn add(&mut self, alloc: Global, row: &Row) -> Result<Added, NoMemory>
        requires long { length row.now.a ≡ self.old.vars }
        requires small { IsSmallRow row.now }
        requires count { self.old.vars + length (rows_of self.old.steps) + 1 < 2 ^ 32 }
        ensures is { IfOk result (AddsRow self.old self.new row.now) }
        ensures unchanged { OnErr result (self.new ≡ self.old) }
        ensures kept { Kept self.new.vars self.new.steps self.new.table }
    {
        self.steps.reserve(1)?;
        let copy = copy_of(alloc, row)?;
        match self.dictionary.push(alloc, row)? {
            Pushed::TooWide => Ok(Added::Cold),
            Pushed::Held => {
                push_step(&mut self.steps, Step::Row(copy));
                Ok(Added::Held)
            }
        }
    }

    /// A point that meets all rows, or a contradiction of them, by the walk from the present basis.
    pub fn repair(&mut self, alloc: Global) -> Result<Warmed, NoMemory>
        ensures goes_on { AddsPivots self.old self.new }
        ensures kept { Kept self.new.vars self.new.steps self.new.table }
        ensures is { IfOk result (Repairs self.old self.new) }
        ensures read { IfOk result (IsReadOff (rows_of self.old.steps) self.new.table) }
        ensures zero { All IsRowStep self.old.steps
            → MeetsRows (rows_of self.old.steps) (pos 1) (zeros self.old.vars)
            → IfOk result (IsZeroPoint self.old.vars) }
    {
        let turn = walk(&mut self.dictionary, &mut self.steps)?;
        let warmed = answer(alloc, &self.dictionary, self.vars, turn)?;
        Ok(warmed)
    }
}
