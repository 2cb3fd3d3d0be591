ghost use Rattle.std.specs.Prelude.{◌≡◌, ◌+◌, ◌<◌, ◌≤◌, ◌^◌, [], ◌∷◌, ◌++◌, length, map, None, All, IfOk, OnOk, MatchOption};
ghost use Rattle.search_agenda.specs.Agendas.{OpenNode, ToDo, child_of};
ghost use Rattle.seq_model.specs.Trees.{also};

use crate::open_nodes::OpenNodes;
use seq_model::Choice;
use std::alloc::{AllocError, Global};
use std::marker::Model;

/// An open node as it is kept: how much of the trail it needs, and its own choice behind that.
#[derive(Clone, Copy, Debug)]
pub struct Waiting {
    pub number: u32,
    pub depth: usize,
    pub choice: Option<Choice>,
}

/// The path that a search stands at, and its open nodes, the next one first.
#[derive(Drop)]
pub struct Agenda {
    trail: Vec<Choice>,
    waiting: OpenNodes,
}

impl Model for Agenda {
    ghost use Rattle.std.specs.Prelude.{length, map};
    ghost use Rattle.search_agenda.specs.Agendas.{ToDo};
    ghost use Rattle.search_agenda.specs.Kept.{open_of, AreNested};

    ghost Value = { ToDo };

    ghost view = { λ a. record { path = a.trail.items; open_nodes = map (open_of a.trail.items) a.waiting } };

    ghost invariant = { λ a. AreNested (length a.trail.items) a.waiting };
}

fn first_waiting(alloc: Global) -> Result<OpenNodes, AllocError>
    ensures { IfOk result (λ waiting. waiting ≡ record { number = 0; depth = 0; choice = None } ∷ []) }
{
    let mut waiting = OpenNodes::new(alloc);
    waiting.push(Waiting {
        number: 0,
        depth: 0,
        choice: None,
    })?;
    Ok(waiting)
}

impl Agenda {
    /// Node 0, at the empty path.
    pub fn new(alloc: Global) -> Result<Agenda, AllocError>
        ensures { IfOk result (λ agenda. agenda
            ≡ record { path = []; open_nodes = record { number = 0; path = [] } ∷ [] }) }
    {
        Ok(Agenda {
            trail: Vec::new(alloc),
            waiting: first_waiting(alloc)?,
        })
    }

    /// The path that the search stands at.
    pub fn path(&self) -> &[Choice]
        ensures { result.now ≡ self.now.path }
    {
        self.trail.as_slice()
    }

    /// The next open node, if there is one. The search then stands at its path.
    pub fn pop(&mut self) -> Result<Option<u32>, AllocError>
        ensures { IfOk result (λ next. MatchOption next (self.old.open_nodes ≡ [])
            (λ number. self.old.open_nodes
            ≡ record { number = number; path = self.new.path } ∷ self.new.open_nodes)) }
    {
        let Some(next) = self.waiting.pop() else {
            return Ok(None);
        };
        self.trail.truncate(next.depth);
        if let Some(choice) = next.choice {
            self.trail.push(choice)?;
        }
        Ok(Some(next.number))
    }

    /// One more open node, which comes next, at the path with this choice more.
    pub fn push(&mut self, number: u32, choice: Choice) -> Result<(), AllocError>
        ensures path { OnOk result (self.new.path ≡ self.old.path) }
        ensures pushed { OnOk result (self.new.open_nodes
            ≡ record { number = number; path = also self.old.path choice } ∷ self.old.open_nodes) }
    {
        let depth = self.trail.len();
        self.waiting.push(Waiting {
            number,
            depth,
            choice: Some(choice),
        })?;
        Ok(())
    }

    /// Children of a split, which come next in the order of `visits`: child k is node `first + k`, at the path with choice k more.
    pub fn push_all(
        &mut self,
        first: u32,
        choices: &[Choice],
        visits: &[u32],
    ) -> Result<(), AllocError>
        requires room { first + length choices.now ≤ 2 ^ 32 }
        requires known { All (λ k. k < length choices.now) visits.now }
        ensures { OnOk result (self.new ≡ record {
          path = self.old.path;
          open_nodes = map (child_of first self.old.path choices.now) visits.now ++ self.old.open_nodes;
        }) }
    {
        let count = visits.len();
        for i in 0..count {
            let k = visits[count - 1 - i];
            self.push(first + k, choices[k as usize])?;
        }
        Ok(())
    }
}
