ghost use Rattle.std.specs.Prelude.{◌≡◌, [], ◌∷◌, OnOk, OnErr, IfNone, MatchOption};

use crate::agenda::Waiting;
use slab::Slab;
use std::alloc::{AllocError, Global};
use std::marker::Model;

/// Nodes that wait, seen as a list, the next one first: in a slab, and their keys, the one that was put there last at the end.
#[derive(Drop)]
pub struct OpenNodes {
    nodes: Slab<Waiting>,
    keys: Vec<usize>,
}

impl Model for OpenNodes {
    ghost use Rattle.std.specs.Prelude.{List, reverse};
    ghost use Rattle.search_agenda.specs.declared.agenda.Waiting.{Waiting};

    ghost Value = { List Waiting };

    ghost use Rattle.search_agenda.specs.Kept.{values_at, AreKept};

    ghost view = { λ o. values_at o.nodes (reverse o.keys.items) };

    ghost invariant = { λ o. AreKept o.nodes (reverse o.keys.items) };
}

impl OpenNodes {
    /// None, and no memory taken yet.
    pub fn new(alloc: Global) -> OpenNodes
        ensures { result ≡ [] }
    {
        OpenNodes {
            nodes: Slab::new(alloc),
            keys: Vec::new(alloc),
        }
    }

    pub fn push(&mut self, node: Waiting) -> Result<(), AllocError>
        ensures ok { OnOk result (self.new ≡ node ∷ self.old) }
        ensures err { OnErr result (self.new ≡ self.old) }
    {
        self.keys.reserve(1)?;
        let key = self.nodes.insert(node)?;
        self.keys.push_reserved(key);
        Ok(())
    }

    pub fn pop(&mut self) -> Option<Waiting>
        ensures next { MatchOption result (self.old ≡ []) (λ node. self.old ≡ node ∷ self.new) }
        ensures none { IfNone result (self.new ≡ []) }
    {
        let Some(key) = self.keys.pop() else {
            return None;
        };
        self.nodes.try_remove(key)
    }
}
