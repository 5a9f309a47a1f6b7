ghost use Rattle.std.specs.Prelude.{◌≡◌, ℕ, ◌+◌, [], length, IfOk};
ghost use Rattle.privileges.specs.Privileges.{named, is_proper, is_shallow};
ghost use Rattle.privileges.specs.Declaring.{IsOrdered, found, declare_answer, declared_with};

use crate::fault::DeclareFault;
use edges::{Change, Edge};
use std::alloc::{AllocError, Global};
use std::marker::Model;

// How many privileges there may be, and how deep they may be nested.
const MOST: usize = 128;

const DEEPEST: u8 = 8;

/// The declared administrative privileges, in the order of their declaring; they are numbered from 256
/// on. Each is the right to one change of the policy, and that may be about a privilege declared before
/// it. It means the list of these changes.
#[derive(Drop)]
pub struct Privileges {
    changes: Vec<Change>,
}

impl Model for Privileges {
    ghost use Rattle.std.specs.Prelude.{List, vec_capacity, ◌≤◌};
    ghost use Rattle.edges.specs.declared.edges.Change.{Change as Changing};
    ghost use Rattle.privileges.specs.Declaring.{IsOrdered};

    ghost Value = { List Changing };

    ghost view = { λ p. p.changes.items };

    ghost invariant = { λ p. IsOrdered p.changes.items × (128 ≤ vec_capacity p.changes) };
}

impl Privileges {
    /// None yet. There is room for all that may come.
    pub fn new(alloc: Global) -> Result<Privileges, AllocError>
        ensures { IfOk result (λ p. p ≡ []) }
    {
        let changes = Vec::with_capacity(alloc, MOST)?;
        Ok(Privileges { changes })
    }

    pub fn count(&self) -> usize
        ensures { result ≡ length self.now }
    {
        self.changes.len()
    }

    /// The change that a vertex is the right to; none if it is no declared privilege.
    pub fn get(&self, vertex: u16) -> Option<Change>
        ensures { result ≡ named self.now vertex }
    {
        let place = vertex.checked_sub(256)?;
        self.changes.get(usize::from(place)).copied()
    }

    /// The number of the privilege for a change.
    pub fn find(&self, change: Change) -> Option<u16>
        ensures { result ≡ found self.now change }
    {
        let place = self
            .changes
            .iter()
            .position(|declared| *declared == change)?;
        // The cast loses nothing, as there are at most 128.
        Some(256 + place as u16)
    }

    /// Whether a pair is an edge, and any administrative privilege in it declared. It says besides how
    /// all that is declared stands in order.
    #[tactic(auto, using(crate::proofs::Named::edge_proper))]
    pub fn has_edge(&self, edge: Edge) -> bool
        ensures value { result ≡ is_proper self.now edge }
        ensures order { IsOrdered self.now }
    {
        edge.is_edge() && usize::from(edge.to) < 256 + self.changes.len()
    }

    // Whether the privilege for a change would be nested at most so deep.
    fn is_shallow(&self, depth: u8, change: Change) -> bool
        ensures { result ≡ is_shallow self.now depth change }
    {
        if depth == 0 {
            return false;
        }
        let inner = change.edge().to;
        if inner < 256 {
            return true;
        }
        match self.get(inner) {
            Some(change) => self.is_shallow(depth - 1, change),
            None => false,
        }
    }

    /// Declares the privilege for a change, and tells its number: that of old, if it was declared
    /// before. Refused with 2 unless the change is about an edge that has no undeclared privilege in it,
    /// then with 7 if it would be nested deeper than 8, and with 8 if there are 128 already.
    pub fn declare(&mut self, change: Change) -> Result<u16, DeclareFault>
        ensures answer { result ≡ declare_answer self.old change }
        ensures list { self.new ≡ declared_with self.old change }
    {
        if !self.has_edge(change.edge()) {
            return Err(DeclareFault::NoEdge);
        }
        if let Some(number) = self.find(change) {
            return Ok(number);
        }
        if !self.is_shallow(DEEPEST, change) {
            return Err(DeclareFault::TooDeep);
        }
        let place = self.changes.len();
        if place == MOST {
            return Err(DeclareFault::NamesFull);
        }
        let _ = self.changes.push(change);
        Ok(256 + place as u16)
    }
}
