ghost use Rattle.std.specs.Prelude.{◌≡◌};
ghost use Rattle.edges.specs.Edges.{is_edge, vault_edge, edge_of};

use crate::kinds::Kind;
use std::fmt;

/// Two vertices of the policy graph, the second reached from the first. Not every pair is an edge.
/// Edges are ordered by the first vertex, then by the second.
#[derive(Clone, Copy, PartialEq, Eq, PartialOrd, Ord, Debug)]
pub struct Edge {
    pub from: u16,
    pub to: u16,
}

/// An edge to be added or to be removed. It is what a command asks for, what an administrative
/// privilege allows, and the message that a vault is sent.
#[derive(Clone, Copy, PartialEq, Eq, Debug)]
pub enum Change {
    Add(Edge),
    Remove(Edge),
}

impl Edge {
    /// Whether the pair is an edge: a user in a role, a role below a role, a role with a privilege.
    pub fn is_edge(&self) -> bool
        ensures { result ≡ is_edge self.now }
    {
        match Kind::of(self.from) {
            Some(Kind::User) => Kind::Role.has(self.to),
            Some(Kind::Role) => Kind::of(self.to).is_some_and(|to| to != Kind::User),
            _ => false,
        }
    }

    /// Whether the pair is a vault edge: an edge that has no administrative privilege in it.
    pub fn is_vault_edge(&self) -> bool
        ensures { result ≡ vault_edge self.now }
    {
        self.is_edge() && self.from < 256 && self.to < 256
    }
}

impl Change {
    /// The edge that the change is about.
    pub fn edge(&self) -> Edge
        ensures { result ≡ edge_of self.now }
    {
        match self {
            Change::Add(e) => *e,
            Change::Remove(e) => *e,
        }
    }
}

// An edge as its two numbers.
impl fmt::Display for Edge {
    ghost use Rattle.std.specs.Prelude.{Some};
    ghost use Rattle.edges.specs.Texts.{edge_text};

    ghost output = { λ e. Some (edge_text e) };

    fn fmt<W: fmt::Write>(&self, f: &mut fmt::Formatter<W>) -> fmt::Result {
        let Edge { from, to } = *self;
        write!(f, "{from} {to}")
    }
}

// A change as its sign and its edge.
impl fmt::Display for Change {
    ghost use Rattle.std.specs.Prelude.{Some};
    ghost use Rattle.edges.specs.Texts.{change_text};

    ghost output = { λ c. Some (change_text c) };

    fn fmt<W: fmt::Write>(&self, f: &mut fmt::Formatter<W>) -> fmt::Result {
        match self {
            Change::Add(edge) => write!(f, "+{edge}"),
            Change::Remove(edge) => write!(f, "-{edge}"),
        }
    }
}
