ghost use Rattle.std.specs.Prelude.{◌≡◌, [], true, false, cond, bit_or};
ghost use Rattle.edges.specs.Edges.{is_edge, is_role};
ghost use Rattle.edge_sets.specs.EdgeSets.{Edges, all_edges, insert, delete};
ghost use Rattle.edge_sets.specs.BitRows.{has_role};
ghost use Rattle.graph.specs.Searches.{Closure, ReachesRoles};

use crate::edge_list::EdgeList;
use edge_sets::Roles;
use edges::{Edge, Kind};
use graph::{Graph, search};

// These roles, and if one of them leads on, those behind it.
fn gone_on(roles: Roles, from: u16, onward: Roles) -> Roles
    ensures { result.word ≡ cond (has_role roles.word from) (bit_or roles.word onward.word) roles.word }
{
    if roles.has(from) {
        roles.union(onward)
    } else {
        roles
    }
}

// The roles that a role reaches: as they are written down, or if they have a vertex, searched for.
fn searched<G: Graph>(graph: &G, role: u16, roles: Roles, vertex: u16) -> Roles
    ensures again { has_role roles.word vertex ≡ true → ReachesRoles (G.edges graph.now) role result.word }
    ensures kept { has_role roles.word vertex ≡ false → result.word ≡ roles.word }
{
    if roles.has(vertex) {
        search::closure(graph, search::first(graph, role))
    } else {
        roles
    }
}

/// For each role the roles that it reaches, itself among them.
#[derive(Drop)]
pub struct RolePaths {
    pub(crate) rows: [Roles; 64],
}

impl RolePaths {
    ghost use Rattle.std.specs.Prelude.{ℕ, ◌==◌};
    ghost use Rattle.policy.specs.Onwards.{onward, Tells, joined, Renewed};

    // The roles behind a role; none where it is no role.
    pub(crate) fn behind(&self, role: u16) -> Roles
        ensures { result.word ≡ onward self.now role }
    {
        if !Kind::Role.has(role) {
            return Roles::none();
        }
        self.rows[usize::from(role - 64)]
    }

    // Writes down the roles behind a role.
    fn set(&mut self, role: u16, roles: Roles)
        ensures { (v : ℕ) → is_role v ≡ true → onward self.new v ≡ cond (role == v) roles.word (onward self.old v) }
    {
        if Kind::Role.has(role) {
            self.rows[usize::from(role - 64)] = roles;
        }
    }

    // Those of the graph without edges: a role reaches itself alone.
    pub(crate) fn alone() -> RolePaths
        ensures { Tells [] result }
    {
        let mut paths = RolePaths {
            rows: [Roles::none(); 64],
        };
        for role in 64..128u16 {
            paths.set(role, Roles::none().with(role));
        }
        paths
    }

    // Writes down that whatever reaches the beginning of an edge goes on from its end.
    fn join(&mut self, edge: Edge)
        ensures { (v : ℕ) → is_role v ≡ true → onward self.new v ≡ joined self.old edge v }
    {
        let onward = self.behind(edge.to);
        for role in 64..128u16 {
            self.set(role, gone_on(self.behind(role), edge.from, onward));
        }
    }

    // A graph gains an edge. Only one that leads to a role makes more paths between roles.
    #[tactic(auto, using(crate::proofs::Onwards::aside_tells))]
    pub(crate) fn gain(&mut self, edge: Edge)
        ensures { (s t : Edges) → all_edges s ≡ true → is_edge edge ≡ true → Tells s self.old → t ≡ insert edge s → Tells t self.new }
    {
        if Kind::Role.has(edge.to) {
            self.join(edge);
        }
    }

    // Searches a graph anew from the roles that are written down to reach a vertex.
    #[tactic(auto, using(crate::proofs::Onwards::renews_first, crate::proofs::Onwards::renews_more))]
    fn renew<G: Graph>(&mut self, vertex: u16, graph: &G)
        ensures { Renewed (G.edges graph.now) vertex self.old 128 self.new }
    {
        for role in 64..128u16 {
            self.set(role, searched(graph, role, self.behind(role), vertex));
        }
    }

    // A graph loses an edge; the others are listed. Only what reached its beginning may have lost a path, and
    // only if it leads to a role.
    #[tactic(auto, using(crate::proofs::Onwards::apart_tells, crate::proofs::Onwards::renewed_tells))]
    pub(crate) fn lose(&mut self, edge: Edge, others: &EdgeList)
        ensures { (s : Edges) → is_edge edge ≡ true → Tells s self.old → others.now.edges.now ≡ delete edge s → Tells others.now.edges.now self.new }
    {
        if Kind::Role.has(edge.to) {
            self.renew(edge.from, others);
        }
    }

    // The roles that some roles reach.
    pub(crate) fn closure(&self, roles: Roles) -> Roles
        ensures { (s : Edges) → Tells s self.now → Closure s roles.word result.word }
    {
        let mut found = Roles::none();
        let mut done = Roles::none();
        while let Some(role) = roles.beyond(done) {
            done = done.with(role);
            found = found.union(self.behind(role));
        }
        found
    }
}
