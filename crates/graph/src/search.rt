ghost use Rattle.std.specs.Prelude.{◌≡◌, ℕ, true};
ghost use Rattle.edges.specs.Edges.{is_role};
ghost use Rattle.edge_sets.specs.BitRows.{has_role};
ghost use Rattle.graph.specs.Paths.{reaches};
ghost use Rattle.graph.specs.Searches.{Closure, Begins, ReachesRoles, edge_from};

use crate::graph::{Graph, Paths};
use edge_sets::Roles;
use edges::{Edge, Kind};

/// The roles that some roles reach. The edges of each role are followed once.
pub fn closure<G: Graph>(graph: &G, roles: Roles) -> Roles
    ensures { Closure (G.edges graph.now) roles.word result.word }
{
    let mut seen = roles;
    let mut done = Roles::none();
    while let Some(role) = seen.beyond(done) {
        done = done.with(role);
        seen = seen.union(graph.row(role));
    }
    seen
}

// Whether one of some roles has an edge to a vertex. Only these are asked, one after another.
fn have_edge<G: Graph>(graph: &G, roles: Roles, to: u16) -> bool
    ensures { result ≡ edge_from (G.edges graph.now) roles.word to }
{
    let mut asked = Roles::none();
    while let Some(role) = roles.beyond(asked) {
        if graph.holds(Edge { from: role, to }) {
            return true;
        }
        asked = asked.with(role);
    }
    false
}

/// The roles to begin with: a role itself, or those that any other vertex has an edge to.
pub fn first<G: Graph>(graph: &G, from: u16) -> Roles
    ensures { Begins (G.edges graph.now) from result.word }
{
    if Kind::Role.has(from) {
        Roles::only(from)
    } else {
        graph.row(from)
    }
}

// Whether a vertex is reached, where the roles are those that `from` reaches.
fn is_reached<G: Graph>(graph: &G, from: u16, roles: Roles, to: u16) -> bool
    ensures { ReachesRoles (G.edges graph.now) from roles.word
        → result ≡ reaches (G.edges graph.now) from to }
{
    if from == to {
        return true;
    }
    if Kind::Role.has(to) {
        return roles.has(to);
    }
    if Kind::User.has(to) {
        return false;
    }
    have_edge(graph, roles, to)
}

/// The roles that a vertex reaches, itself among them if it is a role.
pub fn reached<G: Graph>(graph: &G, from: u16) -> Roles
    ensures { ReachesRoles (G.edges graph.now) from result.word }
{
    closure(graph, first(graph, from))
}

/// Whether a vertex reaches another. Every number is answered: one that is no vertex reaches itself
/// alone.
pub fn reaches<G: Graph>(graph: &G, from: u16, to: u16) -> bool
    ensures { result ≡ reaches (G.edges graph.now) from to }
{
    is_reached(graph, from, reached(graph, from), to)
}

/// The same of a graph that knows its paths: it is asked for what the vertex reaches, and not searched.
pub fn has_path<G: Paths>(graph: &G, from: u16, to: u16) -> bool
    ensures { result ≡ reaches (G.Graph.edges graph.now) from to }
{
    is_reached(graph, from, graph.reached(from), to)
}

/// The roles that reach a vertex.
pub fn leading<G: Paths>(graph: &G, to: u16) -> Roles
    ensures { (x : ℕ) → is_role x ≡ true
        → has_role result.word x ≡ reaches (G.Graph.edges graph.now) x to }
{
    let mut roles = Roles::none();
    for role in 64..128u16 {
        if has_path(graph, role, to) {
            roles = roles.with(role);
        }
    }
    roles
}
