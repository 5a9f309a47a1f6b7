ghost use Rattle.std.specs.Prelude.{◌≡◌, ◌&&◌, ◌==◌};
ghost use Rattle.edges.specs.Edges.{is_user_privilege};
ghost use Rattle.graph.specs.Paths.{reaches};
ghost use Rattle.precedence_rules.specs.Stronger.{stronger};
ghost use Rattle.precedence.specs.Precedence.{over, full_rule, all_subjects, both_roles};
ghost use Rattle.precedence.proofs.Ordering.{rules_lawful};

use edges::{Change, Edge, Kind};
use graph::Paths;
use graph::search::has_path;
use precedence::Precedence;
use privileges::Privileges;

/// The whole privilege ordering.
#[derive(Clone, Copy)]
pub struct Full;

// How deep a change that is wanted can be nested.
const DEEPEST: u8 = 9;

// Whether both edges are between users and roles, and the second vertex of the one leads to that of
// the other.
fn leads_on<G: Paths>(policy: &G, held: Edge, wanted: Edge) -> bool
    ensures { result
        ≡ (all_subjects held wanted && reaches (G.Graph.edges policy.now) held.to wanted.to) }
{
    let subjects = held.from < 128 && held.to < 128 && wanted.from < 128 && wanted.to < 128;
    subjects && has_path(policy, held.to, wanted.to)
}

// Whether both edges go from a role.
fn are_from_roles(held: Edge, wanted: Edge) -> bool
    ensures { result ≡ both_roles held wanted }
{
    Kind::Role.has(held.from) && Kind::Role.has(wanted.from)
}

// Whether both edges go to one user privilege.
fn same_privilege(held: Edge, wanted: Edge) -> bool
    ensures { result ≡ (is_user_privilege held.to && held.to == wanted.to) }
{
    Kind::UserPrivilege.has(held.to) && held.to == wanted.to
}

// Whether one privilege stands over another, which is nested at most `depth` deep.
#[cycle(nesting)]
fn stands_over<G: Paths>(
    privileges: &Privileges,
    policy: &G,
    depth: u8,
    held: Change,
    wanted: Change,
) -> bool
    ensures { result ≡ over privileges.now (G.Graph.edges policy.now) depth held wanted }
{
    if depth == 0 {
        return held == wanted;
    }
    match (held, wanted) {
        (Change::Add(held), Change::Add(wanted)) => {
            held == wanted || adds_over(privileges, policy, depth - 1, held, wanted)
        }
        (Change::Remove(_), _) => held == wanted,
        (Change::Add(_), Change::Remove(_)) => false,
    }
}

// The same of two additions of different edges, where the privileges in them are nested at most `depth`
// deep.
#[cycle(nesting)]
fn adds_over<G: Paths>(
    privileges: &Privileges,
    policy: &G,
    depth: u8,
    held: Edge,
    wanted: Edge,
) -> bool
    ensures { result ≡ stronger privileges.now (G.Graph.edges policy.now) depth held wanted }
{
    if !has_path(policy, wanted.from, held.from) {
        return false;
    }
    if leads_on(policy, held, wanted) {
        return true;
    }
    if !are_from_roles(held, wanted) {
        return false;
    }
    if same_privilege(held, wanted) {
        return true;
    }
    match (privileges.get(held.to), privileges.get(wanted.to)) {
        (Some(held), Some(wanted)) => stands_over(privileges, policy, depth, held, wanted),
        _ => false,
    }
}

impl Precedence for Full {
    ghost over = { λ _. full_rule };

    ghost lawful = { λ _. rules_lawful.1 };

    fn stands<G: Paths>(
        &self,
        privileges: &Privileges,
        policy: &G,
        held: Change,
        wanted: Change,
    ) -> bool {
        stands_over(privileges, policy, DEEPEST, held, wanted)
    }
}
