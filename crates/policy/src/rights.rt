ghost use Rattle.std.specs.Prelude.{◌≡◌, true, false};
ghost use Rattle.std.specs.List.{list_any};
ghost use Rattle.edges.specs.Edges.{is_user};
ghost use Rattle.precedence.specs.Authorisation.{reaches_over};
ghost use Rattle.policy.specs.Books.{policy_edges};
ghost use Rattle.policy.specs.Rights.{stands_at, leads_to};

use crate::policy::Policy;
use edge_sets::Roles;
use edges::{Change, Edge, Kind};
use graph::Paths;
use precedence::Precedence;
use privileges::Privileges;

// Whether a vertex is a declared privilege that stands over a change.
fn stands<R: Precedence>(
    rule: &R,
    names: &Privileges,
    policy: &Policy,
    vertex: u16,
    wanted: Change,
) -> bool
    ensures { result ≡ stands_at (λ d. R.over rule.now names.now (policy_edges policy.now) d wanted) names.now vertex }
{
    match names.get(vertex) {
        Some(held) => rule.stands(names, policy, held, wanted),
        None => false,
    }
}

// Whether an edge goes from one of some roles to a declared privilege that stands over a change. Most edges
// go to none, which is seen at once.
#[tactic(auto, using(crate::proofs::Ends::low_stands))]
fn leads<R: Precedence>(
    rule: &R,
    names: &Privileges,
    policy: &Policy,
    roles: Roles,
    edge: Edge,
    wanted: Change,
) -> bool
    ensures { result ≡ leads_to roles.word (stands_at (λ d. R.over rule.now names.now (policy_edges policy.now) d wanted) names.now) edge }
{
    (edge.to >= 256) & roles.has(edge.from) && stands(rule, names, policy, edge.to, wanted)
}

// Whether one of some roles has an edge to a declared privilege that stands over a change.
fn have_right<R: Precedence>(
    rule: &R,
    names: &Privileges,
    policy: &Policy,
    roles: Roles,
    wanted: Change,
) -> bool
    ensures { result ≡ list_any (leads_to roles.word (stands_at (λ d. R.over rule.now names.now (policy_edges policy.now) d wanted) names.now)) (policy_edges policy.now) }
{
    let edges = policy.edges();
    edges
        .iter()
        .any(|edge| leads(rule, names, policy, roles, *edge, wanted))
}

/// Whether a vertex is a user, and reaches a declared privilege that the rule puts over a change.
pub fn is_authorised<R: Precedence>(
    rule: &R,
    names: &Privileges,
    policy: &Policy,
    user: u16,
    wanted: Change,
) -> bool
    ensures user { is_user user ≡ true → result ≡ reaches_over (λ d. R.over rule.now names.now (policy_edges policy.now) d wanted) (policy_edges policy.now) user 256 names.now }
    ensures other { is_user user ≡ false → result ≡ false }
{
    Kind::User.has(user) && have_right(rule, names, policy, policy.reached(user), wanted)
}
