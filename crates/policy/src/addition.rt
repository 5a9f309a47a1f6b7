ghost use Rattle.std.specs.Prelude.{◌≡◌, ℕ, true};
ghost use Rattle.edges.specs.Edges.{is_role};
ghost use Rattle.edge_sets.specs.BitRows.{has_role};
ghost use Rattle.graph.specs.Paths.{reaches};
ghost use Rattle.graph.specs.Paths.{concerns};
ghost use Rattle.policy.specs.VaultSets.{has_vault};
ghost use Rattle.policy.specs.Books.{policy_edges};
ghost use Rattle.policy.specs.Keepings.{keeps};

use crate::keeping::Keeping;
use crate::policy::Policy;
use crate::vault_set::VaultSet;
use edge_sets::Roles;
use edges::Edge;
use graph::Paths;
use graph::search::leading;

/// An edge that is to be added, with what is found out about it first: the roles that lead to where it
/// comes from, and the vaults that it concerns.
#[derive(Clone, Copy)]
pub struct Addition {
    pub edge: Edge,
    pub behind: Roles,
    pub concerned: VaultSet,
}

// The vaults that keep a privilege which a vertex reaches; only by way of roles does one reach another.
fn concerned(policy: &Policy, keeping: &Keeping, vertex: u16) -> VaultSet
    ensures { (k : ℕ) → has_vault result k ≡ concerns (policy_edges policy.now) (keeps keeping.now k) vertex 256 }
{
    let roles = policy.reached(vertex);
    let mut vaults = keeping.of(vertex);
    if roles == Roles::none() {
        return vaults;
    }
    for edge in policy.edges() {
        if roles.has(edge.from) {
            vaults = vaults.union(keeping.of(edge.to));
        }
    }
    vaults
}

impl Addition {
    ghost use Rattle.policy.specs.Additions.{rises};

    pub fn new(policy: &Policy, keeping: &Keeping, edge: Edge) -> Addition
        ensures edge { result.edge ≡ edge }
        ensures behind { (x : ℕ) → is_role x ≡ true → has_role result.behind.word x ≡ reaches (policy_edges policy.now) x edge.from }
        ensures concerned { (k : ℕ) → has_vault result.concerned k ≡ concerns (policy_edges policy.now) (keeps keeping.now k) edge.to 256 }
    {
        Addition {
            edge,
            behind: leading(policy, edge.from),
            concerned: concerned(policy, keeping, edge.to),
        }
    }

    /// Whether an edge is the new one, or leads to where that comes from.
    pub fn rises(&self, edge: Edge) -> bool
        ensures { result ≡ rises self.now edge }
    {
        (self.edge == edge) | self.behind.has(edge.to)
    }
}
