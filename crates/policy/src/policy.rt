ghost use Rattle.std.specs.Prelude.{◌≡◌, ℕ, ◌<◌, ◌≤◌, true, false, not, ◌&&◌, ◌||◌, ◌⊎◌, [], length, filter, IfOk, MatchResult, nat_lt, slice_index_or, vec_len, vec_capacity};
ghost use Rattle.std.specs.List.{zip};
ghost use Rattle.edges.specs.Edges.{is_edge, same};
ghost use Rattle.edge_sets.specs.EdgeSets.{Found, Absent, ascends, all_edges, insert, delete, no_edge};
ghost use Rattle.policy.specs.VaultSets.{has_vault};
ghost use Rattle.policy.specs.VaultCounts.{Counted};
ghost use Rattle.policy.specs.Ledgers.{is_told, told_of, entry_answer, with_entry};
ghost use Rattle.policy.specs.Additions.{rises};
ghost use Rattle.policy.specs.Onwards.{Tells};

use crate::addition::Addition;
use crate::edge_list::EdgeList;
use crate::fault::PolicyFault;
use crate::role_paths::RolePaths;
use crate::vault_counts::VaultCounts;
use crate::vault_set::VaultSet;
use edge_sets::Roles;
use edges::Edge;
use graph::search::first;
use graph::{Graph, Paths};
use std::alloc::{AllocError, Global};

// How many edges a policy may have.
const MOST: usize = 512;

/// The edges of the policy, ascending, and beside each the vaults that are told of it; and what no question
/// is to search for: for each role the roles that it reaches, and of how many edges each vault is told. Its
/// room is reserved when it is made. It means a ledger.
#[derive(Drop)]
pub struct Policy {
    pub(crate) edges: Vec<Edge>,
    pub(crate) told: Vec<VaultSet>,
    pub(crate) paths: RolePaths,
    pub(crate) counts: VaultCounts,
    ghost sorted: { ascends edges.items ≡ true },
    ghost proper: { all_edges edges.items ≡ true },
    ghost few: { vec_len edges ≤ 512 },
    ghost paired: { vec_len told ≡ vec_len edges },
    ghost known: { Tells edges.items paths },
    ghost counted: { Counted told.items counts },
    ghost reserved: { 512 ≤ vec_capacity edges },
    ghost beside: { 512 ≤ vec_capacity told },
}

// How many of some edges rise where the set beside them lacks a vault.
fn due(edges: &[Edge], sets: &[VaultSet], addition: &Addition, vault: usize) -> usize
    ensures count { result ≡ length (filter (λ p. rises addition.now p.0 && not (has_vault p.1 vault)) (zip edges.now sets.now)) }
    ensures few { result ≤ length sets.now }
{
    edges
        .iter()
        .zip(sets)
        .filter(|(edge, set)| addition.rises(**edge) && !set.has(vault))
        .count()
}

impl Policy {
    ghost use Rattle.policy.specs.Additions.{due_of};
    ghost use Rattle.policy.specs.Books.{policy_edges, ledger};

    /// No edges yet. There is room for all that may come.
    pub fn new(alloc: Global) -> Result<Policy, AllocError>
        ensures edges { IfOk result (λ p. (ledger p).edges ≡ []) }
        ensures told { IfOk result (λ p. (k : ℕ) (x : Edge) → is_told (ledger p) k x ≡ false) }
    {
        let edges = Vec::with_capacity(alloc, MOST)?;
        let told = Vec::with_capacity(alloc, MOST)?;
        let paths = RolePaths::alone();
        let counts = VaultCounts::none();
        Ok(Policy {
            edges,
            told,
            paths,
            counts,
        })
    }

    pub fn edges(&self) -> &[Edge]
        ensures { result.now ≡ (ledger self.now).edges }
    {
        &self.edges
    }

    /// Whether there is no room for one edge more.
    pub fn is_full(&self) -> bool
        ensures { result ≡ not (nat_lt (length (ledger self.now).edges) 512) }
    {
        self.edges.len() >= MOST
    }

    // The edges as a graph by themselves.
    fn list(&self) -> EdgeList<'_>
        ensures { result.edges.now ≡ policy_edges self.now }
    {
        EdgeList { edges: &self.edges }
    }

    // Puts an edge that is absent into its place; nobody is told of it.
    #[tactic(auto, using(crate::proofs::Besides::put_in))]
    fn put(&mut self, at: usize, edge: Edge)
        requires edge { is_edge edge ≡ true }
        requires absent { Absent edge (policy_edges self.old) at }
        requires room { vec_len self.old.edges < 512 }
        ensures edges { policy_edges self.new ≡ insert edge (policy_edges self.old) }
        ensures told { (k : ℕ) (x : Edge) → is_told (ledger self.new) k x ≡ is_told (ledger self.old) k x }
    {
        let _ = self.edges.insert(at, edge);
        let _ = self.told.insert(at, VaultSet::none());
        self.paths.gain(edge);
    }

    // Takes the edge out that stands at a place.
    #[tactic(auto, using(crate::proofs::Besides::taken_out))]
    fn take(&mut self, at: usize, edge: Edge) -> VaultSet
        requires { Found edge (policy_edges self.old) at }
        ensures told_before { (k : ℕ) → has_vault result k ≡ is_told (ledger self.old) k edge }
        ensures edges { policy_edges self.new ≡ delete edge (policy_edges self.old) }
        ensures told { (k : ℕ) (x : Edge) → is_told (ledger self.new) k x ≡ (not (same edge x) && is_told (ledger self.old) k x) }
    {
        let told = self.told.remove(at);
        self.counts.fall(told);
        let _ = self.edges.remove(at);
        self.paths.lose(edge, &EdgeList { edges: &self.edges });
        told
    }

    /// Enters an edge that nobody is told of, if it is not there already. Refused with 2 unless it is an
    /// edge, then with 4 if it is absent and there is no room.
    pub fn enter(&mut self, edge: Edge) -> Result<(), PolicyFault>
        ensures answer { result ≡ entry_answer (ledger self.old).edges edge }
        ensures edges { (ledger self.new).edges ≡ with_entry (ledger self.old).edges edge }
        ensures told { (k : ℕ) (x : Edge) → is_told (ledger self.new) k x ≡ is_told (ledger self.old) k x }
    {
        if !edge.is_edge() {
            return Err(PolicyFault::NoEdge);
        }
        match self.list().seek(edge) {
            Ok(_) => Ok(()),
            Err(_) if self.is_full() => Err(PolicyFault::Full),
            Err(at) => {
                self.put(at, edge);
                Ok(())
            }
        }
    }

    /// Takes an edge out, and tells the vaults that were told of it; of an absent one nobody was.
    #[tactic(auto, using(crate::proofs::Besides::told_absent, crate::proofs::Besides::told_kept))]
    pub fn strike_out(&mut self, edge: Edge) -> VaultSet
        ensures told_before { (k : ℕ) → has_vault result k ≡ is_told (ledger self.old) k edge }
        ensures edges { (ledger self.new).edges ≡ delete edge (ledger self.old).edges }
        ensures told { (k : ℕ) (x : Edge) → is_told (ledger self.new) k x ≡ (not (same edge x) && is_told (ledger self.old) k x) }
    {
        match self.list().seek(edge) {
            Ok(at) => self.take(at, edge),
            Err(_) => VaultSet::none(),
        }
    }

    /// Notes that vaults are told of the edge at a place, and tells those that were not before. Past the
    /// last place nothing is noted.
    #[tactic(auto, using(crate::proofs::Besides::beside_here, crate::proofs::Besides::told_more))]
    pub fn tell(&mut self, place: usize, vaults: VaultSet) -> VaultSet
        ensures newly { place < length (ledger self.old).edges → (k : ℕ) → has_vault result k ≡ (has_vault vaults k && not (is_told (ledger self.old) k (slice_index_or (ledger self.old).edges place no_edge))) }
        ensures edges { (ledger self.new).edges ≡ (ledger self.old).edges }
        ensures told { place < length (ledger self.old).edges → (k : ℕ) (x : Edge) → is_told (ledger self.new) k x ≡ (is_told (ledger self.old) k x || (same (slice_index_or (ledger self.old).edges place no_edge) x && has_vault vaults k)) }
        ensures past { length (ledger self.old).edges ≤ place → (k : ℕ) → has_vault result k ≡ false }
        ensures untold { length (ledger self.old).edges ≤ place → (k : ℕ) (x : Edge) → is_told (ledger self.new) k x ≡ is_told (ledger self.old) k x }
    {
        match self.told.get_mut(place) {
            Some(told) => {
                let newly = vaults.without(*told);
                *told = told.union(vaults);
                self.counts.rise(newly);
                newly
            }
            None => VaultSet::none(),
        }
    }

    /// How many edges a vault is told of.
    pub fn told_count(&self, vault: usize) -> usize
        ensures count { result ≡ length (told_of (ledger self.now) vault) }
        ensures few { result ≤ 512 }
    {
        self.counts.of(vault)
    }

    /// From which place on, and up to which, the edges stand that may rise: all places, or, where no role leads
    /// to where the new edge comes from, as to any user, its own place alone.
    #[tactic(auto, using(crate::proofs::Besides::alone_at, crate::proofs::Besides::alone_absent))]
    pub fn rising(&self, addition: &Addition) -> (usize, usize)
        ensures order { result.0 ≤ result.1 }
        ensures within { result.1 ≤ length (ledger self.now).edges }
        ensures outside { (i : ℕ) → i < length (ledger self.now).edges → (i < result.0) ⊎ (result.1 ≤ i) → rises addition.now (slice_index_or (ledger self.now).edges i no_edge) ≡ false }
    {
        if addition.behind != Roles::none() {
            return (0, self.edges.len());
        }
        match self.list().seek(addition.edge) {
            Ok(at) => (at, at + 1),
            Err(_) => (0, 0),
        }
    }

    /// How many edges rise that a vault is not told of.
    pub fn due_count(&self, addition: &Addition, vault: usize) -> usize
        ensures count { result ≡ length (due_of addition.now (ledger self.now) vault) }
        ensures few { result ≤ 512 }
    {
        let (start, end) = self.rising(addition);
        if start == end {
            return 0;
        }
        due(&self.edges, &self.told, addition, vault)
    }
}

// The graph of the policy's edges.
impl Graph for Policy {
    ghost use Rattle.policy.specs.Books.{policy_edges};

    ghost edges = { policy_edges };

    ghost formed = { λ p. p.proper };

    fn holds(&self, edge: Edge) -> bool {
        self.list().holds(edge)
    }

    fn row(&self, from: u16) -> Roles {
        self.list().row(from)
    }
}

// Its paths are known.
impl Paths for Policy {
    fn reached(&self, from: u16) -> Roles {
        self.paths.closure(first(self, from))
    }
}
