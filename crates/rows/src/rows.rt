ghost use Rattle.std.specs.Prelude.{◌≡◌, ◌<◌, ◌≤◌, true, length};
ghost use Rattle.edges.specs.Edges.{vault_edge};
ghost use Rattle.edge_sets.specs.EdgeSets.{◌∈◌, ◌∉◌, insert, delete, all_vault, ascends};
ghost use Rattle.edge_sets.specs.BitRows.{Row};
ghost use Rattle.edge_sets.proofs.Tables.{table_of, few_of};
ghost use Rattle.stores.specs.Stores.{Sought};
ghost use Rattle.rows.specs.Flags.{flagged};

use crate::words::Words;
use edge_sets::Roles;
use edge_sets::cell::cell_of;
use edges::Edge;
use refusals::StoreFault;
use std::alloc::{AllocError, Global};
use stores::store::LIMITS;
use stores::{NewStore, Reader, Store};

/// A store that keeps a row of 256 bits for each user and each role. Its count stands beside the rows,
/// since counting their bits would read all of them.
#[derive(Drop)]
pub struct Rows {
    words: Words,
    count: usize,
    limit: usize,
    ghost sorted: { ascends (flagged words) ≡ true },
    ghost vault: { all_vault (flagged words) ≡ true },
    ghost counted: { length (flagged words) ≡ count },
    ghost few: { count ≤ limit },
    ghost small: { limit ≤ 512 },
}

impl Rows {
    ghost use Rattle.rows.specs.Held.{rows_edges};

    // Whether the bit of an edge is set; only those of vault edges ever are. A cell is widened by `as`,
    // here and below: no From makes a usize of a u32.
    fn seek(&self, edge: Edge) -> bool
        ensures { Sought edge (rows_edges self.now) result }
    {
        if !edge.is_vault_edge() {
            return false;
        }
        self.words.bit(cell_of(edge) as usize)
    }

    // The roles of a row: the second of its words has their bits.
    fn roles_of(&self, from: u16) -> Roles
        ensures { Row (rows_edges self.now) from result.word }
    {
        if from < 128 {
            Roles {
                word: self.words.word(usize::from(from) * 4 + 1),
            }
        } else {
            Roles::none()
        }
    }

    // Sets the bit of an edge that is absent. That it is a vault edge is known at the one call of this;
    // a type for such edges would carry it over one line.
    #[tactic(auto, using(crate::proofs::Flagged::flagged_ascends, crate::proofs::Flagged::set_flag, crate::proofs::Flagged::set_vault, crate::proofs::Flagged::set_counted))]
    fn set(&mut self, edge: Edge)
        requires vault { vault_edge edge ≡ true }
        requires absent { edge ∉ rows_edges self.old }
        requires room { self.old.count < self.old.limit }
        ensures edges { rows_edges self.new ≡ insert edge (rows_edges self.old) }
        ensures limit { self.new.limit ≡ self.old.limit }
    {
        self.words.turn(cell_of(edge) as usize);
        self.count += 1;
    }

    // Clears the bit of an edge that is held; of it, too, that is known at the one call.
    #[tactic(auto, using(crate::proofs::Flagged::flagged_ascends, crate::proofs::Flagged::clear_flag, crate::proofs::Flagged::clear_vault, crate::proofs::Flagged::clear_counted))]
    fn clear(&mut self, edge: Edge)
        requires vault { vault_edge edge ≡ true }
        requires held { edge ∈ rows_edges self.old }
        ensures edges { rows_edges self.new ≡ delete edge (rows_edges self.old) }
        ensures limit { self.new.limit ≡ self.old.limit }
    {
        self.words.turn(cell_of(edge) as usize);
        self.count -= 1;
    }
}

impl Reader for Rows {
    ghost use Rattle.rows.specs.Held.{rows_edges};

    ghost edges = { rows_edges };

    ghost table = { λ r. table_of (rows_edges r) r.count r.limit r.sorted r.vault r.counted r.few r.small };

    fn holds(&self, edge: Edge) -> bool {
        self.seek(edge)
    }

    fn count(&self) -> usize {
        self.count
    }

    fn row(&self, from: u16) -> Roles {
        self.roles_of(from)
    }
}

impl Store for Rows {
    ghost use Rattle.rows.specs.Held.{rows_edges};

    ghost limit = { λ r. r.limit };

    ghost bounded = { λ r. few_of (rows_edges r) r.count r.limit r.counted r.few };

    fn put(&mut self, edge: Edge) -> Result<(), StoreFault> {
        if !edge.is_vault_edge() {
            return Err(StoreFault::NoVaultEdge);
        }
        if self.seek(edge) {
            return Ok(());
        }
        if self.count == self.limit {
            return Err(StoreFault::Full);
        }
        self.set(edge);
        Ok(())
    }

    fn drop(&mut self, edge: Edge) {
        if self.seek(edge) {
            self.clear(edge);
        }
    }

    fn limit(&self) -> usize {
        self.limit
    }
}

impl NewStore for Rows {
    fn new(alloc: Global, limit: usize) -> Result<Rows, AllocError> {
        let words = Words::blank(alloc)?;
        Ok(Rows {
            words,
            count: 0,
            limit: LIMITS.allow(limit),
        })
    }
}
