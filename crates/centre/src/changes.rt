ghost use Rattle.std.specs.Prelude.{◌≡◌, ◌<◌, ◌≤◌, true, Ok, length};
ghost use Rattle.edges.specs.declared.edges.Change.TheVariants.{Add, Remove};
ghost use Rattle.edges.specs.Edges.{edge_of};
ghost use Rattle.privileges.specs.Privileges.{is_proper};
ghost use Rattle.rules.specs.Installation.{Stage};
ghost use Rattle.rules.proofs.Invariant.{InvariantHolds};
ghost use Rattle.policy.specs.Additions.{due_number};
ghost use Rattle.centre.specs.Holding.{installation};
ghost use Rattle.centre.specs.Offices.{held};
ghost use Rattle.centre.specs.Room.{store_fits, link_fits, earliest, room_answer};
ghost use Rattle.centre.specs.Sendings.{Announced, Withdrawn};
ghost use Rattle.centre.specs.Sayings.{Changed};

use crate::office::Office;
use edges::{Change, Edge};
use graph::Graph;
use policy::{Addition, VaultSet};
use precedence::Precedence;
use rules::CentreFault;
use vaults::Bank;

// Whether a vault has room for an addition.
#[derive(Clone, Copy)]
struct Room {
    store: bool,
    link: bool,
}

// The vault that was found before, or else this one if it does not fit.
fn earliest(found: Option<usize>, vault: usize, fits: bool) -> Option<usize>
    ensures { result ≡ earliest found vault fits }
{
    match found {
        None if !fits => Some(vault),
        _ => found,
    }
}

impl<B: Bank, R: Precedence> Office<B, R> {
    // How many edges an addition brings to a vault.
    fn due_number(&self, addition: &Addition, vault: usize) -> usize
        ensures count { result ≡ due_number addition.now (held self.now).ledger vault }
        ensures few { result ≤ 513 }
    {
        if addition.concerned.has(vault) {
            self.policy.due_count(addition, vault) + 1
        } else {
            0
        }
    }

    // What room there is at a vault: in its store for all that it is told of and for what an addition
    // brings; in its link for what waits, for the withdrawal of all that the vault is told of, and for
    // what the addition brings and its withdrawal.
    fn room(&self, addition: &Addition, vault: usize) -> Room
        requires { vault < length self.now.vaults }
        ensures store { result.store ≡ store_fits addition.now (held self.now) vault }
        ensures link { result.link ≡ link_fits addition.now (held self.now) vault }
    {
        let told = self.policy.told_count(vault);
        let due = self.due_number(addition, vault);
        let load = self.vaults.load(vault);
        Room {
            store: told + due <= load.store_limit,
            link: told + 2 * due <= load.link_limit - load.waiting,
        }
    }

    // Whether there is room at every vault for an addition: 5 at the lowest whose store is short of it,
    // then 6 at the lowest whose link is.
    #[tactic(auto, using(crate::proofs::Shorts::shorts))]
    fn ask_room(&self, addition: &Addition) -> Result<(), CentreFault>
        ensures { result ≡ room_answer addition.now (held self.now) }
    {
        let mut short_link = None;
        for vault in 0..self.vaults.count() {
            let room = self.room(addition, vault);
            if !room.store {
                return Err(CentreFault::StoreRoom { vault });
            }
            short_link = earliest(short_link, vault, room.link);
        }
        match short_link {
            Some(vault) => Err(CentreFault::LinkRoom { vault }),
            None => Ok(()),
        }
    }

    // Sends each edge that rises to the vaults concerned that are not told of it, in order.
    #[tactic(auto, using(crate::proofs::Announcing::announces_to_nobody))]
    fn announce(&mut self, addition: &Addition)
        ensures { Announced addition.now (held self.old).ledger.edges (held self.old) (held self.new) }
    {
        if addition.concerned == VaultSet::none() {
            return;
        }
        let (start, end) = self.policy.rising(addition);
        for place in start..end {
            let edge = self.policy.edges()[place];
            if !addition.rises(edge) {
                continue;
            }
            let newly = self.policy.tell(place, addition.concerned);
            self.vaults.send_to(newly, Change::Add(edge));
        }
    }

    // Adds an edge. One that is there already alters nothing. Refused with 4 if the policy is full, then
    // with 5 or 6 if a store or a link is short of room.
    pub(crate) fn add(&mut self, edge: Edge) -> Result<(), CentreFault>
        requires { is_proper self.old.names edge ≡ true }
        ensures change { (t : Stage) → InvariantHolds (installation t (held self.old)) → Changed (installation t (held self.old)) (Add edge) result (installation t (held self.new)) }
        ensures rule { self.new.rule ≡ self.old.rule }
    {
        if self.policy.holds(edge) {
            return Ok(());
        }
        if self.policy.is_full() {
            return Err(CentreFault::PolicyFull);
        }
        let addition = Addition::new(&self.policy, &self.keeping, edge);
        self.ask_room(&addition)?;
        let _ = self.policy.enter(edge);
        self.announce(&addition);
        Ok(())
    }

    // Takes an edge out, and sends its withdrawal to the vaults that are told of it.
    fn take_out(&mut self, edge: Edge)
        ensures { Withdrawn edge (held self.old) (held self.new) }
    {
        let told = self.policy.strike_out(edge);
        self.vaults.send_to(told, Change::Remove(edge));
    }

    // Carries a change out, if there is room for it; a withdrawal needs none.
    pub(crate) fn change(&mut self, change: Change) -> Result<(), CentreFault>
        requires { is_proper self.old.names (edge_of change) ≡ true }
        ensures change { (t : Stage) → InvariantHolds (installation t (held self.old)) → Changed (installation t (held self.old)) change result (installation t (held self.new)) }
        ensures rule { self.new.rule ≡ self.old.rule }
    {
        match change {
            Change::Add(edge) => self.add(edge),
            Change::Remove(edge) => {
                self.take_out(edge);
                Ok(())
            }
        }
    }
}
