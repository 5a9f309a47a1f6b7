ghost use Rattle.std.specs.Prelude.{◌≡◌, ◌<◌, ◌≤◌, length, nat_lt};
ghost use Rattle.links.specs.Links.{first};
ghost use Rattle.vaults.specs.Loads.{load_of};
ghost use Rattle.vaults.specs.Sites.{site_at, alter, send_to, strike_at, put_into, drop_from};
ghost use Rattle.stores.specs.Stores.{put_answer};
ghost use Rattle.centre.specs.Worked.{Works, AlteredBy, sent_to, fault_at, store_fault};

use edges::{Change, Edge};
use policy::VaultSet;
use refusals::BankFault;
use rules::CentreFault;
use std::marker::Model;
use vaults::inspection::inspect;
use vaults::{Bank, Load, VaultTable};

/// The vaults that a centre works: all of its bank's, or none if the bank does not pass inspection. It
/// means the list of their sites.
#[derive(Drop)]
pub struct VaultRow<B: Bank> {
    bank: B,
    count: usize,
}

impl<B: Bank> Model for VaultRow<B> {
    ghost use Rattle.std.specs.Prelude.{List, ◌≤◌, length, take};
    ghost use Rattle.vaults.specs.Sites.{Site};

    ghost Value = { List Site };

    ghost view = { λ v. take v.count (B.Bank.sites v.bank) };

    ghost invariant = { λ v. (v.count ≤ 8) × (v.count ≤ length (B.Bank.sites v.bank)) };
}

// How many of the first eight vaults a bank has.
fn size<B: Bank>(bank: &B) -> usize
    ensures { length (B.sites bank.now) ≤ 8 → result ≡ length (B.sites bank.now) }
{
    let mut count = 0;
    while count < 8 && bank.has(count) {
        count += 1;
    }
    count
}

// What a bank refuses at a vault, for the centre.
fn at_vault(vault: usize, fault: BankFault) -> CentreFault
    ensures { result ≡ fault_at vault fault }
{
    match fault {
        BankFault::Link(fault) => CentreFault::Link { vault, fault },
        BankFault::Store(fault) => CentreFault::Store { vault, fault },
        BankFault::NoVault | BankFault::Unfit => CentreFault::NoVault { vault },
    }
}

impl<B: Bank> VaultRow<B> {
    pub(crate) fn new(bank: B) -> VaultRow<B>
        ensures { Works (B.sites bank) result }
    {
        let count = match inspect(&bank) {
            Ok(()) => size(&bank),
            Err(_) => 0,
        };
        VaultRow { bank, count }
    }

    pub(crate) fn count(&self) -> usize
        ensures count { result ≡ length self.now }
        ensures few { result ≤ 8 }
    {
        self.count
    }

    // How much waits and is held at a vault, and how much may.
    pub(crate) fn load(&self, vault: usize) -> Load
        requires { vault < length self.now }
        ensures load { result ≡ load_of (site_at self.now vault) }
        ensures bounded { result.waiting ≤ result.link_limit }
    {
        self.bank.load(vault)
    }

    pub(crate) fn head(&self, vault: usize) -> Option<Change>
        requires { vault < length self.now }
        ensures { result ≡ first (site_at self.now vault).waiting }
    {
        self.bank.head(vault)
    }

    pub(crate) fn table(&self, vault: usize) -> VaultTable<'_, B>
        requires { vault < length self.now }
        ensures { (site_at (B.sites result.bank.now) result.vault).table ≡ (site_at self.now vault).table }
    {
        VaultTable {
            bank: &self.bank,
            vault,
        }
    }

    pub(crate) fn strike(&mut self, vault: usize)
        ensures { self.new ≡ alter vault strike_at self.old }
    {
        let _ = self.bank.strike(vault);
    }

    // Puts an edge into the table of a vault. The refusal of its store is answered whole.
    pub(crate) fn put(&mut self, vault: usize, edge: Edge) -> Result<(), CentreFault>
        requires { vault < length self.old }
        ensures answer { result ≡ store_fault vault (put_answer (site_at self.old vault).store_limit (site_at self.old vault).table edge) }
        ensures sites { self.new ≡ alter vault (put_into edge) self.old }
    {
        match self.bank.put(vault, edge) {
            Ok(()) => Ok(()),
            Err(fault) => Err(at_vault(vault, fault)),
        }
    }

    pub(crate) fn drop(&mut self, vault: usize, edge: Edge)
        ensures { self.new ≡ alter vault (drop_from edge) self.old }
    {
        let _ = self.bank.drop(vault, edge);
    }

    // Sends a message to one vault. No link refuses one in any run, as room for it was asked for, or kept
    // when what it withdraws was sent.
    fn send(&mut self, vault: usize, message: Change)
        ensures { self.new ≡ alter vault (send_to message) self.old }
    {
        let _ = self.bank.send(vault, message);
    }

    // Sends a message to each vault of a set.
    pub(crate) fn send_to(&mut self, to: VaultSet, message: Change)
        ensures { AlteredBy (sent_to to message) self.old self.new }
    {
        for vault in 0..self.count() {
            if to.has(vault) {
                self.send(vault, message);
            }
        }
    }
}
