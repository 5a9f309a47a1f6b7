ghost use Rattle.std.specs.Prelude.{◌≡◌, Ok, Err, length, MatchResult};
ghost use Rattle.links.specs.Links.{first};
ghost use Rattle.vaults.specs.Sites.{site_at};
ghost use Rattle.vaults.specs.Loads.{load_of};
ghost use Rattle.centre.specs.Offices.{held};
ghost use Rattle.centre.specs.Asked.{of_vault};

use crate::office::Office;
use edges::{Change, Edge};
use policy::Policy;
use precedence::Precedence;
use rules::CentreFault;
use vaults::{Bank, Load, VaultTable};

// Questions, at any stage. None alters anything. One about a vault that is not there is refused with 9.
impl<B: Bank, R: Precedence> Office<B, R> {
    /// The edges of the policy, ascending.
    pub fn edges(&self) -> &[Edge]
        ensures { result.now ≡ (held self.now).ledger.edges }
    {
        self.policy.edges()
    }

    /// How many vaults are worked.
    pub fn vault_count(&self) -> usize
        ensures { result ≡ length (held self.now).sites }
    {
        self.vaults.count()
    }

    fn ask_vault(&self, vault: usize) -> Result<(), CentreFault>
        ensures { result ≡ of_vault (held self.now) vault (λ v. tt) }
    {
        if vault < self.vaults.count() {
            Ok(())
        } else {
            Err(CentreFault::NoVault { vault })
        }
    }

    /// How many edges a vault is told of.
    pub fn told_count(&self, vault: usize) -> Result<usize, CentreFault>
        ensures { result ≡ of_vault (held self.now) vault (λ v. length v.told) }
    {
        self.ask_vault(vault)?;
        Ok(self.policy.told_count(vault))
    }

    /// Whether a vault keeps a user privilege.
    pub fn keeps(&self, vault: usize, privilege: u16) -> Result<bool, CentreFault>
        ensures { result ≡ of_vault (held self.now) vault (λ v. v.kept privilege) }
    {
        self.ask_vault(vault)?;
        Ok(self.keeping.of(privilege).has(vault))
    }

    /// How much waits and is held at a vault, and the limits of its link and its store.
    pub fn load(&self, vault: usize) -> Result<Load, CentreFault>
        ensures { result ≡ of_vault (held self.now) vault (λ v. load_of v.site) }
    {
        self.ask_vault(vault)?;
        Ok(self.vaults.load(vault))
    }

    /// The first message that waits at a vault, or none.
    pub fn head(&self, vault: usize) -> Result<Option<Change>, CentreFault>
        ensures { result ≡ of_vault (held self.now) vault (λ v. first v.site.waiting) }
    {
        self.ask_vault(vault)?;
        Ok(self.vaults.head(vault))
    }

    /// The table of a vault, to be read by sessions and images.
    pub fn table(&self, vault: usize) -> Result<VaultTable<'_, B>, CentreFault>
        ensures { MatchResult result (λ t. of_vault (held self.now) vault (λ v. v.site.table) ≡ Ok (site_at (B.sites t.bank.now) t.vault).table) (λ f. of_vault (held self.now) vault (λ v. v.site.table) ≡ Err f) }
    {
        self.ask_vault(vault)?;
        Ok(self.vaults.table(vault))
    }
}
