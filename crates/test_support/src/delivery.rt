ghost use Rattle.std.specs.Prelude.{◌≡◌};
ghost use Rattle.vaults.specs.Sites.{site_at, alter, asked};
ghost use Rattle.test_support.specs.Delivery.{table_says, performed, delivery_answer, delivered};

use edges::Change;
use refusals::BankFault;
use vaults::Bank;

// Performs a message on a vault's table.
fn perform<B: Bank>(bank: &mut B, vault: usize, message: Change) -> Result<(), BankFault>
    ensures answer { result ≡ asked (table_says message) (B.sites bank.old) vault }
    ensures sites { B.sites bank.new ≡ alter vault (performed message) (B.sites bank.old) }
{
    match message {
        Change::Add(edge) => bank.put(vault, edge),
        Change::Remove(edge) => bank.drop(vault, edge),
    }
}

/// Performs the message that waits first at a vault on its table, and strikes it. One that the table
/// refuses waits on; where none waits, nothing is altered.
pub fn deliver<B: Bank>(bank: &mut B, vault: usize) -> Result<(), BankFault>
    ensures answer { result ≡ delivery_answer (site_at (B.sites bank.old) vault) }
    ensures sites { B.sites bank.new ≡ alter vault delivered (B.sites bank.old) }
{
    let Some(message) = bank.head(vault) else {
        return Ok(());
    };
    perform(bank, vault, message)?;
    bank.strike(vault)
}
