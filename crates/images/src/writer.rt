ghost use Rattle.std.specs.Prelude.{◌≡◌, ℕ, ◌+◌, ◌*◌, ◌<◌, ◌≤◌, ◌++◌, None, length, drop, IfSome, OnOk, OnErr, IfOk, IfErr};
ghost use Rattle.images.specs.declared.fault.WriteFault.TheVariants.{NoRoom};
ghost use Rattle.image_format.specs.Images.{word};
ghost use Rattle.images.specs.Writing.{lengthened, Meets, Closed, Written};

use crate::cells::edge_at;
use crate::fault::WriteFault;
use image_format::Run;
use stores::Reader;

// The bytes of the longest image, that of 512 runs.
const LONGEST: usize = 2050;

// The cells of users and roles; no other is the cell of an edge.
const CELLS: u16 = 32768;

// An image that is being written: where it stands, how many runs are written, and the last run,
// which is not yet written since more cells may follow.
#[derive(Drop)]
struct Draft<'a> {
    out: &'a mut [u8],
    runs: u16,
    pending: Option<Run>,
}

// Each call says that it writes to the same bytes: a fact about the reference, and of two states.
impl Draft<'_> {
    // A cell follows those of the pending run, or begins one.
    fn push(&mut self, cell: u16)
        requires small { cell < 32768 }
        requires next { Meets self.old.pending cell }
        ensures same_reference { self.new.out.ghost_name ≡ self.old.out.ghost_name }
        ensures same_bytes { self.new.out.now ≡ self.old.out.now }
        ensures same_runs { self.new.runs ≡ self.old.runs }
        ensures longer { self.new.pending ≡ lengthened self.old.pending cell }
    {
        let run = self.pending.unwrap_or(Run {
            first: cell,
            count: 0,
        });
        self.pending = Some(Run {
            count: run.count + 1,
            ..run
        });
    }

    // Writes the pending run, if there is one, after the others.
    fn close(&mut self)
        requires wide { 2050 ≤ length self.old.out.now }
        requires few { IfSome self.old.pending (λ _. self.old.runs < 512) }
        ensures same_reference { self.new.out.ghost_name ≡ self.old.out.ghost_name }
        ensures same_length { length self.new.out.now ≡ length self.old.out.now }
        ensures none { self.new.pending ≡ None }
        ensures closed { Closed self.old.pending self.old.runs self.old.out.now
            self.new.runs self.new.out.now }
    {
        if let Some(run) = self.pending.take() {
            let place = 2 + 4 * usize::from(self.runs);
            self.out[place..place + 4].copy_from_slice(&<[u8; 4]>::from(run));
            self.runs += 1;
        }
    }

    // Writes the count of the runs in front of them, and tells how long the image is.
    fn finish(&mut self) -> usize
        requires { 2 ≤ length self.old.out.now }
        ensures same_reference { self.new.out.ghost_name ≡ self.old.out.ghost_name }
        ensures long { result ≡ 2 + 4 * self.old.runs }
        ensures counted { self.new.out.now ≡ word self.old.runs ++ drop 2 self.old.out.now }
    {
        self.out[..2].copy_from_slice(&self.runs.to_be_bytes());
        2 + 4 * usize::from(self.runs)
    }
}

// Writes the image of a table where there is room for any, and tells how long it is.
fn write_image<R: Reader>(table: &R, out: &mut [u8]) -> usize
    requires { 2050 ≤ length out.old }
    ensures { Written (R.edges table.now) out.old out.new result }
{
    let mut draft = Draft {
        out,
        runs: 0,
        pending: None,
    };
    for cell in 0..CELLS {
        if table.holds(edge_at(u32::from(cell))) {
            draft.push(cell);
        } else {
            draft.close();
        }
    }
    draft.close();
    draft.finish()
}

/// Writes the image of a table at the start of `out` and tells how long it is; no other byte is
/// altered. Refused unless there is room for the longest image.
pub fn write<R: Reader>(table: &R, out: &mut [u8]) -> Result<usize, WriteFault>
    ensures room { OnOk result (2050 ≤ length out.old) }
    ensures written { IfOk result (λ n. Written (R.edges table.now) out.old out.new n) }
    ensures short { OnErr result (length out.old < 2050) }
    ensures fault { IfErr result (λ f. f ≡ NoRoom) }
    ensures same { OnErr result (out.new ≡ out.old) }
{
    if out.len() < LONGEST {
        return Err(WriteFault::NoRoom);
    }
    Ok(write_image(table, out))
}
