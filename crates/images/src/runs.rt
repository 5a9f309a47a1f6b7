ghost use Rattle.std.specs.Prelude.{◌≡◌, ◌≤◌, length};
ghost use Rattle.std.specs.Iterator.{YieldsFirst, item_count};
ghost use Rattle.std.specs.Iterator.Runs.{YieldsInOrder};
ghost use Rattle.edge_sets.specs.EdgeSets.{all_vault};
ghost use Rattle.image_format.specs.Runs.{edges_of, fits};
ghost use Rattle.image_format.specs.Images.{taken};
ghost use Rattle.images.specs.Reading.{ahead};

use crate::cells::is_vault_cell;
use image_format::Run;

// The runs in the bytes of an image, one after another, up to the first that does not fit: the
// bytes that are still to be read, the least cell at which the next run may begin, and how many
// more edges there may be.
#[derive(Drop)]
pub(crate) struct Runs<'a> {
    rest: &'a [u8],
    least: u32,
    room: u32,
}

// Whether all cells of a run are those of vault edges.
fn are_vault_cells(run: Run) -> bool
    ensures { result ≡ all_vault (edges_of run) }
{
    (u32::from(run.first)..run.end()).all(is_vault_cell)
}

impl<'a> Runs<'a> {
    // All of them, behind their count.
    #[tactic(auto, using(crate::proofs::Steps::few_front))]
    pub(crate) fn new(bytes: &'a [u8]) -> Runs<'a>
        ensures all { ahead result ≡ taken bytes.now }
        ensures few { length (ahead result) ≤ 512 }
        ensures in_order { YieldsInOrder (YieldsFirst ahead) ahead }
    {
        let rest = match bytes {
            [_, _, rest @ ..] => rest,
            _ => &[],
        };
        Runs {
            rest,
            least: 0,
            room: 512,
        }
    }

    // Whether a run may come next.
    fn takes(&self, run: Run) -> bool
        ensures { result ≡ fits self.now.least self.now.room run }
    {
        let in_order = self.least <= u32::from(run.first);
        let few = 0 < run.count && u32::from(run.count) <= self.room;
        in_order && few && are_vault_cells(run)
    }
}

// The next run may not touch the one that came.
impl Iterator for Runs<'_> {
    type Item = Run;

    ghost next_gives = { YieldsFirst ahead };

    ghost remaining = { item_count ahead };

    #[tactic(auto, using(crate::proofs::Steps::progress))]
    fn next(&mut self) -> Option<Run> {
        let (bytes, rest) = self.rest.split_first_chunk()?;
        let run = Run::from(*bytes);
        if !self.takes(run) {
            return None;
        }
        self.rest = rest;
        self.least = run.end() + 1;
        self.room -= u32::from(run.count);
        Some(run)
    }
}
