ghost use Rattle.std.specs.Prelude.{◌≡◌, ◌<◌, true, false, length, OnOk, OnErr, IfOk, IfErr, slice_index_or};
ghost use Rattle.edge_sets.specs.EdgeSets.{has};
ghost use Rattle.edge_sets.specs.BitRows.{Row};
ghost use Rattle.edge_sets.specs.Cells as cells;
ghost use Rattle.images.specs.declared.fault.ImageFault.TheVariants.{NoImage};
ghost use Rattle.image_format.specs.Images.{taken, image_edges, counted, accepted, Judged, IsImage, IsNoImage};
ghost use Rattle.image_format.proofs.Rounds.{held_table};
ghost use Rattle.images.specs.Reading.{no_run, Beyond, RowOf, role_from};

use crate::fault::ImageFault;
use crate::runs::Runs;
use edge_sets::Roles;
use edge_sets::cell::cell_of;
use edges::Edge;
use image_format::Run;
use stores::Reader;

/// A table that is read from the bytes of an image. That they are one was asked when it was opened,
/// and its runs are not tested again.
#[derive(Drop)]
pub struct Image<'a> {
    pub(crate) bytes: &'a [u8],
    ghost accepted: { accepted bytes.now ≡ true },
}

// Whether bytes are as long as their count of runs says.
fn is_counted(bytes: &[u8]) -> bool
    ensures { result ≡ counted bytes.now }
{
    match bytes.first_chunk() {
        Some(count) => bytes.len() == 2 + 4 * usize::from(u16::from_be_bytes(*count)),
        None => false,
    }
}

// Whether bytes are the image of a set of at most 512 vault edges.
fn is_image(bytes: &[u8]) -> bool
    ensures { Judged bytes.now result }
{
    is_counted(bytes) && bytes.len() == 2 + 4 * Runs::new(bytes).count()
}

// The first role to which an edge from a vertex has no cell below this one; 128 where there is none.
#[tactic(auto, unfolding(crate::specs::Reading::role_from))]
fn role_from(from: u16, cell: u32) -> u16
    ensures { result ≡ role_from from cell }
{
    cell.saturating_sub(u32::from(from) * 256).clamp(64, 128) as u16
}

// The roles that a vertex has an edge to in a run.
#[tactic(auto, using(crate::proofs::Places::spanned_none))]
fn row_of(run: Run, from: u16) -> Roles
    ensures { RowOf run from result.word }
{
    let mut row = Roles::none();
    for role in role_from(from, u32::from(run.first))..role_from(from, run.end()) {
        row = row.with(role);
    }
    row
}

impl<'a> Image<'a> {
    /// The table whose image the bytes are, to the last one. Refused if they are the image of no set
    /// of at most 512 vault edges.
    pub fn open(bytes: &'a [u8]) -> Result<Image<'a>, ImageFault>
        ensures opened { OnOk result ((accepted bytes.now ≡ true) × IsImage bytes.now) }
        ensures bytes { IfOk result (λ i. i.bytes.now ≡ bytes.now) }
        ensures refused { OnErr result ((accepted bytes.now ≡ false) × IsNoImage bytes.now) }
        ensures fault { IfErr result (λ f. f ≡ NoImage) }
    {
        if is_image(bytes) {
            Ok(Image { bytes })
        } else {
            Err(ImageFault::NoImage)
        }
    }

    // How many runs there are.
    #[tactic(auto, using(crate::proofs::Places::runs_long))]
    fn runs(&self) -> usize
        ensures { result ≡ length (taken self.now.bytes.now) }
    {
        (self.bytes.len() - 2) / 4
    }

    // The run in a place.
    #[tactic(auto, using(crate::proofs::Places::runs_long, crate::proofs::Places::run_in))]
    fn run(&self, place: usize) -> Run
        requires { place < length (taken self.now.bytes.now) }
        ensures { result ≡ slice_index_or (taken self.now.bytes.now) place no_run }
    {
        let at = 2 + 4 * place;
        Run::from([
            self.bytes[at],
            self.bytes[at + 1],
            self.bytes[at + 2],
            self.bytes[at + 3],
        ])
    }

    // The place of the first run that ends behind a cell, by halving.
    fn seek(&self, cell: u32) -> usize
        ensures { Beyond cell (taken self.now.bytes.now) result }
    {
        let mut low = 0;
        let mut high = self.runs();
        while low < high {
            let middle = low + (high - low) / 2;
            if self.run(middle).end() <= cell {
                low = middle + 1;
            } else {
                high = middle;
            }
        }
        low
    }

    // Whether one of the runs spans a cell.
    #[tactic(auto, using(crate::proofs::Places::spanned_here, crate::proofs::Places::spanned_nowhere))]
    fn holds_cell(&self, cell: u32) -> bool
        ensures { result ≡ has (image_edges self.now.bytes.now) (cells.edge_at cell) }
    {
        let at = self.seek(cell);
        at < self.runs() && self.run(at).spans(cell)
    }

    // The roles that a vertex has an edge to: those of the runs from its first role on.
    #[tactic(auto, using(crate::proofs::Places::gathered_begins, crate::proofs::Places::gathered_more, crate::proofs::Places::gathered_stops))]
    fn roles_of(&self, from: u16) -> Roles
        ensures { Row (image_edges self.now.bytes.now) from result.word }
    {
        let base = u32::from(from) * 256;
        let mut row = Roles::none();
        for place in self.seek(base + 64)..self.runs() {
            let run = self.run(place);
            if base + 128 <= u32::from(run.first) {
                return row;
            }
            row = row.union(row_of(run, from));
        }
        row
    }
}

impl<'a> Reader for Image<'a> {
    ghost edges = { λ i. image_edges i.bytes.now };

    ghost table = { λ i. held_table i.bytes.now };

    #[tactic(auto, using(crate::proofs::Steps::held_at, crate::proofs::Steps::held_no_other))]
    fn holds(&self, edge: Edge) -> bool {
        edge.is_vault_edge() && self.holds_cell(cell_of(edge))
    }

    #[tactic(auto, using(crate::proofs::Steps::cells_held))]
    fn count(&self) -> usize {
        Runs::new(self.bytes)
            .map(|run| usize::from(run.count))
            .sum()
    }

    fn row(&self, from: u16) -> Roles {
        self.roles_of(from)
    }
}
