ghost use Rattle.std.specs.Prelude.{◌≡◌, [], ◌∷◌};
ghost use Rattle.image_format.specs.Runs.{end, spans};
ghost use Rattle.image_format.specs.Images.{bytes, run_at};

/// A run of cells, one after another: the first of them and how many. Four bytes of an image.
#[derive(Clone, Copy)]
pub struct Run {
    pub first: u16,
    pub count: u16,
}

impl Run {
    /// The cell behind the last.
    pub fn end(&self) -> u32
        ensures { result ≡ end self.now }
    {
        u32::from(self.first) + u32::from(self.count)
    }

    /// Whether a cell is one of the run's.
    pub fn spans(&self, cell: u32) -> bool
        ensures { result ≡ spans self.now cell }
    {
        (u32::from(self.first)..self.end()).contains(&cell)
    }
}

// Each of the two numbers stands in two bytes, the high one first.
impl From<[u8; 4]> for Run {
    ghost from_gives = { λ bs r. r ≡ run_at bs 0 };

    fn from(bytes: [u8; 4]) -> Run {
        let [first_high, first_low, count_high, count_low] = bytes;
        Run {
            first: u16::from_be_bytes([first_high, first_low]),
            count: u16::from_be_bytes([count_high, count_low]),
        }
    }
}

impl From<Run> for [u8; 4] {
    ghost from_gives = { λ r bs. bs ≡ bytes (r ∷ []) };

    fn from(run: Run) -> [u8; 4] {
        let [first_high, first_low] = run.first.to_be_bytes();
        let [count_high, count_low] = run.count.to_be_bytes();
        [first_high, first_low, count_high, count_low]
    }
}
