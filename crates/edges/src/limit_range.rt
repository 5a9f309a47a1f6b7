ghost use Rattle.std.specs.Prelude.{◌≡◌, ◌≤◌};
ghost use Rattle.edges.specs.LimitRange.{is_limit, limit_of};

/// The limits that something may be made with: `least` to `most`.
#[derive(Clone, Copy)]
pub struct LimitRange {
    pub least: usize,
    pub most: usize,
}

impl LimitRange {
    /// Whether a limit is one of them.
    pub fn has(&self, limit: usize) -> bool
        ensures { result ≡ is_limit self.now limit }
    {
        self.least <= limit && limit <= self.most
    }

    /// The limit of what is made with `wanted`: with any number that is none of them it is 0, which is a
    /// limit too, of what takes nothing; so there is no Option.
    pub fn allow(&self, wanted: usize) -> usize
        ensures value { result ≡ limit_of self.now wanted }
        ensures bound { result ≤ self.now.most }
    {
        if self.has(wanted) { wanted } else { 0 }
    }
}
