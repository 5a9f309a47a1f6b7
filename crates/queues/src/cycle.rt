ghost use Rattle.std.specs.Prelude.{◌-◌, ◌≤◌};

use links::link::LIMITS;

/// The places in use of a ring of `limit` places: `count` of them, from `start` on.
#[derive(Drop)]
pub struct Cycle {
    pub(crate) limit: usize,
    pub(crate) start: usize,
    pub(crate) count: usize,
    ghost small: { limit ≤ 1024 },
    ghost begun: { start ≤ limit - 1 },
    ghost few: { count ≤ limit },
}

// In each clause f says which message lies in each place. A limit that stays is said by each call that
// alters, as an invariant knows of one state alone; so it is in the queue, and in every store.
impl Cycle {
    ghost use Rattle.std.specs.Prelude.{◌≡◌, ℕ, ◌+◌, ◌<◌, ◌≤◌, [], ◌∷◌, ◌++◌, length};
    ghost use Rattle.edges.specs.declared.edges.Change.{Change};
    ghost use Rattle.links.specs.Links.{link_limit, rest};
    ghost use Rattle.queues.specs.Cycles.{place, next_place, waits, Else};

    // No place in use, of as many as a link may have that is made with `wanted`.
    #[tactic(auto, using(crate::proofs::Cycles::waits_none))]
    pub(crate) fn new(wanted: usize) -> Cycle
        ensures limit { result.limit ≡ link_limit wanted }
        ensures list { (f : ℕ → Change) → waits f result ≡ [] }
    {
        Cycle {
            limit: LIMITS.allow(wanted),
            start: 0,
            count: 0,
        }
    }

    // The k-th place from the start on.
    pub(crate) fn place(&self, k: usize) -> usize
        requires some { 0 < self.now.limit }
        requires within { k ≤ self.now.limit }
        ensures value { result ≡ place self.now.limit self.now.start k }
        ensures bound { result < self.now.limit }
    {
        let at = self.start + k;
        if at < self.limit { at } else { at - self.limit }
    }

    #[tactic(auto, using(crate::specs::Lengths::waits_length))]
    pub(crate) fn count(&self) -> usize
        ensures { (f : ℕ → Change) → result ≡ length (waits f self.now) }
    {
        self.count
    }

    // Takes the next place into use: f is what lay in each place before, g what lies there now.
    #[tactic(auto, using(crate::proofs::Cycles::waits_more))]
    pub(crate) fn grow(&mut self)
        requires { self.old.count < self.old.limit }
        ensures limit { self.new.limit ≡ self.old.limit }
        ensures list { (f g : ℕ → Change) → Else f g (next_place self.old)
            → waits g self.new ≡ waits f self.old ++ (g (next_place self.old) ∷ []) }
    {
        self.count += 1;
    }

    // Frees the first place in use, if there is one.
    #[tactic(auto, using(crate::proofs::Cycles::waits_rest, crate::proofs::Cycles::waits_none))]
    pub(crate) fn advance(&mut self)
        ensures limit { self.new.limit ≡ self.old.limit }
        ensures list { (f : ℕ → Change) → waits f self.new ≡ rest (waits f self.old) }
    {
        if self.count > 0 {
            self.start = self.place(1);
            self.count -= 1;
        }
    }
}
