ghost use Rattle.std.specs.Prelude.{◌≡◌, ℕ, false, IfNone, IfSome, bit_or};
ghost use Rattle.edge_sets.specs.BitRows.{has_role, role_word, is_beyond, LowestBeyond};

use edges::Kind;

/// A set of roles in one word: bit k is for role 64 + k.
#[derive(Clone, Copy, PartialEq, Eq)]
pub struct Roles {
    pub word: u64,
}

impl Roles {
    /// The set without roles.
    pub fn none() -> Roles
        ensures { result.word ≡ 0 }
    {
        Roles { word: 0 }
    }

    /// The set of one role; none where the number is no role.
    pub fn only(role: u16) -> Roles
        ensures { result.word ≡ role_word role }
    {
        if Kind::Role.has(role) {
            Roles {
                word: 1u64 << (role - 64),
            }
        } else {
            Roles::none()
        }
    }

    /// Whether a number is one of the roles. It is asked of each edge of a policy in turn, so it is computed
    /// without a branch, which would often be guessed wrong.
    pub fn has(self, role: u16) -> bool
        ensures { result ≡ has_role self.word role }
    {
        (role / 64 == 1) & ((self.word >> (role % 64)) % 2 == 1)
    }

    /// These roles and one more; the same ones where the number is no role.
    pub fn with(self, role: u16) -> Roles
        ensures { result.word ≡ bit_or self.word (role_word role) }
    {
        self.union(Roles::only(role))
    }

    /// The roles of either set.
    pub fn union(self, other: Roles) -> Roles
        ensures { result.word ≡ bit_or self.word other.word }
    {
        Roles {
            word: self.word | other.word,
        }
    }

    /// The lowest role that this set has and another lacks.
    #[tactic(auto, using(crate::proofs::BitRows::beyond_tells))]
    pub fn beyond(self, other: Roles) -> Option<u16>
        ensures none { IfNone result ((v : ℕ) → is_beyond self.word other.word v ≡ false) }
        ensures lowest { IfSome result (LowestBeyond self.word other.word) }
    {
        let beyond = self.word & !other.word;
        if beyond == 0 {
            return None;
        }
        // The cast loses nothing, and a try_from would leave a case that never comes.
        Some(64 + beyond.trailing_zeros() as u16)
    }
}
