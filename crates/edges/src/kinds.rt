ghost use Rattle.std.specs.Prelude.{◌≡◌};
ghost use Rattle.edges.specs.Kinds.{kind_of, of_kind};

/// The kinds of vertices. A user privilege is the right to a record; an administrative privilege is
/// the right to add or to remove one edge.
#[derive(Clone, Copy, PartialEq, Eq, Debug)]
pub enum Kind {
    User,
    Role,
    UserPrivilege,
    AdminPrivilege,
}

impl Kind {
    /// The kind of a vertex; none for a number that is no vertex. An Option and no TryFrom, since that
    /// is no error yet: each layer has a refusal of its own for it.
    pub fn of(vertex: u16) -> Option<Kind>
        ensures { result ≡ kind_of vertex }
    {
        match vertex {
            0..64 => Some(Kind::User),
            64..128 => Some(Kind::Role),
            128..256 => Some(Kind::UserPrivilege),
            256..384 => Some(Kind::AdminPrivilege),
            _ => None,
        }
    }

    /// Whether a number is a vertex of this kind.
    pub fn has(self, vertex: u16) -> bool
        ensures { result ≡ of_kind self vertex }
    {
        Kind::of(vertex) == Some(self)
    }
}
