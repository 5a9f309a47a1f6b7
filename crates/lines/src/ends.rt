ghost use Rattle.std.specs.Prelude.{◌≡◌, Some, IfOk, IfErr};
ghost use Rattle.edges.specs.Edges.{edge};
ghost use Rattle.lines.specs.Ends.{joined, Missing, FirstMissing};

use crate::fault::TextFault;
use crate::signs::Sign;
use edges::Edge;
use privileges::Privileges;

// The vertex that a node names, and the column where the node stands; no vertex if it is a
// privilege that is not declared.
#[derive(Clone, Copy)]
pub struct Named {
    pub(crate) vertex: Option<u16>,
    pub(crate) column: usize,
}

// The two nodes of a bracket, or of a line.
#[derive(Clone, Copy)]
pub struct Ends {
    pub(crate) from: Named,
    pub(crate) to: Named,
}

impl Named {
    // The vertex; refused with 17 if there is none.
    pub(crate) fn declared(self) -> Result<u16, TextFault>
        ensures vertex { IfOk result (λ v. self.vertex ≡ Some v) }
        ensures undeclared { IfErr result (λ f. Missing self f) }
    {
        self.vertex.ok_or(TextFault::Undeclared {
            column: self.column,
        })
    }
}

impl Ends {
    // The number of the privilege with this sign and these ends, if it is declared.
    pub(crate) fn find(self, privileges: &Privileges, sign: Sign) -> Option<u16>
        ensures { result ≡ joined privileges.now sign self.from.vertex self.to.vertex }
    {
        let edge = Edge {
            from: self.from.vertex?,
            to: self.to.vertex?,
        };
        privileges.find(sign.change(edge))
    }

    // The edge; refused with 17 at the first node that is not declared.
    pub(crate) fn edge(self) -> Result<Edge, TextFault>
        ensures from { IfOk result (λ e. self.from.vertex ≡ Some e.from) }
        ensures to { IfOk result (λ e. self.to.vertex ≡ Some e.to) }
        ensures undeclared { IfErr result (λ f. FirstMissing self.from self.to f) }
    {
        Ok(Edge {
            from: self.from.declared()?,
            to: self.to.declared()?,
        })
    }
}
