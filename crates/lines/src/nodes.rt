ghost use Rattle.std.specs.Prelude.{◌≡◌, ◌∷◌, [], IfOk, IfErr};
ghost use Rattle.lines.specs.Reading.{a_node, bracket};
ghost use Rattle.lines.specs.Cursors.{Fails, NodeRead, BracketRead};

use crate::cursor::{Cursor, Read};
use crate::ends::{Ends, Named};
use crate::fault::TextFault;
use privileges::Privileges;

impl<'a> Cursor<'a> {
    // Reads a node to the vertex that it names, with at most `depth` brackets in one another.
    #[cycle(nodes)]
    #[tactic(auto, using(crate::proofs::Composing::none_node, crate::proofs::Composing::no_node, crate::proofs::Composing::too_deep, crate::proofs::Composing::inner_fails, crate::proofs::Composing::pair_named, crate::proofs::Composing::name_fails, crate::proofs::Composing::leaf_read))]
    pub(crate) fn node(
        self,
        privileges: &Privileges,
        depth: u8,
    ) -> Result<Read<'a, Option<u16>>, TextFault>
        ensures read { IfOk result (λ x. NodeRead privileges.now depth self.entry x.rest x.value) }
        ensures refused { IfErr result (λ f. Fails (a_node depth ∷ []) self.entry f) }
    {
        let Some(next) = self.next() else {
            return Err(self.wrong());
        };
        if let Some(sign) = next.value.sign() {
            if depth == 0 {
                return Err(TextFault::TooDeep {
                    column: self.column,
                });
            }
            let ends = next.rest.bracket(privileges, depth - 1)?;
            return Ok(Read {
                value: ends.value.find(privileges, sign),
                rest: ends.rest,
            });
        }
        let Some(letter) = next.value.letter() else {
            return Err(self.wrong());
        };
        let number = self.number(letter)?;
        Ok(Read {
            value: Some(letter.first() + number.value),
            rest: number.rest,
        })
    }

    // Reads a bracket behind its sign: two nodes with a comma between them.
    #[cycle(nodes)]
    #[tactic(auto, using(crate::proofs::Composing::open_fails, crate::proofs::Composing::left_fails, crate::proofs::Composing::comma_fails, crate::proofs::Composing::right_fails, crate::proofs::Composing::close_fails, crate::proofs::Composing::bracket_read))]
    pub(crate) fn bracket(
        self,
        privileges: &Privileges,
        depth: u8,
    ) -> Result<Read<'a, Ends>, TextFault>
        ensures read { IfOk result (λ x. BracketRead privileges.now depth self.entry x.rest x.value) }
        ensures refused { IfErr result (λ f. Fails (bracket depth []) self.entry f) }
    {
        let left = self.byte(b'(')?;
        let from = left.node(privileges, depth)?;
        let right = from.rest.byte(b',')?;
        let to = right.node(privileges, depth)?;
        let rest = to.rest.byte(b')')?;
        Ok(Read {
            value: Ends {
                from: Named {
                    vertex: from.value,
                    column: left.column,
                },
                to: Named {
                    vertex: to.value,
                    column: right.column,
                },
            },
            rest,
        })
    }
}
