ghost use Rattle.std.specs.Prelude.{◌≡◌, ◌∷◌, [], ◌≤◌, length, OnOk, IfOk, IfErr};
ghost use Rattle.lines.specs.Reading.{a_byte};
ghost use Rattle.lines.specs.Forms.{two_nodes, declare_form, keep_form, seat_form, open_form, deliver_form, command_form, form_of};
ghost use Rattle.lines.specs.Cursors.{Fails};
ghost use Rattle.lines.specs.Drafts.{KeywordRead, NodesRead, DraftRead, NotEnded};

use crate::cursor::{Cursor, Read};
use crate::draft::Draft;
use crate::ends::{Ends, Named};
use crate::fault::TextFault;
use crate::letters::Letter;
use privileges::Privileges;

// How deep a node may be nested; the bracket of the privilege that is declared is one of its
// levels.
const DEEPEST: u8 = 8;

impl<'a> Cursor<'a> {
    // Reads the letter that a line begins with, and the space behind it.
    #[tactic(auto, using(crate::proofs::Parts::keyword_read, crate::proofs::Parts::keyword_fails, crate::proofs::Parts::keyword_none))]
    fn keyword(self, byte: u8) -> Result<Cursor<'a>, TextFault>
        ensures read { IfOk result (λ r. KeywordRead byte self.entry r) }
        ensures refused { IfErr result (λ f. Fails (a_byte byte ∷ a_byte 32 ∷ []) self.entry f) }
    {
        self.byte(byte)?.byte(b' ')
    }

    // Reads two nodes with a space between them.
    #[tactic(auto, using(crate::proofs::Parts::nodes_read, crate::proofs::Parts::nodes_fail_before, crate::proofs::Parts::nodes_fail_between, crate::proofs::Parts::nodes_fail_after))]
    fn nodes(self, privileges: &Privileges) -> Result<Read<'a, Ends>, TextFault>
        ensures read { IfOk result (λ x. NodesRead privileges.now self.entry x.rest x.value) }
        ensures refused { IfErr result (λ f. Fails two_nodes self.entry f) }
    {
        let from = self.node(privileges, DEEPEST)?;
        let right = from.rest.byte(b' ')?;
        let to = right.node(privileges, DEEPEST)?;
        Ok(Read {
            value: Ends {
                from: Named {
                    vertex: from.value,
                    column: self.column,
                },
                to: Named {
                    vertex: to.value,
                    column: right.column,
                },
            },
            rest: to.rest,
        })
    }

    #[tactic(auto, using(crate::proofs::Parts::declare_read))]
    pub(crate) fn declare(self, privileges: &Privileges) -> Result<Read<'a, Draft>, TextFault>
        ensures read { IfOk result (λ x. DraftRead privileges.now declare_form self.entry x.rest x.value) }
        ensures refused { IfErr result (λ f. Fails declare_form self.entry f) }
    {
        let sign = self.keyword(b'D')?.sign()?;
        let ends = sign.rest.bracket(privileges, DEEPEST - 1)?;
        Ok(Read {
            value: Draft::Declare {
                sign: sign.value,
                ends: ends.value,
            },
            rest: ends.rest,
        })
    }

    #[tactic(auto, using(crate::proofs::Parts::keep_read))]
    pub(crate) fn keep(self, privileges: &Privileges) -> Result<Read<'a, Draft>, TextFault>
        ensures read { IfOk result (λ x. DraftRead privileges.now keep_form self.entry x.rest x.value) }
        ensures refused { IfErr result (λ f. Fails keep_form self.entry f) }
    {
        let start = self.keyword(b'K')?;
        let node = start.node(privileges, DEEPEST)?;
        let vault = node.rest.byte(b' ')?.number(Letter::Vault)?;
        Ok(Read {
            value: Draft::Keep {
                privilege: Named {
                    vertex: node.value,
                    column: start.column,
                },
                vault: vault.value,
            },
            rest: vault.rest,
        })
    }

    #[tactic(auto, using(crate::proofs::Parts::seat_read))]
    pub(crate) fn seat(self, privileges: &Privileges) -> Result<Read<'a, Draft>, TextFault>
        ensures read { IfOk result (λ x. DraftRead privileges.now seat_form self.entry x.rest x.value) }
        ensures refused { IfErr result (λ f. Fails seat_form self.entry f) }
    {
        let nodes = self.keyword(b'S')?.nodes(privileges)?;
        Ok(Read {
            value: Draft::Seat { ends: nodes.value },
            rest: nodes.rest,
        })
    }

    pub(crate) fn open(self) -> Result<Read<'a, Draft>, TextFault>
        ensures read { IfOk result (λ x. DraftRead [] open_form self.entry x.rest x.value) }
        ensures refused { IfErr result (λ f. Fails open_form self.entry f) }
    {
        let rest = self.byte(b'O')?;
        Ok(Read {
            value: Draft::Open,
            rest,
        })
    }

    #[tactic(auto, using(crate::proofs::Parts::deliver_read))]
    pub(crate) fn deliver(self) -> Result<Read<'a, Draft>, TextFault>
        ensures read { IfOk result (λ x. DraftRead [] deliver_form self.entry x.rest x.value) }
        ensures refused { IfErr result (λ f. Fails deliver_form self.entry f) }
    {
        let vault = self.keyword(b'T')?.number(Letter::Vault)?;
        Ok(Read {
            value: Draft::Deliver { vault: vault.value },
            rest: vault.rest,
        })
    }

    // Reads a command: a user, a sign and two nodes.
    pub(crate) fn command(self, privileges: &Privileges) -> Result<Read<'a, Draft>, TextFault>
        ensures read { IfOk result (λ x. DraftRead privileges.now command_form self.entry x.rest x.value) }
        ensures refused { IfErr result (λ f. Fails command_form self.entry f) }
    {
        let user = self.number(Letter::User)?;
        let sign = user.rest.byte(b' ')?.sign()?;
        let nodes = sign.rest.byte(b' ')?.nodes(privileges)?;
        Ok(Read {
            value: Draft::Command {
                user: user.value,
                sign: sign.value,
                ends: nodes.value,
            },
            rest: nodes.rest,
        })
    }

    // Nothing may come any more, and nothing may have been cut off.
    pub(crate) fn end(self, line: &[u8]) -> Result<(), TextFault>
        ensures ended { OnOk result (self.entry.text.now ≡ []) }
        ensures short { OnOk result (length line.now ≤ 128) }
        ensures refused { IfErr result (λ f. NotEnded line.now self.entry f) }
    {
        if self.text.is_empty() && line.len() <= 128 {
            Ok(())
        } else {
            Err(self.wrong())
        }
    }
}
