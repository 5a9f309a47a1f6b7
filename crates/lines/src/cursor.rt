ghost use Rattle.std.specs.Prelude.{◌≡◌, ◌+◌, ◌∷◌, [], ◌≤◌, length, take, IfSome, IfNone, IfOk, IfErr};

use crate::fault::TextFault;
use crate::signs::Sign;
use crate::token::Token;

// What is left of a line, from a column on: a part of the borrowed bytes.
#[derive(Clone, Copy)]
pub struct Cursor<'a> {
    pub(crate) text: &'a [u8],
    pub(crate) column: usize,
    ghost within: { column + length text.now ≤ 128 },
}

// A value that was read, and what is left of the line then.
#[derive(Clone, Copy)]
pub struct Read<'a, T> {
    pub(crate) value: T,
    pub(crate) rest: Cursor<'a>,
}

// The first 128 bytes of a line, or all of it.
#[tactic(auto, using(crate::proofs::Fronts::short, crate::proofs::Fronts::long))]
fn front(line: &[u8]) -> &[u8]
    ensures { result.now ≡ take 128 line.now }
{
    if line.len() > 128 { &line[..128] } else { line }
}

impl<'a> Cursor<'a> {
    ghost use Rattle.lines.specs.Reading.{a_byte, a_sign};
    ghost use Rattle.lines.specs.Cursors.{Cut, NextRead, ByteRead, SignRead, Fails};

    // All of a line that is read.
    pub(crate) fn new(line: &'a [u8]) -> Cursor<'a>
        ensures text { result.text.now ≡ take 128 line.now }
        ensures column { result.column ≡ 0 }
    {
        Cursor {
            text: front(line),
            column: 0,
        }
    }

    // The refusal of the byte that comes next, or of the end of the line.
    pub(crate) fn wrong(self) -> TextFault
        ensures { result ≡ TextFault.Malformed self.entry.column }
    {
        let column = self.column;
        TextFault::Malformed { column }
    }

    // Cuts a token of so many bytes off.
    pub(crate) fn cut(self, size: usize) -> Read<'a, Token<'a>>
        requires { size ≤ length self.text.now }
        ensures { Cut size self.entry result.value result.rest }
    {
        Read {
            value: Token {
                text: &self.text[..size],
                column: self.column,
            },
            rest: Cursor {
                text: &self.text[size..],
                column: self.column + size,
            },
        }
    }

    // The byte that comes next as a token of its own, if one does.
    #[tactic(auto, using(crate::proofs::Cuts::next_read))]
    pub(crate) fn next(self) -> Option<Read<'a, Token<'a>>>
        ensures next { IfSome result (λ x. NextRead self.entry x.value x.rest) }
        ensures end { IfNone result (self.entry.text.now ≡ []) }
    {
        if self.text.is_empty() {
            return None;
        }
        Some(self.cut(1))
    }

    // Reads a byte that has to come next.
    #[tactic(auto, using(crate::proofs::Cuts::byte_read, crate::proofs::Cuts::byte_other, crate::proofs::Cuts::byte_none))]
    pub(crate) fn byte(self, byte: u8) -> Result<Cursor<'a>, TextFault>
        ensures read { IfOk result (λ r. ByteRead byte self.entry r) }
        ensures refused { IfErr result (λ f. Fails (a_byte byte ∷ []) self.entry f) }
    {
        let Some(next) = self.next() else {
            return Err(self.wrong());
        };
        if next.value.is(byte) {
            Ok(next.rest)
        } else {
            Err(self.wrong())
        }
    }

    // Reads a sign.
    #[tactic(auto, using(crate::proofs::Cuts::sign_read, crate::proofs::Cuts::sign_other, crate::proofs::Cuts::sign_none))]
    pub(crate) fn sign(self) -> Result<Read<'a, Sign>, TextFault>
        ensures read { IfOk result (λ x. SignRead self.entry x.rest x.value) }
        ensures refused { IfErr result (λ f. Fails (a_sign ∷ []) self.entry f) }
    {
        let Some(next) = self.next() else {
            return Err(self.wrong());
        };
        let Some(value) = next.value.sign() else {
            return Err(self.wrong());
        };
        Ok(Read {
            value,
            rest: next.rest,
        })
    }
}
