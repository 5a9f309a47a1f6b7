ghost use Rattle.std.specs.Prelude.{◌≡◌, ◌∷◌, [], ◌≤◌, length, IfOk, IfErr};
ghost use Rattle.std.specs.List.{prefix_len};
ghost use Rattle.lines.specs.Spelling.{is_digit};
ghost use Rattle.lines.specs.Reading.{a_letter};
ghost use Rattle.lines.specs.Tokens.{numeral_size};
ghost use Rattle.lines.specs.Cursors.{Fails, NameCut, NameRead};

use crate::cursor::{Cursor, Read};
use crate::fault::TextFault;
use crate::letters::Letter;
use crate::token::Token;

// How many digits a text begins with.
fn digits_length(text: &[u8]) -> usize
    ensures size { result ≡ prefix_len is_digit text.now }
    ensures within { result ≤ length text.now }
{
    text.iter().take_while(|byte| byte.is_ascii_digit()).count()
}

// How many of them are the digits of one number.
fn numeral_length(text: &[u8]) -> usize
    ensures size { result ≡ numeral_size text.now }
    ensures within { result ≤ length text.now }
{
    match text {
        [b'0', ..] => 1,
        _ => digits_length(text),
    }
}

impl<'a> Cursor<'a> {
    // Cuts a name of this letter off: the letter and the digits of its number, however large.
    #[tactic(auto, using(crate::proofs::Digits::no_name, crate::proofs::Digits::other_letter, crate::proofs::Digits::no_digits, crate::proofs::Digits::name_cut))]
    fn name(self, letter: Letter) -> Result<Read<'a, Token<'a>>, TextFault>
        ensures cut { IfOk result (λ x. NameCut letter self.entry x.value x.rest) }
        ensures refused { IfErr result (λ f. Fails (a_letter letter ∷ []) self.entry f) }
    {
        let Some(next) = self.next() else {
            return Err(self.wrong());
        };
        if !next.value.is(letter.byte()) {
            return Err(self.wrong());
        }
        let digits = numeral_length(next.rest.text);
        if digits == 0 {
            return Err(next.rest.wrong());
        }
        Ok(self.cut(1 + digits))
    }

    // Reads a name of this letter to its number.
    #[tactic(auto, using(crate::proofs::Digits::named, crate::proofs::Digits::name_read, crate::proofs::Digits::name_large))]
    pub(crate) fn number(self, letter: Letter) -> Result<Read<'a, u16>, TextFault>
        ensures read { IfOk result (λ x. NameRead letter self.entry x.rest x.value) }
        ensures refused { IfErr result (λ f. Fails (a_letter letter ∷ []) self.entry f) }
    {
        let name = self.name(letter)?;
        Ok(Read {
            value: name.value.number(letter)?,
            rest: name.rest,
        })
    }
}
