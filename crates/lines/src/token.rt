ghost use Rattle.std.specs.Prelude.{◌≡◌, ◌↔◌, ◌≤◌, ◌<◌, ◌∷◌, [], drop, true, IsTrue, IfSome, IfNone, IfOk, IfErr};
ghost use Rattle.lines.specs.Spelling.{most, told, all_digits, is_numeral};
ghost use Rattle.lines.specs.Tokens.{sign_told, letter_told};

use crate::fault::TextFault;
use crate::letters::Letter;
use crate::signs::Sign;

// A part of a line, and the column where it stands: a name, which is a letter with the digits of
// its number; or a single byte, as a sign, a bracket, a comma or a space.
#[derive(Clone, Copy)]
pub struct Token<'a> {
    pub(crate) text: &'a [u8],
    pub(crate) column: usize,
}

// The number that digits tell, if the letter takes it.
#[tactic(auto, using(crate::proofs::Digits::told_none, crate::proofs::Digits::told_low, crate::proofs::Digits::told_high, crate::proofs::Digits::told_one, crate::proofs::Digits::told_large, crate::proofs::Digits::told_all))]
fn number_of(digits: &[u8], letter: Letter) -> Option<u16>
    requires { all_digits digits.now ≡ true }
    ensures value { IfSome result (λ n. n ≡ told 0 digits.now) }
    ensures bound { IfSome result (λ n. n ≤ most letter) }
    ensures too_large { IfNone result (most letter < told 0 digits.now) }
{
    let mut number = 0u16;
    for digit in digits {
        number = number * 10 + u16::from(*digit - b'0');
        if number > letter.most() {
            return None;
        }
    }
    Some(number)
}

impl<'a> Token<'a> {
    // Whether it is just this byte.
    pub(crate) fn is(self, byte: u8) -> bool
        ensures { IsTrue result ↔ (self.entry.text.now ≡ byte ∷ []) }
    {
        match self.text {
            [only] => *only == byte,
            _ => false,
        }
    }

    // The sign that it is, if it is one.
    pub(crate) fn sign(self) -> Option<Sign>
        ensures { result ≡ sign_told self.entry.text.now }
    {
        match self.text {
            [only] => Sign::of(*only),
            _ => None,
        }
    }

    // The letter of a node that it is, if it is one.
    pub(crate) fn letter(self) -> Option<Letter>
        ensures { result ≡ letter_told self.entry.text.now }
    {
        match self.text {
            [only] => Letter::of_node(*only),
            _ => None,
        }
    }

    // The number of a name of this letter; refused at the letter if it is out of range.
    #[tactic(auto, using(crate::proofs::Digits::name_long, crate::proofs::Digits::numeral_digits))]
    pub(crate) fn number(self, letter: Letter) -> Result<u16, TextFault>
        requires { is_numeral (drop 1 self.text.now) ≡ true }
        ensures value { IfOk result (λ n. n ≡ told 0 (drop 1 self.entry.text.now)) }
        ensures bound { IfOk result (λ n. n ≤ most letter) }
        ensures too_large { IfErr result (λ f. most letter < told 0 (drop 1 self.entry.text.now)) }
        ensures fault { IfErr result (λ f. f ≡ TextFault.OutOfRange self.entry.column) }
    {
        number_of(&self.text[1..], letter).ok_or(TextFault::OutOfRange {
            column: self.column,
        })
    }
}
