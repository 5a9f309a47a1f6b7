/// What a refusal is about, where that is one among several.
#[derive(Clone, Copy, PartialEq, Eq, Debug)]
pub enum Place {
    /// A vault, by its number in the bank.
    Vault(usize),
    /// A column of a line; the first byte has column 0.
    Column(usize),
    /// A record of a work list; the first has number 0.
    Record(usize),
}
