/// Where two texts differ first: the number of the line, from 1, and both lines; a text that is over has
/// none.
#[derive(Clone, Copy)]
pub struct Difference<'a> {
    pub line: usize,
    pub got: Option<&'a str>,
    pub wanted: Option<&'a str>,
}

/// The first difference of two texts by lines.
pub fn first_difference<'a>(got: &'a str, wanted: &'a str) -> Option<Difference<'a>> {
    let mut got = got.lines();
    let mut wanted = wanted.lines();
    for line in 1..usize::MAX {
        let (got, wanted) = (got.next(), wanted.next());
        if got != wanted {
            return Some(Difference { line, got, wanted });
        }
        if got.is_none() {
            return None;
        }
    }
    None
}
