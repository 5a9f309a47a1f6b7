use banks::MixedList;
use pairs::Pairs;
use queues::{Packed, Ring};
use rows::Rows;

/// Vaults of any of the four pairs of makes.
pub type AnyBank = MixedList<Ring, Packed, Rows, Pairs>;

/// The bank that a script wants: so many vaults, each with these limits.
#[derive(Clone, Copy)]
pub struct Wanted {
    pub vaults: usize,
    pub store_limit: usize,
    pub link_limit: usize,
}

impl Wanted {
    /// Reads `--vaults 2 --store-limit 512 --link-limit 1024`.
    pub fn read(text: &str) -> Option<Wanted> {
        let mut words = text.split_ascii_whitespace();
        let mut number = |name: &str| {
            if words.next() != Some(name) {
                return None;
            }
            words.next()?.parse::<usize>().ok()
        };
        Some(Wanted {
            vaults: number("--vaults")?,
            store_limit: number("--store-limit")?,
            link_limit: number("--link-limit")?,
        })
    }
}
