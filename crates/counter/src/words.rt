use std::{env, io};

/// What is printed: the answers, or the answers and behind them what each vault has; or, in their place, the
/// final policy as a picture, or the final state.
#[derive(Clone, Copy, PartialEq, Eq)]
pub enum View {
    Answers,
    Tables,
    Graph,
    State,
}

/// What the program's words ask for.
#[derive(Clone, Copy)]
pub struct Words {
    pub view: View,
    pub store_limit: usize,
    pub link_limit: usize,
}

// A word that says what the next one is the number of.
#[derive(Clone, Copy)]
enum Limit {
    Store,
    Link,
}

/// How the program is called.
pub const USAGE: &str =
    "counter [tables | graph | state] [--store-limit S] [--link-limit L] < a-script";

// A number of at most 9 digits.
fn number(word: &str) -> Option<usize> {
    if word.len() > 9 || !word.bytes().all(|byte| byte.is_ascii_digit()) {
        return None;
    }
    word.parse::<usize>().ok()
}

impl Words {
    // What no word asks for: the answers, and the largest limits.
    fn none() -> Words {
        Words {
            view: View::Answers,
            store_limit: 512,
            link_limit: 1024,
        }
    }

    fn viewing(self, view: View) -> Words {
        Words { view, ..self }
    }

    fn with_limit(self, limit: Limit, word: &str) -> Option<Words> {
        let number = number(word)?;
        Some(match limit {
            Limit::Store => Words {
                store_limit: number,
                ..self
            },
            Limit::Link => Words {
                link_limit: number,
                ..self
            },
        })
    }

    // What one more word says, where the one before it awaits a number or not; nothing if it is not known.
    fn with(self, awaited: Option<Limit>, word: &str) -> Option<(Words, Option<Limit>)> {
        if let Some(limit) = awaited {
            return Some((self.with_limit(limit, word)?, None));
        }
        match word {
            "tables" => Some((self.viewing(View::Tables), None)),
            "graph" => Some((self.viewing(View::Graph), None)),
            "state" => Some((self.viewing(View::State), None)),
            "--store-limit" => Some((self, Some(Limit::Store))),
            "--link-limit" => Some((self, Some(Limit::Link))),
            _ => None,
        }
    }

    /// What the program's words ask for; nothing if one of them is not known, or a number is missing.
    pub fn read(rt: &HostRuntime) -> io::Result<Option<Words>> {
        let mut read = (Words::none(), None);
        for word in env::args(rt)?.skip(1) {
            let (words, awaited) = read;
            let Some(next) = words.with(awaited, &word) else {
                return Ok(None);
            };
            read = next;
        }
        match read {
            (words, None) => Ok(Some(words)),
            _ => Ok(None),
        }
    }
}
