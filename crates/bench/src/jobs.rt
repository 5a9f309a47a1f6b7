use edges::{Change, Edge};
use graph::Paths;
use links::Link;
use sessions::session::ask_once;
use sessions::{Session, SessionFault};
use stores::{Reader, Store};

/// How many calls a job made, and what it counted.
#[derive(Clone, Copy)]
pub struct Tally {
    pub asked: usize,
    pub counted: usize,
}

impl Tally {
    // One more question and its answer; what is counted is how often it was yes.
    fn with(self, yes: bool) -> Tally {
        Tally {
            asked: self.asked.saturating_add(1),
            counted: self.counted.saturating_add(usize::from(yes)),
        }
    }
}

/// Something that makes many calls. Each turn of one that only asks begins with another user, as the
/// compiler would else do the same work once for all turns.
pub trait Job {
    // What is done, and what is counted.
    const NAME: &'static str;

    const COUNTED: &'static str;

    fn run(&mut self, turn: u16) -> Tally;
}

// A user of a table with so many, and his first role.
fn user_of(step: u16, users: u16) -> u16 {
    step.checked_rem(users).unwrap_or(0)
}

fn role_of(user: u16, roles: u16) -> u16 {
    64u16.saturating_add(user_of(user.saturating_mul(7), roles))
}

/// For every user privilege, the question of each user in his first role. Each is asked by a session
/// of its own, as the compiler would move the search out of a loop that asks for one user again.
#[derive(Drop)]
pub struct Questions<'a, R> {
    pub table: &'a R,
    pub users: u16,
}

// The answer to one question, or the refusal.
fn ask<R: Reader>(table: &R, user: u16, role: u16, privilege: u16) -> Result<bool, SessionFault> {
    ask_once(table, Session::open(user)?, role, privilege)
}

impl<R: Reader> Job for Questions<'_, R> {
    const NAME: &'static str = "session with one question";

    const COUNTED: &'static str = "yes";

    fn run(&mut self, turn: u16) -> Tally {
        let mut tally = Tally {
            asked: 0,
            counted: 0,
        };
        for privilege in 128..256u16 {
            for step in 0..self.users {
                let user = user_of(step.saturating_add(turn), self.users);
                let role = role_of(user, self.users);
                tally = tally.with(ask(self.table, user, role, privilege) == Ok(true));
            }
        }
        tally
    }
}

/// The closure of every user; yes where it has role 64.
#[derive(Drop)]
pub struct Closures<'a, R> {
    pub table: &'a R,
    pub users: u16,
}

impl<R: Reader> Job for Closures<'_, R> {
    const NAME: &'static str = "closure of a user";

    const COUNTED: &'static str = "yes";

    fn run(&mut self, turn: u16) -> Tally {
        let mut tally = Tally {
            asked: 0,
            counted: 0,
        };
        for step in 0..self.users {
            let user = user_of(step.saturating_add(turn), self.users);
            tally = tally.with(self.table.reached(user).has(64));
        }
        tally
    }
}

/// Each edge of a store is dropped and put back; counted is what the store holds in the end.
#[derive(Drop)]
pub struct Changes<'a, S> {
    pub store: &'a mut S,
    pub edges: &'a [Edge],
}

impl<S: Store> Job for Changes<'_, S> {
    const NAME: &'static str = "drop and put";

    const COUNTED: &'static str = "held in the end";

    fn run(&mut self, _turn: u16) -> Tally {
        for edge in self.edges {
            self.store.drop(*edge);
            let _ = self.store.put(*edge);
        }
        Tally {
            asked: self.edges.len().saturating_mul(2),
            counted: self.store.count(),
        }
    }
}

/// Each message is sent on an empty link, and then as many are struck; counted is how many waited, without
/// those that still wait in the end.
#[derive(Drop)]
pub struct Messages<'a, L> {
    pub link: &'a mut L,
    pub messages: &'a [Change],
}

impl<L: Link> Job for Messages<'_, L> {
    const NAME: &'static str = "send and strike";

    const COUNTED: &'static str = "came and went";

    fn run(&mut self, _turn: u16) -> Tally {
        for message in self.messages {
            let _ = self.link.send(*message);
        }
        let waited = self.link.count();
        for _ in self.messages {
            self.link.strike();
        }
        Tally {
            asked: self.messages.len().saturating_mul(2),
            counted: waited.saturating_sub(self.link.count()),
        }
    }
}
