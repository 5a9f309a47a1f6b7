use edges::{Change, Edge};
use lines::writer::write_command;
use privileges::Privileges;

/// The words of a command, as a line has them: the user, the sign and the two nodes of its edge. They are
/// read off the line that the writer writes.
#[derive(Drop)]
pub struct Spelt {
    line: [u8; 128],
    length: usize,
}

impl Spelt {
    /// The command of user 0 for a change.
    pub fn of(privileges: &Privileges, change: Change) -> Spelt {
        let mut line = [0u8; 128];
        let length = write_command(privileges, 0, change, &mut line).unwrap_or(0);
        Spelt { line, length }
    }

    pub fn of_edge(privileges: &Privileges, edge: Edge) -> Spelt {
        Spelt::of(privileges, Change::Add(edge))
    }

    // What stands behind some spaces.
    fn behind(&self, spaces: usize) -> &str {
        let line = self.line.get(..self.length).unwrap_or_default();
        let mut rest = line;
        for _ in 0..spaces {
            let end = rest.iter().position(|byte| *byte == b' ').unwrap_or(0);
            rest = rest.get(end + 1..).unwrap_or_default();
        }
        str::from_utf8(rest).unwrap_or_default()
    }

    /// The sign and the edge: `+ u2 r0`.
    pub fn change(&self) -> &str {
        self.behind(1)
    }

    /// The edge: `u2 r0`.
    pub fn edge(&self) -> &str {
        self.behind(2)
    }

    /// Its second vertex: `r0`.
    pub fn to(&self) -> &str {
        self.behind(3)
    }

    /// Its first vertex: `u2`.
    pub fn from(&self) -> &str {
        let edge = self.edge();
        let end = edge.find(' ').unwrap_or(0);
        edge.get(..end).unwrap_or_default()
    }
}
