ghost use Rattle.std.specs.Prelude.{◌≡◌, ◌≤◌, ◌∷◌, length, true};
ghost use Rattle.std.specs.Fmt.{decimal};
ghost use Rattle.lines.specs.Spelling.{letter_byte, spelt};
ghost use Rattle.lines.specs.Adding.{Adds};
ghost use Rattle.lines.specs.Writing.{leaf_of, node_of, text_of, Wrote, WroteLine};
ghost use Rattle.edges.specs.Edges.{edge_of, is_user};
ghost use Rattle.privileges.specs.Privileges.{is_proper};
ghost use Rattle.privileges.specs.Declaring.{IsOrdered};
ghost use Rattle.calls.specs.declared.call.Call.TheVariants.{Command as Commanding};

use crate::fault::WriteFault;
use crate::letters::Letter;
use crate::pen::Pen;
use crate::signs::Sign;
use edges::{Change, Kind};
use privileges::Privileges;

// How deep the node of a declared privilege can be nested.
const DEEPEST: u8 = 8;

// The room that any line fits in.
const LONGEST: usize = 128;

impl Pen {
    // Writes a number: its digits, the highest first.
    fn number(&mut self, number: u16)
        ensures { Adds self.old (decimal number) self.new }
    {
        let last = b'0' + (number % 10) as u8;
        if number < 10 {
            self.push(last);
        } else {
            self.number(number / 10);
            self.push(last);
        }
    }

    // Writes a letter and a number.
    fn leaf(&mut self, letter: Letter, number: u16)
        ensures { Adds self.old (letter_byte letter ∷ decimal number) self.new }
    {
        self.push(letter.byte());
        self.number(number);
    }

    // Writes a user, a role or a user privilege.
    fn vertex(&mut self, vertex: u16)
        ensures { Adds self.old (spelt (leaf_of vertex)) self.new }
    {
        if vertex < 64 {
            self.leaf(Letter::User, vertex);
        } else if vertex < 128 {
            self.leaf(Letter::Role, vertex - 64);
        } else {
            self.leaf(Letter::Privilege, vertex - 128);
        }
    }

    // Writes the node of a vertex, with at most `depth` brackets in one another.
    fn node(&mut self, privileges: &Privileges, depth: u8, vertex: u16)
        ensures { Adds self.old (spelt (node_of privileges.now depth vertex)) self.new }
    {
        if depth == 0 {
            self.vertex(vertex);
            return;
        }
        match privileges.get(vertex) {
            Some(change) => {
                self.push(Sign::in_change(change).byte());
                self.push(b'(');
                self.node(privileges, depth - 1, change.edge().from);
                self.push(b',');
                self.node(privileges, depth - 1, change.edge().to);
                self.push(b')');
            }
            None => self.vertex(vertex),
        }
    }

    // Writes a command: the user, the sign and the two nodes of its edge.
    #[tactic(auto, using(crate::proofs::Pens::adds_command))]
    fn command(&mut self, privileges: &Privileges, user: u16, change: Change)
        ensures { Adds self.old (text_of privileges.now (Commanding user change)) self.new }
    {
        self.leaf(Letter::User, user);
        self.push(b' ');
        self.push(Sign::in_change(change).byte());
        self.push(b' ');
        self.node(privileges, DEEPEST, change.edge().from);
        self.push(b' ');
        self.node(privileges, DEEPEST, change.edge().to);
    }
}

// Writes the line of a command at the start of `out`, where all questions are answered yes.
fn write(privileges: &Privileges, user: u16, change: Change, out: &mut [u8]) -> usize
    requires order { IsOrdered privileges.now }
    requires user { is_user user ≡ true }
    requires edge { is_proper privileges.now (edge_of change) ≡ true }
    requires room { 128 ≤ length out.old }
    ensures { WroteLine privileges.now user change out.old out.new result }
{
    let mut pen = Pen::new();
    pen.command(privileges, user, change);
    pen.copy_to(out)
}

/// Writes the line of a command at the start of `out` and tells how long it is; no other byte is
/// altered. Refused with 1 unless the user is one, then with 2 unless the change is about an edge
/// that has no undeclared privilege in it, then with 21 unless there is room for the longest line.
pub fn write_command(
    privileges: &Privileges,
    user: u16,
    change: Change,
    out: &mut [u8],
) -> Result<usize, WriteFault>
    ensures { Wrote privileges.now user change out.old out.new result }
{
    if !Kind::User.has(user) {
        return Err(WriteFault::NoUser);
    }
    if !privileges.has_edge(change.edge()) {
        return Err(WriteFault::NoEdge);
    }
    if out.len() < LONGEST {
        return Err(WriteFault::NoRoom);
    }
    Ok(write(privileges, user, change, out))
}
