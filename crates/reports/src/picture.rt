use crate::spelling::Spelt;
use centre::Office;
use edges::{Edge, Kind};
use precedence::Precedence;
use std::io::{self, Write};
use vaults::Bank;

// The shape in which a vertex is drawn.
fn shape(vertex: u16) -> &'static str {
    match Kind::of(vertex) {
        Some(Kind::User) => "ellipse",
        Some(Kind::Role) => "box",
        Some(Kind::UserPrivilege) => "note",
        _ => "hexagon",
    }
}

// A vertex that an edge has.
fn print_vertex<B: Bank, R: Precedence, W: Write>(
    office: &Office<B, R>,
    vertex: u16,
    edge: Edge,
    out: &mut W,
) -> io::Result<()> {
    let spelt = Spelt::of_edge(office.declared(), edge);
    let name = if edge.from == vertex {
        spelt.from()
    } else {
        spelt.to()
    };
    let shape = shape(vertex);
    writeln!(out, "    \"{name}\" [shape={shape}];")
}

/// The policy as a directed graph, in Graphviz's language.
pub fn print_graph<B: Bank, R: Precedence, W: Write>(
    office: &Office<B, R>,
    out: &mut W,
) -> io::Result<()> {
    writeln!(out, "digraph policy {{")?;
    writeln!(out, "    rankdir=LR;")?;
    writeln!(out, "    node [fontname=\"sans-serif\"];")?;
    let edges = office.edges();
    for vertex in 0..384u16 {
        if let Some(edge) = edges
            .iter()
            .find(|edge| edge.from == vertex || edge.to == vertex)
        {
            print_vertex(office, vertex, *edge, out)?;
        }
    }
    for edge in edges {
        let spelt = Spelt::of_edge(office.declared(), *edge);
        let (from, to) = (spelt.from(), spelt.to());
        writeln!(out, "    \"{from}\" -> \"{to}\";")?;
    }
    writeln!(out, "}}")
}
