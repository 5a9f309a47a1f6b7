//! The counter of a centre: it reads a script from standard input, and prints the answer to each line, or
//! what is left in the end.
#![tactic(auto)]

mod words;

use crate::words::{USAGE, View, Words};
use banks::NewBank;
use centre::Installation;
use centre::begin::begin;
use pairs::Pairs;
use precedence_rules::Full;
use queues::{Packed, Ring};
use reports::picture::print_graph;
use reports::state::print_state;
use reports::tables::print_tables;
use rows::Rows;
use scripts::serving::serve;
use std::alloc::AllocError;
use std::io::{self, BufWriter, Write};
use std::process::ExitCode;
use vaults::Vault;

// Vault 0 has a ring of records and rows of bits, vault 1 a packed strip and ascending pairs.
type TwoVaults = (Vault<Ring, Rows>, (Vault<Packed, Pairs>, ()));

// Answers the script on standard input, and prints what is asked for.
fn work<B: NewBank + Drop>(rt: &HostRuntime, words: Words) -> anyhow::Result<()> {
    let alloc = rt.alloc();
    let mut out = BufWriter::new(alloc, io::writer(rt))?;
    let bank = B::new(alloc, words.link_limit, words.store_limit)?;
    let naming = begin(alloc, bank, Full).map_err(|_| AllocError)?;
    let at = Installation::Naming(naming);
    let input = &mut rt.stdin();
    match words.view {
        View::Answers => {
            serve(at, input, &mut out)?;
        }
        View::Tables => print_tables(alloc, serve(at, input, &mut out)?, &mut out)?,
        View::State => print_state(alloc, serve(at, input, &mut io::sink())?, &mut out)?,
        View::Graph => print_graph(serve(at, input, &mut io::sink())?.office(), &mut out)?,
    }
    out.flush()?;
    Ok(())
}

fn main(rt: HostRuntime) -> anyhow::Result<ExitCode> {
    let Some(words) = Words::read(&rt)? else {
        eprintln!(rt; "{USAGE}")?;
        return Ok(ExitCode::from(2));
    };
    work::<TwoVaults>(&rt, words)?;
    Ok(ExitCode::SUCCESS)
}
