//! Stored scripts, run, and compared with what another program answered: every answer, and all that is held
//! in the end. Each script has files of its name: the lines, the bank that it wants, the answers, the state.
#![tactic(auto)]

mod bank;
mod compared;

use crate::bank::{AnyBank, Wanted};
use crate::compared::first_difference;
use anyhow::Context;
use banks::growing::grown;
use centre::Installation;
use centre::begin::begin;
use precedence_rules::Full;
use reports::state::print_state;
use scripts::serving::serve;
use std::alloc::{AllocError, Global};
use std::process::ExitCode;
use std::{fs, io};

const KINDS: [&str; 4] = ["dense", "limits", "malformed", "tree"];

// What a script is answered, and what is held in the end, as text.
#[derive(Drop)]
struct Outcome {
    answers: Vec<u8>,
    state: Vec<u8>,
}

// Runs a script over the bank that it wants; which makes its vaults have goes by the script's place.
fn run(alloc: Global, wanted: Wanted, place: usize, script: &[u8]) -> anyhow::Result<Outcome> {
    let bank = grown::<AnyBank>(
        alloc,
        place,
        wanted.vaults,
        wanted.link_limit,
        wanted.store_limit,
    )?;
    let naming = begin(alloc, bank, Full).map_err(|_| AllocError)?;
    let mut input = script;
    let mut answers = Vec::new(alloc);
    let at = serve(Installation::Naming(naming), &mut input, &mut answers)?;
    let mut state = Vec::new(alloc);
    print_state(alloc, at, &mut state)?;
    Ok(Outcome { answers, state })
}

// Whether a text is as stored, and how many lines it has; if not, the first difference is shown.
fn is_as_stored(
    rt: &HostRuntime,
    name: &str,
    what: &str,
    got: &[u8],
    wanted: &str,
) -> io::Result<bool> {
    let got = str::from_utf8(got).unwrap_or_default();
    let Some(found) = first_difference(got, wanted) else {
        return Ok(true);
    };
    let line = found.line;
    let got = found.got.unwrap_or("nothing more");
    let wanted = found.wanted.unwrap_or("nothing more");
    println!(rt; "{name}: {what} {line}: {got}, and stored is {wanted}")?;
    Ok(false)
}

// Runs one script, and tells how many answers it has, if all is as stored.
fn check(rt: &HostRuntime, name: &str, place: usize) -> anyhow::Result<Option<usize>> {
    let alloc = rt.alloc();
    let bank = fs::read_to_string(rt, format!(in alloc; "{name}.bank")?)?;
    let script = fs::read(rt, format!(in alloc; "{name}.script")?)?;
    let answers = fs::read_to_string(rt, format!(in alloc; "{name}.expected")?)?;
    let state = fs::read_to_string(rt, format!(in alloc; "{name}.final")?)?;
    let wanted = Wanted::read(&bank).context("the bank is not told")?;
    let served = run(alloc, wanted, place, &script)?;
    let alike = is_as_stored(rt, name, "line", &served.answers, &answers)?
        && is_as_stored(rt, name, "state", &served.state, &state)?;
    if !alike {
        return Ok(None);
    }
    let count = answers.lines().count();
    let held = state.lines().count();
    println!(rt; "{name}: {count} answers and {held} lines of state, all as stored")?;
    Ok(Some(count))
}

fn main(rt: HostRuntime) -> anyhow::Result<ExitCode> {
    let alloc = rt.alloc();
    let mut place = 0usize;
    let mut alike = 0usize;
    for kind in KINDS {
        for number in 1..7u8 {
            let name = format!(in alloc; "{kind}-{number}")?;
            if check(&rt, &name, place)?.is_some() {
                alike = alike.saturating_add(1);
            }
            place = place.saturating_add(1);
        }
    }
    println!(rt; "{alike} of {place} scripts are as stored")?;
    Ok(if alike == place {
        ExitCode::SUCCESS
    } else {
        ExitCode::FAILURE
    })
}
