//! How long the calls of readers, stores and links take: access questions and closures over a table of 500
//! edges and over one of 50, on each make of reader; dropping and putting on each make of store; sending and
//! striking on each make of link. With the word `times` it shows nanoseconds; with the word `image` or
//! `small-image` it writes the image of a table; with none, what was asked and what came of it, which is the
//! same at every run.
#![tactic(auto)]

mod jobs;
mod tables;

use crate::jobs::{Changes, Closures, Job, Messages, Questions};
use crate::tables::{LARGE, SMALL, Size, edges_of, filled, messages};
use edges::Edge;
use images::Image;
use images::writer::write;
use links::{Link, NewLink};
use pairs::Pairs;
use queues::{Packed, Ring};
use rows::Rows;
use std::time::Instant;
use std::{env, io};
use stores::{Reader, Store};

// What is shown of each job: what came of it, or how long each of its calls took.
#[derive(Clone, Copy, PartialEq, Eq)]
enum Shown {
    Answers,
    Times,
}

// How often a job is done where times are shown, and how often all that is timed.
const TURNS: u16 = 10;

const ROUNDS: u16 = 10;

// Does a job over and over, and tells the tenths of nanoseconds that each of its calls took.
fn round<J: Job>(rt: &HostRuntime, job: &mut J) -> io::Result<u128> {
    let start = Instant::now(rt)?;
    let mut asked = 0usize;
    for turn in 0..TURNS {
        asked = asked.saturating_add(job.run(turn).asked);
    }
    let tenths = start.elapsed(rt)?.as_nanos().saturating_mul(10);
    Ok(tenths / asked.max(1) as u128)
}

// Shows the nanoseconds of the fastest round.
fn show_times<J: Job>(rt: &HostRuntime, job: &mut J) -> io::Result<()> {
    let mut least = u128::MAX;
    for _ in 0..ROUNDS {
        least = least.min(round(rt, job)?);
    }
    let (whole, tenth, name) = (least / 10, least % 10, J::NAME);
    println!(rt; "    {name}: {whole}.{tenth} ns")
}

// Does a job once, and shows how many calls it made and what it counted.
fn show_answers<J: Job>(rt: &HostRuntime, job: &mut J) -> io::Result<()> {
    let tally = job.run(0);
    let (name, asked, counted, what) = (J::NAME, tally.asked, tally.counted, J::COUNTED);
    println!(rt; "    {name}: {asked} asked, {counted} {what}")
}

fn show<J: Job + Drop>(rt: &HostRuntime, how: Shown, mut job: J) -> io::Result<()> {
    match how {
        Shown::Answers => show_answers(rt, &mut job),
        Shown::Times => show_times(rt, &mut job),
    }
}

// What is done with a make of reader.
fn reader<R: Reader>(
    rt: &HostRuntime,
    how: Shown,
    name: &str,
    table: &R,
    users: u16,
) -> io::Result<()> {
    println!(rt; "  {name}")?;
    show(rt, how, Questions { table, users })?;
    show(rt, how, Closures { table, users })
}

// What is done with a make of store.
fn store<S: Store>(
    rt: &HostRuntime,
    how: Shown,
    name: &str,
    store: &mut S,
    edges: &[Edge],
    users: u16,
) -> io::Result<()> {
    reader(rt, how, name, &*store, users)?;
    show(rt, how, Changes { store, edges })
}

// What is done with a make of link.
fn link<L: Link>(
    rt: &HostRuntime,
    how: Shown,
    name: &str,
    link: &mut L,
    edges: &[Edge],
) -> anyhow::Result<()> {
    let messages = messages(rt.alloc(), edges, link.limit())?;
    println!(rt; "  {name}")?;
    show(
        rt,
        how,
        Messages {
            link,
            messages: &messages,
        },
    )?;
    Ok(())
}

// The bytes of a table's image; none if the buffer is too short.
fn image_of<'a, R: Reader>(table: &R, buffer: &'a mut [u8]) -> &'a [u8] {
    let length = write(table, buffer).unwrap_or(0);
    buffer.get(..length).unwrap_or_default()
}

// Writes the image of a table.
fn put_image(rt: &HostRuntime, size: Size) -> anyhow::Result<()> {
    let rows = filled::<Rows>(rt.alloc(), size)?;
    let mut buffer = [0u8; 2050];
    rt.stdout().write_all(image_of(&rows, &mut buffer))?;
    Ok(())
}

// What is done with the image of a table.
fn image<R: Reader>(rt: &HostRuntime, how: Shown, table: &R, users: u16) -> io::Result<()> {
    let mut buffer = [0u8; 2050];
    match Image::open(image_of(table, &mut buffer)) {
        Ok(image) => reader(rt, how, "image", &image, users),
        Err(_) => println!(rt; "  no image"),
    }
}

// All that is done with a table of some size.
fn sized(rt: &HostRuntime, how: Shown, size: Size) -> anyhow::Result<()> {
    let alloc = rt.alloc();
    let mut rows = filled::<Rows>(alloc, size)?;
    let mut pairs = filled::<Pairs>(alloc, size)?;
    let edges = edges_of(alloc, &rows)?;
    let count = edges.len();
    println!(rt; "{count} edges")?;
    store(rt, how, "rows", &mut rows, &edges, size.roles)?;
    store(rt, how, "pairs", &mut pairs, &edges, size.roles)?;
    image(rt, how, &rows, size.roles)?;
    link(rt, how, "ring", &mut Ring::new(alloc, 1024)?, &edges)?;
    link(rt, how, "packed", &mut Packed::new(alloc, 1024)?, &edges)
}

fn all(rt: &HostRuntime, how: Shown) -> anyhow::Result<()> {
    sized(rt, how, LARGE)?;
    sized(rt, how, SMALL)
}

fn main(rt: HostRuntime) -> anyhow::Result<()> {
    let mut words = env::args(&rt)?.skip(1);
    match words.next().as_deref() {
        Some("image") => put_image(&rt, LARGE),
        Some("small-image") => put_image(&rt, SMALL),
        Some("times") => all(&rt, Shown::Times),
        _ => all(&rt, Shown::Answers),
    }
}
