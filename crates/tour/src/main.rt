//! A tour in three chapters: messages travel over links into stores, and every answer is shown; a table is
//! read, as an image and by a session; lines of a script are read, and commands written back.
#![tactic(auto)]

mod messages;
mod script_lines;
mod table_readers;

fn main(rt: HostRuntime) -> anyhow::Result<()> {
    messages::show(&rt)?;
    table_readers::show(&rt)?;
    script_lines::show(&rt)
}
