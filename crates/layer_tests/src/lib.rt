//! Examples of links, stores, banks, images, sessions, declared privileges and lines, run: what the
//! contracts say of every case, seen at a few.
#![tactic(auto)]

#[cfg(test)]
mod banks_tests;
#[cfg(test)]
mod images_tests;
#[cfg(test)]
mod lines_tests;
#[cfg(test)]
mod links_tests;
#[cfg(test)]
mod privileges_tests;
#[cfg(test)]
mod readers_tests;
#[cfg(test)]
mod sample_edges;
#[cfg(test)]
mod sessions_tests;
#[cfg(test)]
mod stores_tests;
#[cfg(test)]
mod writer_tests;
