//! Whole installations, run: the worked examples by three rules, the limits, banks of every make, and the
//! same calls by `run` and by `give`.
#![tactic(auto)]

#[cfg(test)]
mod banks_tests;
#[cfg(test)]
mod company;
#[cfg(test)]
mod examples_tests;
#[cfg(test)]
mod limits_tests;
#[cfg(test)]
mod lists_tests;
#[cfg(test)]
mod rules_tests;
#[cfg(test)]
mod steps;
#[cfg(test)]
mod users_first;
