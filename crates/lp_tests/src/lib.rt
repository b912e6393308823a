//! Tests of the crates below, for behaviour that no program or case runs. Each stands here and not beside what it tests,
//! since a crate with tests is proved a second time with them.
//!
//! | Item | What it tests | Where |
//! |---|---|---|
//! | `shapes` | words and shapes that `lp_form` tells apart | src/shapes |
//! | `board` | passes of one board on two threads | src/board |
//! | `full_board` | sixteen passes on threads that publish on one place | src/full_board |
//! | `worlds` | sessions of a world that publish at the same time | src/worlds |
//! | `workers` | a script that two workers run beside each other | src/workers |
//! | `links` | two links in memory that one worker serves, a listener without a link, and links that fail | src/links |
//! | `tcp` | two links over loopback, each served by a worker of its own | src/tcp |
//! | `wide_numbers` | texts of numbers past 127 bits | src/wide_numbers |
//! | `float_ends` | ends of runs in floats, at an optimum, without a feasible point and without a limit | src/float_ends |
//! | `long_words` | common divisors, quotients and sizes of numbers of many words | src/long_words |
//! | `sparse_factors` | factors of small matrices modulo a prime | src/sparse_factors |
//! | `lifted_bases` | answers of bases that are optimal, of some that are none, and of some that are a few steps away | src/lifted_bases |
#![tactic(auto)]

#[cfg(test)]
mod board;
#[cfg(test)]
mod float_ends;
#[cfg(test)]
mod full_board;
#[cfg(test)]
mod lifted_bases;
#[cfg(test)]
mod links;
#[cfg(test)]
mod long_words;
#[cfg(test)]
mod shapes;
#[cfg(test)]
mod sparse_factors;
#[cfg(test)]
mod tcp;
#[cfg(test)]
mod wide_numbers;
#[cfg(test)]
mod workers;
#[cfg(test)]
mod worlds;
