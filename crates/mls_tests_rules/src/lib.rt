//! Tests of what only calls show of labels, sets of accesses, trees and starts that are built. Worked scripts and
//! journals, and the states that they lead to, are in .ci/check-rows, which the program answers, and in c/worked.c,
//! which calls the library for C and has its allocations refused.
#![tactic(auto)]

#[cfg(test)]
mod refuses;
#[cfg(test)]
mod seen;
#[cfg(test)]
mod standard;
#[cfg(test)]
mod starts;
#[cfg(test)]
mod values;
