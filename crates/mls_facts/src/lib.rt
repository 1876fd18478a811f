//! General mathematics that several crates use: a few words for clauses, and lemmas. It has no code and knows nothing
//! of monitors.
#![tactic(auto)]
