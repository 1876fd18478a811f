//! Tests of labels, tables and trees, each mostly a table of steps.
mod beside;
mod labels;
mod lists;
mod orders;
mod seen;
mod sets;
mod trees;
