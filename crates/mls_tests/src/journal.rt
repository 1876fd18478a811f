//! Tests of journals: the lines of entries; the service over an outside in memory whose calls fail from some call on,
//! which shows that the trait can be met, and over one whose journal is cut into files; marks, verified in pieces and
//! made by a service.
#[cfg(test)]
mod calls;
#[cfg(test)]
mod entries;
#[cfg(test)]
mod files;
#[cfg(test)]
mod journals;
#[cfg(test)]
mod keeper;
#[cfg(test)]
mod marked;
#[cfg(test)]
mod marked_files;
#[cfg(test)]
mod marked_service;
#[cfg(test)]
mod marks_verified;
mod memory;
#[cfg(test)]
mod refusals;
#[cfg(test)]
mod rows;
#[cfg(test)]
mod shelf;
#[cfg(test)]
mod tests;

#[cfg(test)]
use keeper::MemoryMarks;
pub use memory::{Call, Memory};
#[cfg(test)]
use shelf::Shelf;
