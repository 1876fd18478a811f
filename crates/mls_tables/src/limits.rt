//! How large the tables can be.

/// How many subjects there can be. Their numbers are below this.
pub const MAX_SUBJECTS: u16 = 256;

/// How many object numbers there can be. Each is below this.
pub const MAX_OBJECTS: u16 = 4096;
