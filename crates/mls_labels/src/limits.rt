//! The limits of labels and their names.

/// How many levels a scheme may have; the number of a level is less than this.
pub const MAX_LEVELS: usize = 16;

/// How many categories a scheme may have; the number of a category is less than this.
pub const MAX_CATEGORIES: usize = 256;

/// How many bytes a name may have.
pub const MAX_NAME: usize = 32;
