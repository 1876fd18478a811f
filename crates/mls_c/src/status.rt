//! What a call returns beside its answer: 0, or a number below 0 where it changed nothing.

/// The call did what it is for.
pub const OK: i32 = 0;

/// The handle holds no monitor.
pub const ECLOSED: i32 = -1;

/// The handle holds a monitor already.
pub const EOPEN: i32 = -2;

/// An allocation failed.
pub const ENOMEM: i32 = -3;

/// The numbers are no request, no label or no kind of labels, the text is no label, or more entries came before than a
/// monitor forgets.
pub const EINVAL: i32 = -4;

/// The start is refused.
pub const ESTART: i32 = -5;

/// A line of the journal is refused.
pub const EJOURNAL: i32 = -6;

/// The journal isn't one of its start.
pub const EREPLAY: i32 = -7;

/// The buffer is too short.
pub const ERANGE: i32 = -8;

/// The journal has no such entry, or the start no such name.
pub const ENOTFOUND: i32 = -9;

/// The text isn't that of a secure state of the start.
pub const ESTATE: i32 = -10;

/// Another session is at the monitor, or sessions of the office are out, or none is at home.
pub const EBUSY: i32 = -11;

/// The journal hasn't so many entries yet.
pub const EAGAIN: i32 = -12;
