//! The version. A trial is compiled of a copy of this file that says so (`bin/trial`).

/// The version, and what the program is proved with.
pub(crate) const VERSION: &str = "0.3.0, proved with rattle-kit-13b logic dac8208d650f15bf";
