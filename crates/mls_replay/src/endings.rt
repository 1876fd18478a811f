//! What a command prints of a monitor once its work is done.
ghost use Rattle.std.specs.Prelude.{◌≡◌, length, codes, string_bytes, IfOk, if◌then◌else◌};
ghost use Rattle.mls_replay.specs.RunTexts.{ending as ending_text};

use mls_monitor::Monitor;
use mls_rules::is_secure;
use std::alloc::{AllocError, Global};

/// The word for whether something holds.
pub(crate) fn yes_or_no(holds: bool) -> &'static str
    ensures { result.now ≡ if holds then codes "yes" else codes "no" }
{
    if holds { "yes" } else { "no" }
}

/// How many entries a monitor has, and whether its state is secure, looked at from scratch: a line each.
pub fn ending(alloc: Global, monitor: &Monitor) -> Result<String, AllocError>
    ensures { IfOk result (λ text. string_bytes text ≡ ending_text (length monitor.now.entries)) }
{
    let entries = monitor.next_number();
    let secure = yes_or_no(is_secure(monitor.state()));
    format!(in alloc; "entries {entries}\nsecure {secure}\n")
}
