//! A start beside itself as settings have it.
ghost use Rattle.std.specs.Prelude.{option_map, IfOk, IfErr, IsTrue};
ghost use Rattle.mls_compare.specs.AsSet.{ComparesAsSet, ComparesSet, RefusesAsSet, RefusesOtherSet, RefusesSettings};
ghost use Rattle.mls_settings.specs.Settings.{SaysSet, are_right};

use crate::asked::Asked;
use crate::compare_fault::CompareFault;
use crate::comparing::compare_loaded;
use mls_lines::Names;
use mls_replay::{CommandFault, load_start};
use mls_rows::{Form, Listing};
use mls_settings::{Setting, judge, load_set};
use mls_start_file::Loaded;
use std::alloc::Global;

/// The start that a file says as settings have it.
///
/// # Errors
/// `Unset` where a setting has a fault, by the names of the file's start, else `Second` where the file is refused as
/// the settings have it or an allocation failed.
fn load_other(
    alloc: Global,
    names: &Names,
    bytes: &[u8],
    settings: &[Setting<'_>],
) -> Result<Loaded, CompareFault>
    ensures right { IfOk result (λ _. IsTrue (are_right names.now settings.now)) }
    ensures ok { IfOk result (λ loaded. SaysSet bytes.now settings.now loaded) }
    ensures fault { IfErr result (λ fault. RefusesOtherSet names.now bytes.now settings.now fault) }
{
    if let Err(fault) = judge(names, settings) {
        return Err(CompareFault::Unset(fault));
    }
    match load_set(alloc, bytes, settings) {
        Ok(loaded) => Ok(loaded),
        Err(fault) => Err(CompareFault::Second(CommandFault::from(fault))),
    }
}

/// How a start and what its file says as settings have it differ.
fn compare_set_with(
    alloc: Global,
    form: Form,
    words: (&str, &str),
    first: Loaded,
    bytes: &[u8],
    settings: &[Setting<'_>],
    journal: Option<&[u8]>,
    asked: &Asked,
) -> Result<Listing, CompareFault>
    ensures ok { IfOk result (λ found.
        ComparesSet asked.now form words.entry.0.now words.entry.1.now first bytes.now settings.now
        (option_map (λ bytes. bytes.now) journal.entry) found) }
    ensures fault { IfErr result (λ fault.
        RefusesSettings first bytes.now settings.now (option_map (λ bytes. bytes.now) journal.entry) fault) }
{
    match load_other(alloc, first.names(), bytes, settings) {
        Ok(second) => {
            let answer = compare_loaded(alloc, form, words, first, &second, journal, asked);
            drop(second);
            answer
        }
        Err(fault) => {
            drop(first);
            Err(fault)
        }
    }
}

/// How what a start file says as settings have it differs from what it says, as [`compare`](crate::compare) tells it of
/// two files of these words.
///
/// # Errors
/// - `First` where the file is refused, else `Unset` where a setting has a fault, else `Second` where the file is
///   refused as the settings have it.
/// - `Journal` where the journal is refused as one of the first start: its lines before its replay.
/// - One of these with `Memory` where an allocation failed.
pub fn compare_set(
    alloc: Global,
    form: Form,
    words: (&str, &str),
    first: &[u8],
    settings: &[Setting<'_>],
    journal: Option<&[u8]>,
    asked: &Asked,
) -> Result<Listing, CompareFault>
    ensures ok { IfOk result (λ found.
        ComparesAsSet asked.now form words.entry.0.now words.entry.1.now first.now settings.now
        (option_map (λ bytes. bytes.now) journal.entry) found) }
    ensures fault { IfErr result (λ fault.
        RefusesAsSet first.now settings.now (option_map (λ bytes. bytes.now) journal.entry) fault) }
{
    match load_start(alloc, first) {
        Ok(loaded) => compare_set_with(alloc, form, words, loaded, first, settings, journal, asked),
        Err(fault) => Err(CompareFault::First(fault)),
    }
}
