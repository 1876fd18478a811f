//! What untrusted subjects could get by one of two start files alone.
ghost use Rattle.std.specs.Prelude.{None, IfOk, IfErr};
ghost use Rattle.mls_compare.specs.Comparing.{ComparesCoulds, TellsCouldsWith, RefusesComparison, RefusesSecond};

use crate::compare_fault::CompareFault;
use crate::comparing::load_second;
use mls_differences::compare_coulds;
use mls_replay::load_start;
use mls_rows::{Form, Listing};
use mls_start_file::Loaded;
use std::alloc::Global;

/// What untrusted subjects could get by a start alone, or by the one of a second file alone.
fn compare_with(
    alloc: Global,
    form: Form,
    words: (&str, &str),
    first: &Loaded,
    second: &[u8],
) -> Result<Listing, CompareFault>
    ensures ok { IfOk result (λ found.
        TellsCouldsWith form words.entry.0.now words.entry.1.now first.now second.now found) }
    ensures fault { IfErr result (λ fault. RefusesSecond first.now.start second.now None fault) }
{
    let second = load_second(alloc, second)?;
    let answer = compare_coulds(alloc, form, words, first, &second);
    drop(second);
    Ok(answer?)
}

/// What untrusted subjects could get by one of the starts of two files alone, of subjects and objects that both have,
/// in a form. The files have these words. The answer is positive where there is nothing.
///
/// # Errors
/// - `First` where the first file is refused, else `Second` where the second is.
/// - One of these with `Memory` where an allocation failed.
pub fn compare_could(
    alloc: Global,
    form: Form,
    words: (&str, &str),
    first: &[u8],
    second: &[u8],
) -> Result<Listing, CompareFault>
    ensures ok { IfOk result (λ found.
        ComparesCoulds form words.entry.0.now words.entry.1.now first.now second.now found) }
    ensures fault { IfErr result (λ fault. RefusesComparison first.now second.now None fault) }
{
    match load_start(alloc, first) {
        Ok(first) => {
            let answer = compare_with(alloc, form, words, &first, second);
            drop(first);
            answer
        }
        Err(fault) => Err(CompareFault::First(fault)),
    }
}
