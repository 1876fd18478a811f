//! The words in which the current accesses stand: where they are, and what they say.
ghost use Rattle.std.specs.Prelude.{◌≡◌, ◌≢◌, ◌<◌, ◌≤◌, ℕ, IfSome, IfNone};
ghost use Rattle.mls_tables.specs.Mode.{mode_number};
ghost use Rattle.mls_tables.specs.declared.limits.TheConstants.{MAX_OBJECTS};
ghost use Rattle.mls_monitor.specs.Journal.{fold};
ghost use Rattle.mls_sessions.specs.Cells.{place, bit_of, has_bit, Tells};

use mls_tables::{MAX_OBJECTS, Mode, ObjectId, SubjectId};
use mls_turns::BoxedMonitor;

/// A word that says nothing: whoever reads it takes the lock.
pub const BLANK: u64 = 0;

/// How many subjects share a word.
const SHARE: u16 = 8;

/// How many bits of a word they have; the next one is set in a word that isn't blank.
const BITS: u16 = 32;

/// How many words there are for so many subjects: each block of eight has one for each object.
pub(crate) fn cells_for(subjects: u16) -> u32 {
    (u32::from(subjects) + 7) / 8 * u32::from(MAX_OBJECTS)
}

/// The place of the word of a subject and an object.
fn place(s: SubjectId, o: ObjectId) -> u32
    ensures { result ≡ place s o }
{
    u32::from(s.number() / SHARE) * u32::from(MAX_OBJECTS) + u32::from(o.number())
}

/// The place of the word of a subject and an object, where there is one.
pub(crate) fn cell_of(s: SubjectId, o: ObjectId, cells: u32) -> Option<u32>
    ensures some { IfSome result (λ at. (at ≡ place s o) × (at < cells) × (o < MAX_OBJECTS)) }
    ensures none { IfNone result (o < MAX_OBJECTS → cells ≤ place s o) }
{
    let at = place(s, o);
    if o.number() < MAX_OBJECTS && at < cells {
        Some(at)
    } else {
        None
    }
}

/// The bit of a subject and a mode in their word.
pub(crate) fn bit_of(s: SubjectId, x: Mode) -> u32
    ensures bit { result ≡ bit_of s x }
    ensures few { result < 32 }
{
    let mode = match x {
        Mode::Execute => 0,
        Mode::Read => 1,
        Mode::Append => 2,
        Mode::Write => 3,
    };
    u32::from(s.number() % SHARE) * 4 + mode
}

/// Whether a word has a bit.
pub(crate) fn has_bit(word: u64, k: u32) -> bool
    requires { k < 32 }
    ensures { result ≡ has_bit word k }
{
    (word >> k) % 2 == 1
}

/// The word with a bit, or without it.
pub(crate) fn with_bit(word: u64, k: u32, is_set: bool) -> u64
    requires { k < 33 }
    ensures same { has_bit result k ≡ is_set }
    ensures others { (i : ℕ) → i < 64 → i ≢ k → has_bit result i ≡ has_bit word i }
{
    if is_set {
        word | 1 << k
    } else {
        word & !(1 << k)
    }
}

/// A word once this triple is a current access, or is none. A blank word stays so.
pub(crate) fn word_after(word: u64, s: SubjectId, x: Mode, is_held: bool) -> u64
    ensures blank { word ≡ 0 → result ≡ 0 }
    ensures same { word ≢ 0 → has_bit result (bit_of s x) ≡ is_held }
    ensures others { word ≢ 0 → (i : ℕ) → i < 64 → i ≢ bit_of s x → has_bit result i ≡ has_bit word i }
{
    if word == BLANK {
        return BLANK;
    }
    with_bit(word, bit_of(s, x), is_held)
}

/// The mode of a place in the order of modes.
fn mode_at(k: u16) -> Mode
    requires { k < 4 }
    ensures { mode_number result ≡ k }
{
    match k {
        0 => Mode::Execute,
        1 => Mode::Read,
        2 => Mode::Append,
        _ => Mode::Write,
    }
}

/// The word of a subject and an object, as the monitor's state has it. It isn't blank.
#[tactic(auto, using(crate::proofs::Touching::word_bits))]
pub(crate) fn word_of(monitor: &BoxedMonitor, s: SubjectId, o: ObjectId) -> u64
    requires { o < MAX_OBJECTS }
    ensures some { result ≢ 0 }
    ensures tells { Tells (fold monitor.now.start monitor.now.entries) (place s o) result }
{
    let first = s.number() / SHARE * SHARE;
    let mut word = BLANK;
    for k in 0..BITS {
        let x = mode_at(k % 4);
        let is_held = monitor.check(SubjectId::new(first + k / 4), o, x);
        word = with_bit(word, u32::from(k), is_held);
    }
    with_bit(word, u32::from(BITS), true)
}
