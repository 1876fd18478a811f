//! What a handle holds of a subject and an object.
ghost use Rattle.std.specs.Prelude.{◌≡◌, ◌≢◌, ◌&&◌, ℕ, IsTrue, if◌then◌else◌};
ghost use Rattle.std.specs.FinSet as set;
ghost use Rattle.mls_tables.specs.Triples.{TripleSet};
ghost use Rattle.mls_tables.specs.declared.mode.Mode.{Mode};
ghost use Rattle.mls_state.specs.State.{is_subject, is_active};
ghost use Rattle.mls_c.specs.Infos.{modes_number, pair_info, HasPairInfo, there_status};
ghost use Rattle.mls_c.specs.Opened.{state_of};
ghost use Rattle.mls_c.specs.Texts.{status_if_open};
ghost use Rattle.mls_c.specs.declared.status.TheConstants.{OK};

use crate::handle::Mls;
use crate::status::{ECLOSED, ENOTFOUND, OK};
use mls_state::State;
use mls_tables::{Mode, Modes, ObjectId, SubjectId};

/// A subject and an object: the modes that the matrix permits, and those in which the access is held. Execute is 1,
/// read 2, append 4 and write 8, and sets of modes are sums.
#[repr(C)]
#[derive(Clone, Copy)]
pub struct PairInfo {
    pub permitted: u8,
    pub held: u8,
}

/// The bit of a mode, where it is in a set.
fn mode_bit(modes: Modes, x: Mode, bit: u8) -> u8
    ensures { result ≡ if set.contains modes x then bit else 0 }
{
    if modes.has(x) { bit } else { 0 }
}

/// The number of a set of modes.
fn number_of_modes(modes: Modes) -> u8
    ensures { (table : TripleSet) (s o : ℕ) → ((x : Mode) → set.contains modes x ≡ set.contains table (s, o, x))
        → result ≡ modes_number table s o }
{
    let first = mode_bit(modes, Mode::Execute, 1) | mode_bit(modes, Mode::Read, 2);
    first | mode_bit(modes, Mode::Append, 4) | mode_bit(modes, Mode::Write, 8)
}

impl PairInfo {
    /// A known subject and an active object in numbers.
    fn of(state: &State, s: SubjectId, o: ObjectId) -> PairInfo
        requires subject { IsTrue (is_subject state.now s) }
        requires object { IsTrue (is_active state.now o) }
        ensures { result ≡ pair_info state.now s o }
    {
        PairInfo {
            permitted: number_of_modes(state.allowed(s, o)),
            held: number_of_modes(state.accesses(s, o)),
        }
    }
}

/// Copies out what is permitted and what is held.
pub(crate) fn copy_pair(state: &State, subject: u16, object: u16, info: &mut PairInfo) -> i32
    ensures status { result ≡ there_status (is_subject state.now subject && is_active state.now object) }
    ensures copied { result ≡ OK → info.new ≡ pair_info state.now subject object }
    ensures silent { result ≢ OK → info.new ≡ info.old }
{
    let subject = SubjectId::new(subject);
    let object = ObjectId::new(object);
    if !state.is_subject(subject) || !state.is_active(object) {
        return ENOTFOUND;
    }
    *info = PairInfo::of(state, subject, object);
    OK
}

/// Copies out which modes the matrix permits a subject on an object, and in which it holds it. It doesn't allocate.
#[unsafe(no_mangle)]
pub extern "C" fn mls_read_pair(m: &mut Mls, subject: u16, object: u16, info: &mut PairInfo) -> i32
    ensures status { result ≡ status_if_open m.old.monitor.value
        (λ v. there_status (is_subject (state_of v) subject && is_active (state_of v) object)) }
    ensures copied { result ≡ OK → HasPairInfo m.old.monitor.value subject object info.new }
    ensures same { m.new.monitor.value ≡ m.old.monitor.value }
    ensures silent { result ≢ OK → info.new ≡ info.old }
{
    if m.held == 0 {
        return ECLOSED;
    }
    let opened = m.monitor.lend();
    copy_pair(opened.state(), subject, object, info)
}
