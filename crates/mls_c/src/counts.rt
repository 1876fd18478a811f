//! How much a handle holds.
ghost use Rattle.std.specs.Prelude.{◌≡◌, ◌≢◌, Some};
ghost use Rattle.mls_c.specs.Infos.{active_count, AreCounts, HasCounts};
ghost use Rattle.mls_c.specs.Texts.{status_if_open};
ghost use Rattle.mls_c.specs.declared.status.TheConstants.{OK};
ghost use Rattle.mls_tables.specs.declared.limits.TheConstants.{MAX_OBJECTS};

use crate::handle::Mls;
use crate::opened::Opened;
use crate::status::{ECLOSED, OK};
use mls_state::State;
use mls_tables::{MAX_OBJECTS, ObjectId};

/// How many entries, subjects and active objects there are, and the number that the next object will have, 4,096 where
/// there is none.
#[repr(C)]
#[derive(Clone, Copy)]
pub struct Counts {
    pub entries: u64,
    pub subjects: u16,
    pub objects: u16,
    pub next: u16,
}

/// How many objects are active.
fn count_objects(state: &State) -> u16
    ensures { result ≡ active_count state.now MAX_OBJECTS }
{
    let mut count = 0;
    for n in 0..MAX_OBJECTS {
        if state.is_active(ObjectId::new(n)) {
            count += 1;
        }
    }
    count
}

impl Counts {
    /// The counts of a state, with how many entries there are.
    pub(crate) fn of(state: &State, entries: u64) -> Counts
        ensures { AreCounts state.now entries result }
    {
        Counts {
            entries,
            subjects: state.subject_count(),
            objects: count_objects(state),
            next: state.next(),
        }
    }
}

/// Tells the counts of an open monitor.
fn tell_counts(opened: &Opened, counts: &mut Counts)
    ensures { HasCounts (Some opened.now) counts.new }
{
    *counts = Counts::of(opened.state(), opened.entry_count());
}

/// Tells how many entries, subjects and active objects there are, and the number of the next object. It doesn't
/// allocate.
#[unsafe(no_mangle)]
pub extern "C" fn mls_count(m: &mut Mls, counts: &mut Counts) -> i32
    ensures status { result ≡ status_if_open m.old.monitor.value (λ _. OK) }
    ensures told { result ≡ OK → HasCounts m.old.monitor.value counts.new }
    ensures same { m.new.monitor.value ≡ m.old.monitor.value }
    ensures silent { result ≢ OK → counts.new ≡ counts.old }
{
    if m.held == 0 {
        return ECLOSED;
    }
    let opened = m.monitor.lend();
    tell_counts(opened, counts);
    OK
}
