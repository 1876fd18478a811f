//! What a handle holds of an object.
ghost use Rattle.std.specs.Prelude.{◌≡◌, ◌≢◌, ◌⊎◌, nat_lt, length, slice_get, IsTrue, Some, unwrap_or};
ghost use Rattle.std.specs.FinMap as map;
ghost use Rattle.std.specs.List.{find};
ghost use Rattle.mls_state.specs.State.{is_active};
ghost use Rattle.mls_start_text.specs.Each.{having};
ghost use Rattle.mls_c.specs.Infos.{IsObjectInfo, HasObjectInfo, child_above, there_status, name_status};
ghost use Rattle.mls_c.specs.Opened.{state_of};
ghost use Rattle.mls_c.specs.Texts.{status_if_open, found_status, LiesIn, HasLength};
ghost use Rattle.mls_c.specs.declared.status.TheConstants.{OK, ERANGE};

use crate::handle::Mls;
use crate::label::LabelNumbers;
use crate::names::tell;
use crate::status::{ECLOSED, ENOTFOUND, OK};
use crate::subject_info::copy_name;
use mls_state::State;
use mls_tables::ObjectId;

/// An object: its labels, and its parent, 0 where it is the root.
#[repr(C)]
#[derive(Clone, Copy)]
pub struct ObjectInfo {
    pub security: LabelNumbers,
    pub integrity: LabelNumbers,
    pub parent: u16,
}

/// The number of the parent of an active object, 0 where it has none.
fn parent_of(state: &State, o: ObjectId) -> u16
    requires { IsTrue (is_active state.now o) }
    ensures { result ≡ unwrap_or (map.get state.now.parent o) 0 }
{
    match state.parent(o) {
        Some(parent) => parent.number(),
        None => 0,
    }
}

impl ObjectInfo {
    /// An active object in numbers.
    fn of(state: &State, o: ObjectId) -> ObjectInfo
        requires { IsTrue (is_active state.now o) }
        ensures { IsObjectInfo state.now o result }
    {
        let labels = state.labels(o);
        ObjectInfo {
            security: LabelNumbers::of(labels.security.label()),
            integrity: LabelNumbers::of(labels.integrity.label()),
            parent: parent_of(state, o),
        }
    }
}

/// Copies out an object.
pub(crate) fn copy_object(state: &State, object: u16, info: &mut ObjectInfo) -> i32
    ensures status { result ≡ there_status (is_active state.now object) }
    ensures copied { result ≡ OK → IsObjectInfo state.now object info.new }
    ensures silent { result ≢ OK → info.new ≡ info.old }
{
    let object = ObjectId::new(object);
    if !state.is_active(object) {
        return ENOTFOUND;
    }
    *info = ObjectInfo::of(state, object);
    OK
}

/// Copies out an active object's labels and its parent. It doesn't allocate.
#[unsafe(no_mangle)]
pub extern "C" fn mls_read_object(m: &mut Mls, object: u16, info: &mut ObjectInfo) -> i32
    ensures status { result ≡ status_if_open m.old.monitor.value (λ v. there_status (is_active (state_of v) object)) }
    ensures copied { result ≡ OK → HasObjectInfo m.old.monitor.value object info.new }
    ensures same { m.new.monitor.value ≡ m.old.monitor.value }
    ensures silent { result ≢ OK → info.new ≡ info.old }
{
    if m.held == 0 {
        return ECLOSED;
    }
    let opened = m.monitor.lend();
    copy_object(opened.state(), object, info)
}

/// The first of some objects whose number is above another.
#[tactic(auto, using(crate::proofs::Rows::not_yet, crate::proofs::Rows::is_here, crate::proofs::Rows::is_nowhere))]
fn first_above(objects: &[ObjectId], above: u16) -> Option<u16>
    ensures { result ≡ find (λ c. nat_lt above c) objects.now }
{
    for object in objects {
        if above < object.number() {
            return Some(object.number());
        }
    }
    None
}

/// The least child of an object that is above a number, where the object is active and has one.
pub(crate) fn child_above(state: &State, object: u16, above: u16) -> Option<u16>
    ensures { result ≡ child_above state.now object above }
{
    let object = ObjectId::new(object);
    if !state.is_active(object) {
        return None;
    }
    first_above(state.children(object), above)
}

/// The least child of an object whose number is above another: from 0, which is no child's, each call gives the next.
/// It doesn't allocate.
#[unsafe(no_mangle)]
pub extern "C" fn mls_next_child(m: &mut Mls, object: u16, above: u16, child: &mut u16) -> i32
    ensures status { result
        ≡ status_if_open m.old.monitor.value (λ v. found_status (child_above (state_of v) object above)) }
    ensures found { result ≡ OK
        → having m.old.monitor.value (λ v. child_above (state_of v) object above) ≡ Some child.new }
    ensures silent { result ≢ OK → child.new ≡ child.old }
    ensures same { m.new.monitor.value ≡ m.old.monitor.value }
{
    if m.held == 0 {
        return ECLOSED;
    }
    let opened = m.monitor.lend();
    tell(child_above(opened.state(), object, above), child)
}

/// Copies out the name that the start has for the number of an object. The length of the name is told where the buffer
/// is too short, too. It doesn't allocate.
#[unsafe(no_mangle)]
pub extern "C" fn mls_object_name_bytes(
    m: &mut Mls,
    object: u16,
    buffer: &mut [u8],
    len: &mut usize,
) -> i32
    ensures status { result ≡ status_if_open m.old.monitor.value
        (λ v. name_status (slice_get v.names.objects object) (length buffer.old)) }
    ensures copied { result ≡ OK
        → LiesIn (having m.old.monitor.value (λ v. slice_get v.names.objects object)) buffer.old buffer.new }
    ensures short { result ≢ OK → buffer.new ≡ buffer.old }
    ensures told { (result ≡ OK) ⊎ (result ≡ ERANGE)
        → HasLength (having m.old.monitor.value (λ v. slice_get v.names.objects object)) len.new }
    ensures silent { result ≢ OK → result ≢ ERANGE → len.new ≡ len.old }
    ensures same { m.new.monitor.value ≡ m.old.monitor.value }
{
    if m.held == 0 {
        return ECLOSED;
    }
    let opened = m.monitor.lend();
    let name = opened.names().object_name(ObjectId::new(object));
    copy_name(name, buffer, len)
}
