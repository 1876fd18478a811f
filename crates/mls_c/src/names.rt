//! The names of an open monitor's start.
ghost use Rattle.std.specs.Prelude.{◌≡◌, ◌≢◌, Some};
ghost use Rattle.mls_c.specs.Texts.{name_in, found_status, status_if_open, subject_named, object_named};
ghost use Rattle.mls_c.specs.declared.status.TheConstants.{OK};

use crate::handle::Mls;
use crate::status::{ECLOSED, ENOTFOUND, OK};
use crate::text::text_of;
use mls_lines::Names;

/// The number of the subject of a name.
fn subject_of(names: &Names, name: &[u8]) -> Option<u16>
    ensures { result ≡ name_in names.now.subjects name.now }
{
    let subject = names.subject(text_of(name)?)?;
    Some(subject.number())
}

/// The number of the object of a name.
fn object_of(names: &Names, name: &[u8]) -> Option<u16>
    ensures { result ≡ name_in names.now.objects name.now }
{
    let object = names.object(text_of(name)?)?;
    Some(object.number())
}

/// Tells the number of a name, where it has one.
pub(crate) fn tell(found: Option<u16>, number: &mut u16) -> i32
    ensures status { result ≡ found_status found }
    ensures found { result ≡ OK → found ≡ Some number.new }
    ensures silent { result ≢ OK → number.new ≡ number.old }
{
    match found {
        Some(found) => {
            *number = found;
            OK
        }
        None => ENOTFOUND,
    }
}

/// The number of the subject of a name. It doesn't allocate.
#[unsafe(no_mangle)]
pub extern "C" fn mls_subject_bytes(m: &mut Mls, name: &[u8], number: &mut u16) -> i32
    ensures status { result
        ≡ status_if_open m.old.monitor.value (λ v. found_status (name_in v.names.subjects name.now)) }
    ensures found { result ≡ OK → subject_named m.old.monitor.value name.now ≡ Some number.new }
    ensures silent { result ≢ OK → number.new ≡ number.old }
    ensures same { m.new.monitor.value ≡ m.old.monitor.value }
{
    if m.held == 0 {
        return ECLOSED;
    }
    let opened = m.monitor.lend();
    tell(subject_of(opened.names(), name), number)
}

/// The number of the object of a name of the start. It doesn't allocate.
#[unsafe(no_mangle)]
pub extern "C" fn mls_object_bytes(m: &mut Mls, name: &[u8], number: &mut u16) -> i32
    ensures status { result
        ≡ status_if_open m.old.monitor.value (λ v. found_status (name_in v.names.objects name.now)) }
    ensures found { result ≡ OK → object_named m.old.monitor.value name.now ≡ Some number.new }
    ensures silent { result ≢ OK → number.new ≡ number.old }
    ensures same { m.new.monitor.value ≡ m.old.monitor.value }
{
    if m.held == 0 {
        return ECLOSED;
    }
    let opened = m.monitor.lend();
    tell(object_of(opened.names(), name), number)
}
