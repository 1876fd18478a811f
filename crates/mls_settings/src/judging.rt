//! Whether settings name what there is, and set labels to labels.
ghost use Rattle.std.specs.Prelude.{◌≡◌, IfErr, IfOk, IsTrue};
ghost use Rattle.mls_labels.specs.Reading.{label_at};
ghost use Rattle.mls_settings.specs.Settings.{RefusesSetting, are_right, is_named, is_read, is_value};

use crate::setting::{Member, Setting};
use mls_labels::Scheme;
use mls_lines::Names;
use thiserror::Error;

/// Why settings aren't made.
#[derive(Clone, Copy, Debug, PartialEq, Eq, Error)]
pub enum SettingFault {
    /// The setting at this place names nothing that has its member.
    #[error("setting {0} names nothing that has its member")]
    Name(usize),
    /// The setting at this place sets a label to what is none.
    #[error("setting {0} sets a label to what is none")]
    Label(usize),
}

/// Whether a name is one of something that has this member.
fn is_named(names: &Names, member: Member, name: &str) -> bool
    ensures { result ≡ is_named names.now member name.now }
{
    match member {
        Member::Maximum | Member::Current | Member::Trusted => names.subject(name).is_some(),
        Member::Integrity => names.subject(name).is_some() || names.object(name).is_some(),
        Member::Security => names.object(name).is_some(),
    }
}

/// Whether a text spells a label of a scheme.
fn is_read(scheme: &Scheme, text: &str) -> bool
    ensures { result ≡ is_read (label_at scheme.now text.now) }
{
    scheme.read(text).is_ok()
}

/// Whether a text is a value of a member: of one that is a label, the text of one.
fn is_value(names: &Names, member: Member, value: &str) -> bool
    ensures { result ≡ is_value names.now member value.now }
{
    match member {
        Member::Maximum | Member::Current | Member::Security => is_read(names.security(), value),
        Member::Integrity => is_read(names.integrity(), value),
        Member::Trusted => true,
    }
}

/// Judges settings by the names of a start: the first with a fault is told, its name before its value.
///
/// # Errors
/// `Name` or `Label` with its place.
pub fn judge(names: &Names, settings: &[Setting<'_>]) -> Result<(), SettingFault>
    ensures right { IfOk result (λ _. IsTrue (are_right names.now settings.now)) }
    ensures fault { IfErr result (λ fault. RefusesSetting names.now settings.now fault) }
{
    for (k, setting) in settings.iter().enumerate() {
        if !is_named(names, setting.member, setting.name) {
            return Err(SettingFault::Name(k));
        }
        if !is_value(names, setting.member, setting.value) {
            return Err(SettingFault::Label(k));
        }
    }
    Ok(())
}
