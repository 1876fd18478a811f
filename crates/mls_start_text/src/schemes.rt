//! The schemes of a start file.
ghost use Rattle.std.specs.Prelude.{◌≡◌, ◌≢◌, option_map, IfOk, IfErr, OnOk, Some, None};
ghost use Rattle.mls_labels.specs.Scheme.{scheme_fault};
ghost use Rattle.mls_start_text.specs.Naming.{schemes_fault};
ghost use Rattle.mls_start_text.specs.Views.{scheme_view, file_view};

use crate::file_text::FileText;
use crate::load_fault::LoadFault;
use crate::scheme_text::SchemeText;
use mls_labels::Scheme;
use std::alloc::Global;

/// The schemes of security and of integrity.
#[derive(Drop)]
pub struct Schemes {
    pub security: Scheme,
    pub integrity: Scheme,
}

/// The scheme of these names.
///
/// # Errors
/// `Scheme` with the first fault of the names, `Memory` where an allocation failed.
fn make_scheme(alloc: Global, text: &SchemeText<'_>) -> Result<Scheme, LoadFault>
    ensures ok { IfOk result (λ scheme. scheme ≡ scheme_view text.now) }
    ensures faultless { OnOk result (scheme_fault (scheme_view text.now) ≡ None) }
    ensures fault { IfErr result
        (λ fault. fault ≢ LoadFault.Memory
        → option_map (λ refused. LoadFault.Scheme refused) (scheme_fault (scheme_view text.now)) ≡ Some fault) }
{
    let scheme = Scheme::new(alloc, &text.levels, &text.categories)?;
    // (that its names have no fault)
    let _ = scheme.bounds();
    Ok(scheme)
}

impl Schemes {
    /// The schemes of a file.
    ///
    /// # Errors
    /// `Scheme` with the first fault of the security scheme's names, or else of the integrity scheme's; `Memory` where
    /// an allocation failed.
    pub(crate) fn make(alloc: Global, file: &FileText<'_>) -> Result<Schemes, LoadFault>
        ensures security { IfOk result (λ schemes. schemes.security ≡ (file_view file.now).security) }
        ensures integrity { IfOk result (λ schemes. schemes.integrity ≡ (file_view file.now).integrity) }
        ensures faultless { OnOk result (schemes_fault (file_view file.now) ≡ None) }
        ensures fault { IfErr result
            (λ fault. fault ≢ LoadFault.Memory
            → option_map (λ refused. LoadFault.Scheme refused) (schemes_fault (file_view file.now)) ≡ Some fault) }
    {
        let security = make_scheme(alloc, &file.security)?;
        match make_scheme(alloc, &file.integrity) {
            Ok(integrity) => Ok(Schemes {
                security,
                integrity,
            }),
            Err(fault) => {
                drop(security);
                Err(fault)
            }
        }
    }
}
