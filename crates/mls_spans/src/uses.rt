//! What is told of the uses of a permission.
ghost use Rattle.std.specs.Prelude.{◌≡◌, ◌+◌, IfOk};
ghost use Rattle.mls_spans.specs.Kept.{no_uses, told_of, with_use};

use std::alloc::AllocError;

/// How often a permission was used.
#[derive(Clone, Copy, Debug)]
pub struct Uses {
    /// How many of its gets were granted.
    pub granted: u64,
    /// How many of its gets were denied.
    pub denied: u64,
    /// The number of the last entry of both.
    pub last: Option<u64>,
}

/// A number and one more.
///
/// # Errors
/// `AllocError` behind the greatest number: memory for so many entries isn't there.
fn one_more(count: u64) -> Result<u64, AllocError>
    ensures { IfOk result (λ more. more ≡ count + 1) }
{
    if count == u64::MAX {
        return Err(AllocError);
    }
    Ok(count + 1)
}

impl Uses {
    /// No uses.
    pub(crate) fn none() -> Uses
        ensures { result ≡ no_uses }
    {
        Uses {
            granted: 0,
            denied: 0,
            last: None,
        }
    }

    /// What was told, or else no uses.
    pub(crate) fn told(found: Option<Uses>) -> Uses
        ensures { result ≡ told_of found }
    {
        match found {
            Some(uses) => uses,
            None => Uses::none(),
        }
    }

    /// One use more, by the entry of this number.
    pub(crate) fn with_use(self, is_granted: bool, number: u64) -> Result<Uses, AllocError>
        ensures { IfOk result (λ uses. uses ≡ with_use self is_granted number) }
    {
        if is_granted {
            return Ok(Uses {
                granted: one_more(self.granted)?,
                denied: self.denied,
                last: Some(number),
            });
        }
        Ok(Uses {
            granted: self.granted,
            denied: one_more(self.denied)?,
            last: Some(number),
        })
    }
}
