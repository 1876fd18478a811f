//! Why a service ended before its input.
ghost use Rattle.std.specs.Prelude.{◌≡◌};

use crate::attend_fault::AttendFault;
use crate::recover_fault::RecoverFault;
use thiserror::Error;

/// Why a service ended before its input.
#[derive(Clone, Copy, Debug, PartialEq, Eq, Error)]
pub enum ServiceFault {
    /// The journal's file isn't one to go on from. Nothing was handed out, and nothing was read of the input.
    #[error("the journal can't be gone on from: {0}")]
    Recover(RecoverFault),
    /// The client wasn't attended to the end of its input.
    #[error("the service stopped: {0}")]
    Attend(AttendFault),
}

impl From<RecoverFault> for ServiceFault {
    ghost use Rattle.std.specs.Prelude.{◌≡◌};
    ghost use Rattle.mls_durable.specs.declared.service_fault.ServiceFault.TheVariants.{Recover};

    ghost from_gives = { λ refused fault. fault ≡ Recover refused };

    fn from(fault: RecoverFault) -> ServiceFault {
        ServiceFault::Recover(fault)
    }
}

impl From<AttendFault> for ServiceFault {
    ghost use Rattle.std.specs.Prelude.{◌≡◌};
    ghost use Rattle.mls_durable.specs.declared.service_fault.ServiceFault.TheVariants.{Attend};

    ghost from_gives = { λ stopped fault. fault ≡ Attend stopped };

    fn from(fault: AttendFault) -> ServiceFault {
        ServiceFault::Attend(fault)
    }
}
