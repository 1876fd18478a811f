//! A call on a file that has failed.
use std::fmt::{Display, Formatter};
use std::{fmt, io};

/// A call on a file that the program writes, or on the clock whose time it writes.
#[derive(Clone, Copy, PartialEq, Eq)]
pub enum FileCall {
    Open,
    Lock,
    Read,
    Append,
    Cut,
    Sync,
    Link,
    Rename,
    Clock,
}

/// A call on a file that has failed, and the system's reason.
#[derive(Clone, Copy)]
pub struct CallFault {
    pub call: FileCall,
    pub error: io::Error,
}

/// What a call came to, with what was asked.
pub fn of_call<T: Drop>(call: FileCall, outcome: io::Result<T>) -> Result<T, CallFault> {
    match outcome {
        Ok(value) => Ok(value),
        Err(error) => Err(CallFault { call, error }),
    }
}

impl FileCall {
    /// The word for it.
    fn word(self) -> &'static str {
        match self {
            FileCall::Open => "open",
            FileCall::Lock => "lock",
            FileCall::Read => "read",
            FileCall::Append => "append",
            FileCall::Cut => "cut",
            FileCall::Sync => "sync",
            FileCall::Link => "link",
            FileCall::Rename => "rename",
            FileCall::Clock => "clock",
        }
    }
}

impl CallFault {
    /// The status to end with. What was appended or synced may be on the disk or not, and no later call tells: nothing
    /// may be started over the file until its pages in memory are gone.
    pub fn status(&self) -> u8 {
        match self.call {
            FileCall::Append | FileCall::Sync => 5,
            FileCall::Open | FileCall::Lock | FileCall::Read | FileCall::Cut => 1,
            FileCall::Link | FileCall::Rename | FileCall::Clock => 1,
        }
    }
}

impl Display for CallFault {
    fn fmt<W: fmt::Write>(&self, f: &mut Formatter<W>) -> fmt::Result {
        let word = self.call.word();
        let error = self.error;
        write!(f, "{word}: {error}")
    }
}
