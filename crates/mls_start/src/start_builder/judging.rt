//! The judgement of the rows of a start.
ghost use Rattle.std.specs.Prelude.{◌≡◌, IfOk, IfErr, OnOk, Some, None};
ghost use Rattle.mls_start.specs.Rows.{AreCounts};
ghost use Rattle.mls_start.specs.StartFaults.{start_fault};

use crate::counts::Counts;
use crate::start_builder::StartBuilder;
use crate::start_builder::cells::drop_repeats;
use crate::start_builder::secure::are_secure;
use mls_state::StartFault;
use std::alloc::Allocator;

impl<A: Allocator> StartBuilder<A> {
    /// How many triples of each kind were given, each counted once. From then on the builder keeps each once.
    ///
    /// # Errors
    /// The first fault that applies to what was given.
    pub(crate) fn judge(&mut self) -> Result<Counts, StartFault>
        ensures counts { IfOk result (AreCounts self.old) }
        ensures faultless { OnOk result (start_fault self.old ≡ None) }
        ensures fault { IfErr result (λ fault. start_fault self.old ≡ Some fault) }
        ensures same { self.new ≡ self.old }
    {
        drop_repeats(&mut self.cells);
        drop_repeats(&mut self.accesses);
        if let Some(fault) = self.fault() {
            return Err(fault);
        }
        if !are_secure(
            &self.subjects,
            &self.root,
            &self.objects,
            &self.cells,
            &self.accesses,
        ) {
            return Err(StartFault::NotSecure);
        }
        Ok(Counts {
            cells: self.cells.len(),
            accesses: self.accesses.len(),
        })
    }
}
