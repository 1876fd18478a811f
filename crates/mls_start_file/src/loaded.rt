//! A start with the names that its lines may use.
ghost use Rattle.std.specs.Prelude.{◌≡◌};
ghost use Rattle.mls_start_file.specs.Ties.{AreTied, HasFewNames};

use mls_lines::Names;
use mls_start::Start;
use std::alloc::{Allocator, Global};
use std::marker::Model;

/// A start, and the names that its lines may use. The start has as many subjects and objects as there are names of
/// them, and the bounds of its labels are those of the schemes: a name never stands for nothing.
#[derive(Drop)]
pub struct Loaded<A: Allocator = Global> {
    names: Names<A>,
    start: Start<A>,
}

impl<A: Allocator> Model for Loaded<A> {
    ghost use Rattle.mls_start_file.specs.Ties.{Loaded, loaded_code, AreTied};

    ghost Value = { Loaded };

    ghost coded = { loaded_code };

    ghost view = { λ l. record { names = l.names; start = l.start } };

    ghost invariant = { λ l. AreTied l.names l.start };
}

impl<A: Allocator> Loaded<A> {
    /// A start with its names.
    pub(crate) fn new(names: Names<A>, start: Start<A>) -> Loaded<A>
        requires { AreTied names start }
        ensures { result ≡ record { names = names; start = start } }
    {
        Loaded { names, start }
    }

    /// The names, which go with the start: no more than subjects and objects can have.
    pub fn names(&self) -> &Names<A>
        ensures names { result.now ≡ self.now.names }
        ensures tied { AreTied self.now.names self.now.start }
        ensures few { HasFewNames self.now.names }
    {
        // how many subjects and objects the start has
        let _ = self.start.subject_count();
        let _ = self.start.object_count();
        &self.names
    }

    /// The start.
    pub fn start(&self) -> &Start<A>
        ensures { result.now ≡ self.now.start }
    {
        &self.start
    }

    /// The names and the start, which go together.
    pub fn into_parts(self) -> (Names<A>, Start<A>)
        ensures names { result.0 ≡ self.names }
        ensures start { result.1 ≡ self.start }
        ensures tied { AreTied result.0 result.1 }
    {
        let Loaded { names, start } = self;
        (names, start)
    }
}
