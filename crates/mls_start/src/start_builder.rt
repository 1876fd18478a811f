//! What a start is built from.
ghost use Rattle.std.specs.Prelude.{◌≡◌, [], ◌∷◌, ◌++◌, Some, None, IfOk, IfErr, OnOk, OnErr};
ghost use Rattle.std.specs.FinSet as set;
ghost use Rattle.mls_start.specs.Rows.{opening};
ghost use Rattle.mls_start.specs.StartFaults.{start_fault};

use crate::object_row::ObjectRow;
use crate::start::Start;
use mls_labels::{Bounds, IntLabel, SecLabel};
use mls_state::{ObjectLabels, StartFault, Subject};
use mls_tables::{Mode, ObjectId, SubjectId};
use mls_tree::Profile;
use std::alloc::{AllocError, Allocator, Global};
use std::marker::Model;

pub(crate) mod cells;
mod faults;
mod judging;
mod opening;
mod secure;

/// The rows of a start, as they are given: bounds, profile, subjects, objects, the matrix and the current accesses.
/// Calls may come in any order and give anything; all of it is judged by [`build`](StartBuilder::build).
#[derive(Drop)]
pub struct StartBuilder<A: Allocator = Global> {
    security: Bounds,
    integrity: Bounds,
    profile: Profile,
    root: ObjectLabels,
    subjects: Vec<Subject, A>,
    objects: Vec<ObjectRow, A>,
    /// Each triple as often as it was allowed.
    cells: Vec<(SubjectId, ObjectId, Mode), A>,
    /// Each triple as often as it was given as an access.
    accesses: Vec<(SubjectId, ObjectId, Mode), A>,
}

impl<A: Allocator> Model for StartBuilder<A> {
    ghost use Rattle.std.specs.FinSet as set;
    ghost use Rattle.mls_start.specs.Rows.{Rows, rows_code};

    ghost Value = { Rows };

    ghost coded = { rows_code };

    ghost view = { λ a. record {
      security = a.security;
      integrity = a.integrity;
      profile = a.profile;
      root = a.root;
      subjects = a.subjects.items;
      objects = a.objects.items;
      cells = set.from_list a.cells.items;
      accesses = set.from_list a.accesses.items;
    } };
}

/// Why a start was not built. The builder is as it was.
#[derive(Drop)]
pub struct BuildRefused<A: Allocator = Global> {
    pub fault: StartFault,
    pub builder: StartBuilder<A>,
}

impl<A: Allocator + Copy> StartBuilder<A> {
    /// A builder of these bounds and the root in profile 1, with no subject, no object more, and nothing permitted or
    /// accessed. It doesn't allocate.
    pub fn new(
        alloc: A,
        security: Bounds,
        integrity: Bounds,
        root_security: SecLabel,
        root_integrity: IntLabel,
    ) -> StartBuilder<A>
        ensures { result ≡ record {
          security = security;
          integrity = integrity;
          profile = Profile.One;
          root = record { security = root_security; integrity = root_integrity };
          subjects = [];
          objects = [];
          cells = set.empty;
          accesses = set.empty;
        } }
    {
        StartBuilder {
            security,
            integrity,
            profile: Profile::One,
            root: ObjectLabels {
                security: root_security,
                integrity: root_integrity,
            },
            subjects: Vec::new(alloc),
            objects: Vec::new(alloc),
            cells: Vec::new(alloc),
            accesses: Vec::new(alloc),
        }
    }
}

impl<A: Allocator> StartBuilder<A> {
    /// Says whether object numbers are used again. Of several calls the last counts; without one it is profile 1.
    pub fn use_profile(&mut self, profile: Profile)
        ensures { self.new ≡ record self.old { profile = profile } }
    {
        self.profile = profile;
    }

    /// Gives one subject more. Subjects have the numbers from 0, in the order of these calls.
    ///
    /// # Errors
    /// `AllocError` where an allocation failed; the builder is then as it was.
    pub fn subject(
        &mut self,
        maximum: SecLabel,
        current: SecLabel,
        integrity: IntLabel,
        trusted: bool,
    ) -> Result<(), AllocError>
        ensures ok { OnOk result (self.new ≡ record self.old {
          subjects = self.old.subjects
              ++ record { maximum = maximum; current = current; integrity = integrity; trusted = trusted } ∷ [];
        }) }
        ensures err { OnErr result (self.new ≡ self.old) }
    {
        self.subjects.push(Subject {
            maximum,
            current,
            integrity,
            trusted,
        })?;
        Ok(())
    }

    /// Gives one object more. Objects have the numbers from 1, in the order of these calls; the root is 0.
    ///
    /// # Errors
    /// `AllocError` where an allocation failed; the builder is then as it was.
    pub fn object(
        &mut self,
        parent: ObjectId,
        security: SecLabel,
        integrity: IntLabel,
    ) -> Result<(), AllocError>
        ensures ok { OnOk result (self.new ≡ record self.old {
          objects = self.old.objects
              ++ record { parent = parent; labels = record { security = security; integrity = integrity } } ∷ [];
        }) }
        ensures err { OnErr result (self.new ≡ self.old) }
    {
        self.objects.push(ObjectRow {
            parent,
            labels: ObjectLabels {
                security,
                integrity,
            },
        })?;
        Ok(())
    }

    /// Permits a triple in the matrix. One that is allowed twice counts once.
    ///
    /// # Errors
    /// `AllocError` where an allocation failed; the builder is then as it was.
    #[tactic(auto, using(crate::proofs::Cells::from_list_pushed))]
    pub fn allow(&mut self, s: SubjectId, o: ObjectId, x: Mode) -> Result<(), AllocError>
        ensures ok { OnOk result (self.new ≡ record self.old { cells = set.insert self.old.cells (s, o, x) }) }
        ensures err { OnErr result (self.new ≡ self.old) }
    {
        self.cells.push((s, o, x))?;
        Ok(())
    }

    /// Gives a current access that the start opens with. One that is given twice counts once.
    ///
    /// # Errors
    /// `AllocError` where an allocation failed; the builder is then as it was.
    #[tactic(auto, using(crate::proofs::Cells::from_list_pushed))]
    pub fn access(&mut self, s: SubjectId, o: ObjectId, x: Mode) -> Result<(), AllocError>
        ensures ok { OnOk result (self.new ≡ record self.old { accesses = set.insert self.old.accesses (s, o, x) }) }
        ensures err { OnErr result (self.new ≡ self.old) }
    {
        self.accesses.push((s, o, x))?;
        Ok(())
    }

    /// The start that opens with just what was given. It doesn't allocate, and sorts the triples that were given.
    ///
    /// # Errors
    /// The first fault that applies to any of what was given, whatever the order of the calls, and the builder as it
    /// was.
    pub fn build(self) -> Result<Start<A>, BuildRefused<A>>
        ensures ok { IfOk result (λ start. start ≡ opening self) }
        ensures faultless { OnOk result (start_fault self ≡ None) }
        ensures fault { IfErr result (λ refused. start_fault self ≡ Some refused.fault) }
        ensures builder { IfErr result (λ refused. refused.builder ≡ self) }
    {
        let mut rows = self;
        match rows.judge() {
            Ok(counts) => Ok(Start::of(rows, counts)),
            Err(fault) => Err(BuildRefused {
                fault,
                builder: rows,
            }),
        }
    }
}
