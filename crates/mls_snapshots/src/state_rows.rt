//! The rows of a state's text.
ghost use Rattle.std.specs.Prelude.{◌≡◌, ℕ, List, [], None, IfOk, IfErr, OnOk, length, slice_index_or};
ghost use Rattle.mls_wording.specs.ReadBack.{HasNames};
ghost use Rattle.mls_snapshots.specs.declared.read_fault.ReadStateFault.TheVariants.{Memory};
ghost use Rattle.mls_snapshots.specs.Gathering.{IsUnsaid, Says, said_by, with_line, with_rows};
ghost use Rattle.mls_snapshots.specs.Rows.{Row, AllWithin, joined};
ghost use Rattle.mls_snapshots.specs.declared.state_line.StateLine.TheVariants as line;

use crate::read_fault::ReadStateFault;
use crate::state_line::{ObjectParts, StateLine, read_line, words_are_seen};
use crate::state_words::cut;
use mls_lines::Names;
use mls_state::{Subject, Table};
use mls_tables::{MAX_OBJECTS, Mode, ObjectId, SubjectId};
use mls_tree::Profile;
use std::alloc::{AllocError, Global};

/// What the lines of a state's text say, thing by thing.
#[derive(Drop)]
pub(crate) struct StateRows {
    pub profile: Profile,
    pub next: u16,
    pub subjects: Vec<Subject>,
    /// The objects by their numbers; `None` where a number is no object's.
    pub objects: Vec<Option<ObjectParts>>,
    pub cells: Vec<(SubjectId, ObjectId, Mode)>,
    pub accesses: Vec<(SubjectId, ObjectId, Mode)>,
}

impl StateRows {
    /// Makes a place for each object, with nothing in it.
    fn make_room(&mut self, count: u16) -> Result<(), AllocError>
        requires { self.old.objects.items ≡ [] }
        ensures room { OnOk result (length self.new.objects.items ≡ count) }
        ensures none { OnOk result ((o : ℕ) → slice_index_or self.new.objects.items o None ≡ None) }
        ensures rest { said_by self.new ≡ record (said_by self.old) { objects = self.new.objects.items } }
    {
        for _n in 0..count {
            self.objects.push(None)?;
        }
        Ok(())
    }

    /// No rows.
    fn new(alloc: Global) -> Result<StateRows, AllocError>
        ensures { IfOk result (λ rows. IsUnsaid (said_by rows)) }
    {
        let mut rows = StateRows {
            profile: Profile::One,
            next: 0,
            subjects: Vec::new(alloc),
            objects: Vec::new(alloc),
            cells: Vec::new(alloc),
            accesses: Vec::new(alloc),
        };
        match rows.make_room(MAX_OBJECTS) {
            Ok(()) => Ok(rows),
            Err(AllocError) => {
                drop(rows);
                Err(AllocError)
            }
        }
    }

    /// Enters what a line says of an object; nothing where its number is too great.
    #[tactic(auto, using(std::proofs::lemmas::List::set_past))]
    fn enter(&mut self, o: ObjectId, parts: ObjectParts)
        ensures { said_by self.new ≡ with_line (said_by self.old) (line.Object o parts) }
    {
        let at = o.number() as usize;
        if at < self.objects.len() {
            self.objects[at] = Some(parts);
        }
    }

    /// Adds a subject.
    fn add_subject(&mut self, subject: Subject) -> Result<(), AllocError>
        ensures { OnOk result (said_by self.new ≡ with_line (said_by self.old) (line.Subject subject)) }
    {
        self.subjects.push(subject)?;
        Ok(())
    }

    /// Adds what a line says of a triple.
    fn add_triple(
        &mut self,
        table: Table,
        triple: &(SubjectId, ObjectId, Mode),
    ) -> Result<(), AllocError>
        ensures { OnOk result (said_by self.new ≡ with_line (said_by self.old) (line.Triple table triple.now)) }
    {
        match table {
            Table::Matrix => {
                self.cells.push(*triple)?;
                Ok(())
            }
            Table::Accesses => {
                self.accesses.push(*triple)?;
                Ok(())
            }
        }
    }

    /// Adds what a line says.
    fn add(&mut self, line: &StateLine) -> Result<(), AllocError>
        ensures { OnOk result (said_by self.new ≡ with_line (said_by self.old) line.now) }
    {
        match line {
            StateLine::Profile(profile) => {
                self.profile = *profile;
                Ok(())
            }
            StateLine::Next(next) => {
                self.next = *next;
                Ok(())
            }
            StateLine::Subject(subject) => self.add_subject(*subject),
            StateLine::Object(o, parts) => {
                self.enter(*o, *parts);
                Ok(())
            }
            StateLine::Triple(table, triple) => self.add_triple(*table, triple),
        }
    }

    /// Adds what the lines of a text say, up to the first that is empty.
    ///
    /// # Errors
    /// `Line` where a line says nothing, and `Memory`.
    fn add_lines(&mut self, names: &Names, text: &str) -> Result<(), ReadStateFault>
        ensures said { (rows : List Row) → HasNames names.now → AllWithin names.now rows
            → text.now ≡ joined names.now rows → OnOk result (said_by self.new ≡ with_rows (said_by self.old) rows) }
        ensures fault { (rows : List Row) → HasNames names.now → AllWithin names.now rows
            → text.now ≡ joined names.now rows → IfErr result (λ fault. fault ≡ Memory) }
    {
        words_are_seen(names);
        let mut rest = text;
        let mut number: u64 = 1;
        loop {
            let (line, others) = cut(rest, '\n');
            if line.is_empty() {
                return Ok(());
            }
            let Some(said) = read_line(names, line) else {
                return Err(ReadStateFault::Line(number));
            };
            self.add(&said)?;
            rest = others;
            number = number.saturating_add(1);
        }
    }

    /// What the lines of a text say.
    ///
    /// # Errors
    /// `Line` where a line says nothing, and `Memory`.
    pub(crate) fn read(
        alloc: Global,
        names: &Names,
        text: &str,
    ) -> Result<StateRows, ReadStateFault>
        ensures said { (rows : List Row) → HasNames names.now → AllWithin names.now rows
            → text.now ≡ joined names.now rows → IfOk result (λ read. Says (said_by read) rows) }
        ensures fault { (rows : List Row) → HasNames names.now → AllWithin names.now rows
            → text.now ≡ joined names.now rows → IfErr result (λ fault. fault ≡ Memory) }
    {
        let mut rows = StateRows::new(alloc)?;
        match rows.add_lines(names, text) {
            Ok(()) => Ok(rows),
            Err(fault) => {
                drop(rows);
                Err(fault)
            }
        }
    }
}
