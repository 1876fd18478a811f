//! A client whose lines come in pieces.
ghost use Rattle.std.specs.Prelude.{◌≡◌, ◌<◌, ◌≤◌, ◌++◌, ◌∷◌, [], ℕ, List, false, length, string_bytes, vec_len, OnOk};
ghost use Rattle.std.specs.Prelude.{MatchResult};
ghost use Rattle.mls_scripts.specs.Lines.{closed_lines, open_part, has_newline};
ghost use Rattle.mls_scripts.specs.Script.{standing_of};
ghost use Rattle.mls_durable.specs.History.{Known};
ghost use Rattle.mls_durable.specs.Batches.{Steps, pending};
ghost use Rattle.mls_durable.specs.Sessions.{kept_of};
ghost use Rattle.mls_durable.specs.declared.kept.TheConstants.{KEPT};

use crate::attend_fault::AttendFault;
use crate::batch::Batch;
use crate::kept::keep;
use crate::options::Protocol;
use crate::outside::Outside;
use mls_lines::Names;
use mls_monitor::Monitor;
use mls_scripts::cut_line;

/// A client whose lines are asked as they become complete, and what is needed of an unfinished one is kept.
#[derive(Drop)]
pub struct Client {
    pub batch: Batch,
    pub line: Vec<u8>,
}

impl Client {
    /// Keeps more bytes of a line that isn't complete.
    ///
    /// # Errors
    /// `Memory` where an allocation failed, once what was asked is committed; else as for a commit.
    fn keep_open<O: Outside>(
        &mut self,
        names: &Names,
        protocol: Protocol,
        monitor: &Monitor,
        more: &[u8],
        outside: &mut O,
    ) -> Result<(), AttendFault>
        requires { vec_len self.old.line ≤ KEPT }
        ensures steps { Known (O.history outside.old) (O.history outside.new)
            (λ h k. Steps names.now protocol
            (pending (standing_of self.old.batch.vars.bound monitor.now) self.old.batch)
            (pending (standing_of self.new.batch.vars.bound monitor.now) self.new.batch) [] h k result) }
        ensures line { OnOk result (self.new.line.items ≡ kept_of (self.old.line.items ++ more.now)) }
    {
        if keep(&mut self.line, more).is_err() {
            return Err(self.batch.give_up(outside));
        }
        Ok(())
    }

    /// Asks the line of which a beginning was kept and which ends with `last`.
    ///
    /// # Errors
    /// As for `Batch::ask`.
    fn end_line<O: Outside>(
        &mut self,
        names: &Names,
        protocol: Protocol,
        monitor: &mut Monitor,
        last: &[u8],
        outside: &mut O,
    ) -> Result<(), AttendFault>
        requires { vec_len self.old.line ≤ KEPT }
        ensures steps { (line : List ℕ) → self.old.line.items ≡ kept_of line
            → Known (O.history outside.old) (O.history outside.new)
            (λ h k. Steps names.now protocol
            (pending (standing_of self.old.batch.vars.bound monitor.old) self.old.batch)
            (pending (standing_of self.new.batch.vars.bound monitor.new) self.new.batch)
            ((line ++ last.now) ∷ []) h k result) }
        ensures line { OnOk result (self.new.line.items ≡ []) }
        ensures start { monitor.new.start ≡ monitor.old.start }
    {
        self.keep_open(names, protocol, monitor, last, outside)?;
        self.batch
            .ask(names, protocol, monitor, &self.line, outside)?;
        self.line.clear();
        Ok(())
    }

    /// Asks the lines of a piece that are complete, and keeps what stands after them.
    ///
    /// # Errors
    /// As for `Batch::ask`.
    fn ask_and_keep<O: Outside>(
        &mut self,
        names: &Names,
        protocol: Protocol,
        monitor: &mut Monitor,
        piece: &[u8],
        outside: &mut O,
    ) -> Result<(), AttendFault>
        requires { self.old.line.items ≡ [] }
        ensures steps { Known (O.history outside.old) (O.history outside.new)
            (λ h k. Steps names.now protocol
            (pending (standing_of self.old.batch.vars.bound monitor.old) self.old.batch)
            (pending (standing_of self.new.batch.vars.bound monitor.new) self.new.batch)
            (closed_lines piece.now) h k result) }
        ensures line { OnOk result (self.new.line.items ≡ kept_of (open_part piece.now)) }
        ensures start { monitor.new.start ≡ monitor.old.start }
    {
        let left = self
            .batch
            .ask_lines(names, protocol, monitor, piece, outside)?;
        self.keep_open(names, protocol, monitor, left, outside)
    }

    /// Asks the lines that are complete with one more piece, and keeps what stands after them.
    ///
    /// # Errors
    /// As for `Batch::ask`.
    fn ask_piece<O: Outside>(
        &mut self,
        names: &Names,
        protocol: Protocol,
        monitor: &mut Monitor,
        piece: &[u8],
        outside: &mut O,
    ) -> Result<(), AttendFault>
        requires { vec_len self.old.line ≤ KEPT }
        ensures steps { (line : List ℕ) → has_newline line ≡ false → self.old.line.items ≡ kept_of line
            → Known (O.history outside.old) (O.history outside.new)
            (λ h k. Steps names.now protocol
            (pending (standing_of self.old.batch.vars.bound monitor.old) self.old.batch)
            (pending (standing_of self.new.batch.vars.bound monitor.new) self.new.batch)
            (closed_lines (line ++ piece.now)) h k result) }
        ensures kept { (line : List ℕ) → has_newline line ≡ false → self.old.line.items ≡ kept_of line
            → OnOk result (self.new.line.items ≡ kept_of (open_part (line ++ piece.now))) }
        ensures start { monitor.new.start ≡ monitor.old.start }
    {
        if self.line.is_empty() {
            return self.ask_and_keep(names, protocol, monitor, piece, outside);
        }
        let Some((last, rest)) = cut_line(piece) else {
            return self.keep_open(names, protocol, monitor, piece, outside);
        };
        self.end_line(names, protocol, monitor, last, outside)?;
        self.ask_and_keep(names, protocol, monitor, rest, outside)
    }

    /// Takes one more piece: the lines that are complete with it are asked and committed, and what stands after them is
    /// kept.
    ///
    /// # Errors
    /// As for `Batch::ask`, or as for a commit.
    pub(crate) fn take_piece<O: Outside>(
        &mut self,
        names: &Names,
        protocol: Protocol,
        monitor: &mut Monitor,
        piece: &[u8],
        outside: &mut O,
    ) -> Result<(), AttendFault>
        requires { vec_len self.old.line ≤ KEPT }
        ensures steps { (line : List ℕ) → has_newline line ≡ false → self.old.line.items ≡ kept_of line
            → Known (O.history outside.old) (O.history outside.new)
            (λ h k. Steps names.now protocol
            (pending (standing_of self.old.batch.vars.bound monitor.old) self.old.batch)
            (pending (standing_of self.new.batch.vars.bound monitor.new) self.new.batch)
            (closed_lines (line ++ piece.now)) h k result) }
        ensures kept { (line : List ℕ) → has_newline line ≡ false → self.old.line.items ≡ kept_of line
            → OnOk result (self.new.line.items ≡ kept_of (open_part (line ++ piece.now))) }
        ensures text { OnOk result (string_bytes self.new.batch.text ≡ []) }
        ensures answers { OnOk result (self.new.batch.answers.items ≡ []) }
        ensures start { monitor.new.start ≡ monitor.old.start }
    {
        self.ask_piece(names, protocol, monitor, piece, outside)?;
        self.batch.commit(outside)
    }

    /// Takes the end of the input.
    ///
    /// # Errors
    /// `Unfinished` where the last line has no newline; it isn't asked.
    pub(crate) fn take_end(&self) -> Result<(), AttendFault>
        ensures { MatchResult result (λ _. self.now.line.items ≡ [])
            (λ fault. (fault ≡ AttendFault.Unfinished) × (0 < length self.now.line.items)) }
    {
        if self.line.is_empty() {
            return Ok(());
        }
        Err(AttendFault::Unfinished)
    }
}
