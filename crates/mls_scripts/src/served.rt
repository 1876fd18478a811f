//! A script that comes in pieces.
ghost use Rattle.std.specs.Prelude.{◌≡◌, ◌<◌, ◌≤◌, ◌+◌, ◌++◌, [], List, ℕ, false, length, vec_len, MatchOption, OnOk};
ghost use Rattle.mls_scripts.specs.Lines.{lines_of, closed_lines, open_part, has_newline, kept_of};
ghost use Rattle.mls_scripts.specs.Script.{standing_of, answer_to, after_line};
ghost use Rattle.mls_scripts.specs.Serve.{Replies, AnswersOrStops, AnswersOrFails, Feeds, TakesPiece};

use crate::answering::Answering;
use crate::lines::{cut_line, keep};
use crate::output::settle;
use crate::serving::ServeFault;
use mls_lines::MAX_LINE;
use mls_monitor::Monitor;
use std::alloc::Allocator;
use std::io::Write;

/// The last line of a script, by what is kept of the bytes after its last newline: it has one where there are any.
fn last_line(kept: &[u8]) -> Option<&[u8]>
    ensures { MatchOption result (length kept.now ≡ 0) (λ line. (line.now ≡ kept.now) × (0 < length kept.now)) }
{
    if kept.is_empty() {
        return None;
    }
    Some(kept)
}

/// A script that is being served: its lines are answered as they become complete, and what is needed of an unfinished
/// one is kept.
#[derive(Drop)]
pub struct Served<'s, N: Allocator, V: Allocator> {
    pub answering: Answering<'s, N, V>,
    pub line: Vec<u8, V>,
}

impl<N: Allocator, V: Allocator + Copy> Served<'_, N, V> {
    /// Answers the line of which a beginning was kept and which ends with `last`.
    fn end_line<W: Write, A: Allocator>(
        &mut self,
        monitor: &mut Monitor<A>,
        last: &[u8],
        writer: &mut W,
    ) -> Result<(), ServeFault>
        requires { vec_len self.old.line ≤ MAX_LINE + 1 }
        ensures replied { let before = standing_of self.old.answering.vars.bound monitor.old in
            let after = standing_of self.new.answering.vars.bound monitor.new in
            let asked = kept_of (self.old.line.items ++ last.now) in
            Replies (W.contents writer.old) (W.contents writer.new) before after
            (answer_to self.old.answering.script.names.now before asked)
            (after_line self.old.answering.script.names.now self.old.answering.script.session before asked) result }
        ensures line { OnOk result (self.new.line.items ≡ []) }
        ensures names { self.new.answering.script.names.now ≡ self.old.answering.script.names.now }
        ensures session { self.new.answering.script.session ≡ self.old.answering.script.session }
        ensures forgotten { monitor.new.forgotten ≡ monitor.old.forgotten }
    {
        keep(&mut self.line, last)?;
        self.answering.reply(monitor, &self.line, writer)?;
        self.line.clear();
        Ok(())
    }

    /// Answers the lines of a piece that are complete, and keeps what stands after them.
    fn reply_and_keep<W: Write, A: Allocator>(
        &mut self,
        monitor: &mut Monitor<A>,
        piece: &[u8],
        writer: &mut W,
    ) -> Result<(), ServeFault>
        requires { self.old.line.items ≡ [] }
        ensures answered { AnswersOrStops self.old.answering.script.names.now self.old.answering.script.session
            (W.contents writer.old) (W.contents writer.new)
            (standing_of self.old.answering.vars.bound monitor.old)
            (standing_of self.new.answering.vars.bound monitor.new)
            (closed_lines piece.now) result }
        ensures line { OnOk result (self.new.line.items ≡ kept_of (open_part piece.now)) }
        ensures names { self.new.answering.script.names.now ≡ self.old.answering.script.names.now }
        ensures session { self.new.answering.script.session ≡ self.old.answering.script.session }
        ensures forgotten { monitor.new.forgotten ≡ monitor.old.forgotten }
    {
        let left = self.answering.reply_all(monitor, piece, writer)?;
        keep(&mut self.line, left)
    }

    /// Answers the lines that are complete with one more piece, and keeps what stands after them.
    fn reply_piece<W: Write, A: Allocator>(
        &mut self,
        monitor: &mut Monitor<A>,
        piece: &[u8],
        writer: &mut W,
    ) -> Result<(), ServeFault>
        requires { vec_len self.old.line ≤ MAX_LINE + 1 }
        ensures fed { Feeds self.old.answering.script.names.now self.old.answering.script.session
            (W.contents writer.old) (W.contents writer.new)
            (standing_of self.old.answering.vars.bound monitor.old)
            (standing_of self.new.answering.vars.bound monitor.new)
            self.old.line.items self.new.line.items piece.now result }
        ensures names { self.new.answering.script.names.now ≡ self.old.answering.script.names.now }
        ensures session { self.new.answering.script.session ≡ self.old.answering.script.session }
        ensures forgotten { monitor.new.forgotten ≡ monitor.old.forgotten }
    {
        if self.line.is_empty() {
            return self.reply_and_keep(monitor, piece, writer);
        }
        let Some((last, rest)) = cut_line(piece) else {
            return keep(&mut self.line, piece);
        };
        self.end_line(monitor, last, writer)?;
        self.reply_and_keep(monitor, rest, writer)
    }

    /// Takes one more piece: answers the lines that are complete with it, and flushes the writer where an answer was
    /// written.
    ///
    /// # Errors
    /// - `Write` where the writer failed within an answer, or at the flush once all lines were answered.
    /// - `Memory` where an allocation failed for a line; the lines before it are answered.
    pub(crate) fn take_piece<W: Write, A: Allocator>(
        &mut self,
        monitor: &mut Monitor<A>,
        piece: &[u8],
        writer: &mut W,
    ) -> Result<(), ServeFault>
        requires { vec_len self.old.line ≤ MAX_LINE + 1 }
        ensures taken { TakesPiece self.old.answering.script.names.now self.old.answering.script.session
            (W.contents writer.old) (W.contents writer.new)
            (standing_of self.old.answering.vars.bound monitor.old)
            (standing_of self.new.answering.vars.bound monitor.new)
            self.old.line.items self.new.line.items piece.now result }
        ensures names { self.new.answering.script.names.now ≡ self.old.answering.script.names.now }
        ensures session { self.new.answering.script.session ≡ self.old.answering.script.session }
        ensures forgotten { monitor.new.forgotten ≡ monitor.old.forgotten }
    {
        self.answering.wrote = false;
        let outcome = self.reply_piece(monitor, piece, writer);
        let wrote = self.answering.wrote;
        settle(writer, wrote, outcome)
    }

    /// Takes the end: answers the line that no newline ends, where it has a byte, and flushes the writer where an
    /// answer was written.
    ///
    /// # Errors
    /// As for `take_piece`.
    pub(crate) fn take_end<W: Write, A: Allocator>(
        &mut self,
        monitor: &mut Monitor<A>,
        writer: &mut W,
    ) -> Result<(), ServeFault>
        ensures taken { (line : List ℕ) → has_newline line ≡ false → self.old.line.items ≡ kept_of line →
            AnswersOrFails self.old.answering.script.names.now self.old.answering.script.session
            (W.contents writer.old) (W.contents writer.new)
            (standing_of self.old.answering.vars.bound monitor.old)
            (standing_of self.new.answering.vars.bound monitor.new)
            (lines_of line) result }
        ensures names { self.new.answering.script.names.now ≡ self.old.answering.script.names.now }
        ensures session { self.new.answering.script.session ≡ self.old.answering.script.session }
        ensures forgotten { monitor.new.forgotten ≡ monitor.old.forgotten }
    {
        let Some(line) = last_line(&self.line) else {
            return Ok(());
        };
        self.answering.wrote = false;
        let outcome = self.answering.reply(monitor, line, writer);
        let wrote = self.answering.wrote;
        settle(writer, wrote, outcome)
    }
}
