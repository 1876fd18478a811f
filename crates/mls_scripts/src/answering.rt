//! Answering lines one after another.
ghost use Rattle.std.specs.Prelude.{◌≡◌, ◌++◌, List, ℕ, IfOk};
ghost use Rattle.mls_scripts.specs.Lines.{closed_lines, open_part};
ghost use Rattle.mls_scripts.specs.Script.{standing_of, answer_to, after_line};
ghost use Rattle.mls_scripts.specs.Serve.{Replies, AnswersOrStops};

use crate::answer::{Answer, Script};
use crate::lines::cut_line;
use crate::output::write_answer;
use crate::serving::ServeFault;
use mls_lines::Vars;
use mls_monitor::Monitor;
use std::alloc::Allocator;
use std::io::Write;

/// A script whose lines are being answered, and the variables that it bound so far.
#[derive(Drop)]
pub struct Answering<'s, N: Allocator, V: Allocator> {
    pub script: Script<'s, N>,
    pub vars: Vars<V>,
    /// Whether an answer was written since this was last cleared.
    pub wrote: bool,
}

impl<N: Allocator, V: Allocator + Copy> Answering<'_, N, V> {
    /// Answers one line.
    ///
    /// # Errors
    /// - `Write` where the writer failed within the answer; the line was asked.
    /// - `Memory` where the line was not asked.
    #[tactic(auto, using(crate::proofs::Texts::written_answer))]
    pub(crate) fn reply<W: Write, A: Allocator>(
        &mut self,
        monitor: &mut Monitor<A>,
        line: &[u8],
        writer: &mut W,
    ) -> Result<(), ServeFault>
        ensures replied { let before = standing_of self.old.vars.bound monitor.old in
            let after = standing_of self.new.vars.bound monitor.new in
            Replies (W.contents writer.old) (W.contents writer.new) before after
            (answer_to self.old.script.names.now before line.now)
            (after_line self.old.script.names.now self.old.script.session before line.now) result }
        ensures names { self.new.script.names.now ≡ self.old.script.names.now }
        ensures session { self.new.script.session ≡ self.old.script.session }
        ensures forgotten { monitor.new.forgotten ≡ monitor.old.forgotten }
    {
        let Ok(answer) = self.script.answer(&mut self.vars, monitor, line) else {
            return Err(ServeFault::Memory);
        };
        self.wrote |= answer != Answer::Nothing;
        write_answer(writer, answer)
    }

    /// Answers the lines of a piece that are complete, and gives what stands after them.
    ///
    /// # Errors
    /// - `Write` where the writer failed within an answer; no line after it was asked.
    /// - `Memory` where a line was not asked; those before it are answered.
    pub(crate) fn reply_all<'p, W: Write, A: Allocator>(
        &mut self,
        monitor: &mut Monitor<A>,
        piece: &'p [u8],
        writer: &mut W,
    ) -> Result<&'p [u8], ServeFault>
        ensures answered { AnswersOrStops self.old.script.names.now self.old.script.session
            (W.contents writer.old) (W.contents writer.new)
            (standing_of self.old.vars.bound monitor.old) (standing_of self.new.vars.bound monitor.new)
            (closed_lines piece.now) result }
        ensures left { IfOk result (λ left. left.now ≡ open_part piece.now) }
        ensures names { self.new.script.names.now ≡ self.old.script.names.now }
        ensures session { self.new.script.session ≡ self.old.script.session }
        ensures forgotten { monitor.new.forgotten ≡ monitor.old.forgotten }
    {
        let mut rest = piece;
        while let Some((line, more)) = cut_line(rest) {
            self.reply(monitor, line, writer)?;
            rest = more;
        }
        Ok(rest)
    }
}
