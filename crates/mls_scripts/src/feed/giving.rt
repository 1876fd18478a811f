//! What a script that is fed gives, and what it makes of the answers.
ghost use Rattle.std.specs.Prelude.{◌≡◌, ◌<◌, ◌≤◌, ◌+◌, true, length, None, IfSome, IfNone};
ghost use Rattle.mls_monitor.specs.declared.feed.Stage.TheVariants as stage;
ghost use Rattle.mls_scripts.specs.Fed.{Gives, GivesAhead, Takes};

use crate::feed::ScriptFeed;
use crate::halves::{bind_heard, hear, push_answer};
use crate::looking::{Next, Seen, enqueue, is_full, look};
use mls_monitor::{Answer as Told, Feed, Stage};
use mls_requests::Ask;

impl<'a> Feed for ScriptFeed<'a> {
    ghost asks_left = { λ f. length f.rest };

    ghost stands_at = { λ f. f.stage };

    ghost waits_for = { λ f. length f.asked };

    ghost gives = { Gives };

    ghost gives_ahead = { GivesAhead };

    ghost hears = { Takes };

    ghost stops = { λ old new. new ≡ old };

    fn left(&self) -> u64 {
        self.rest.len() as u64
    }

    fn stage(&self) -> Stage {
        self.stage
    }

    /// What the next line asks that asks something. The answers to the lines before it are kept. Nothing comes at the
    /// end of the script, or once an allocation failed.
    fn next(&mut self) -> Option<Ask>
        ensures some { IfSome result
            (λ _. (length self.new.rest < length self.old.rest) × (self.new.stage ≡ stage.Waiting)
            × (length self.new.asked ≡ 1)) }
        ensures none { IfNone result ((length self.new.rest ≤ length self.old.rest) × (self.new.stage ≡ stage.Done)) }
        ensures given { Gives self.old result self.new }
        ensures failed { self.new.failed ≡ true → result ≡ None }
    {
        if self.has_failed {
            self.end();
            return None;
        }
        match self.go_on() {
            Ok(asked) => asked,
            Err(_) => {
                self.has_failed = true;
                self.end();
                None
            }
        }
    }

    /// What the next line asks that asks something, where it binds no variable and neither a fault nor a line that
    /// binds one stands before it: these wait for their turn. It doesn't allocate: there is room for as many asks as a
    /// session makes in one turn, and once that is full nothing is given.
    fn ahead(&mut self) -> Option<Ask>
        ensures some { IfSome result
            (λ ask. (length self.new.rest < length self.old.rest) × (self.new.stage ≡ stage.Waiting)
            × (length self.new.asked ≡ length self.old.asked + 1) × GivesAhead self.old ask self.new) }
        ensures none { IfNone result (self.new ≡ self.old) }
    {
        if self.stage != Stage::Waiting || self.room.is_some() || is_full(&self.asked) {
            return None;
        }
        let Seen { next, rest } = look(self.names, &self.vars, self.rest);
        let Next::Asks(asks) = next else {
            return None;
        };
        if asks.bind.is_some() {
            return None;
        }
        let ask = asks.ask;
        enqueue(&mut self.asked, &ask);
        self.rest = rest;
        Some(ask)
    }

    /// Keeps the answer, and binds the variable of the line that asked. An answer of another kind than the ask is none.
    fn told(&mut self, answer: &Told)
        ensures left { length self.new.rest ≤ length self.old.rest }
        ensures ready { length self.old.asked ≤ 1 → self.new.stage ≡ stage.Ready }
        ensures waits { 1 < length self.old.asked → (self.new.stage ≡ stage.Waiting)
            × (length self.new.asked + 1 ≡ length self.old.asked) }
        ensures heard { Takes self.old answer.now self.new }
    {
        let heard = hear(self.asked.pop_front(), answer);
        if self.asked.is_empty() {
            let room = self.room.take();
            bind_heard(&mut self.vars, room, &heard);
            self.stage = Stage::Ready;
        }
        if push_answer(&mut self.text, heard).is_err() {
            self.has_failed = true;
        }
    }

    /// Nothing is kept and nothing bound: the script is asked nothing more.
    fn stopped(&mut self)
        requires { self.old.stage ≡ stage.Waiting }
        ensures left { length self.new.rest ≤ length self.old.rest }
        ensures waits { self.new.stage ≡ stage.Waiting }
        ensures same { self.new ≡ self.old }
    {}
}
