//! A script that is fed: it gives what it asks, one after the other, and is told the answers.
ghost use Rattle.std.specs.Prelude.{◌≡◌, ◌<◌, ◌≤◌, ◌++◌, [], false, length, option_to_list, IfSome, IfNone, IfOk, OnOk};
ghost use Rattle.mls_monitor.specs.declared.feed.Stage.TheVariants as stage;
ghost use Rattle.mls_scripts.specs.Lines.{lines_of};
ghost use Rattle.mls_scripts.specs.Halves.{next_of};
ghost use Rattle.mls_scripts.specs.Feed.{asking_of, ended};

mod giving;

use crate::halves::make_room;
use crate::looking::{enqueue, go_over};
use mls_lines::{Names, Vars};
use mls_monitor::Stage;
use mls_requests::Ask;
use std::alloc::{AllocError, Global};
use std::collections::VecDeque;
use std::marker::Model;

/// How many asks have room to wait for their answers at once: as many as a session makes in one turn.
const AT_ONCE: usize = 64;

/// A script that is fed to a session: over the names of its start it gives what its lines ask, and keeps the answers,
/// those to lines that ask nothing among them. Each variable that a line binds is bound by what the script was told.
#[derive(Drop)]
pub struct ScriptFeed<'a> {
    names: &'a Names,
    rest: &'a [u8],
    vars: Vars,
    text: Vec<u8>,
    /// What was asked and isn't answered yet.
    asked: VecDeque<Ask>,
    /// The room for the variable that the line of the last of these binds, where it has one. Those of the others bind
    /// none.
    room: Option<String>,
    stage: Stage,
    has_failed: bool,
}

impl<'a> Model for ScriptFeed<'a> {
    ghost use Rattle.std.specs.Prelude.{◌≡◌, ◌≢◌, ◌<◌, [], option_map, string_bytes, IfSome};
    ghost use Rattle.mls_monitor.specs.declared.feed.Stage.TheVariants.{Waiting};
    ghost use Rattle.mls_scripts.specs.Feed.{ScriptFeed, feed_code};

    ghost Value = { ScriptFeed };

    ghost coded = { feed_code };

    ghost view = { λ f. record {
      names = f.names.now;
      rest = f.rest.now;
      vars = f.vars.bound;
      text = f.text.items;
      asked = f.asked.items;
      binds = option_map string_bytes f.room;
      stage = f.stage;
      failed = f.has_failed;
    } };

    ghost invariant = { λ f. IfSome f.room (λ _. 0 < f.vars.room) × (f.stage ≢ Waiting → f.asked.items ≡ []) };
}

impl<'a> ScriptFeed<'a> {
    /// The feed of a script over these names, which begins with no variable bound. It doesn't allocate.
    pub fn new(alloc: Global, names: &'a Names, script: &'a [u8]) -> ScriptFeed<'a>
        ensures script { (result.names ≡ names.now) × (result.rest ≡ script.now) }
        ensures fresh { (result.vars ≡ []) × (result.text ≡ []) × (result.asked ≡ []) × (result.failed ≡ false) }
        ensures ready { result.stage ≡ stage.Ready }
    {
        ScriptFeed {
            names,
            rest: script,
            vars: Vars::new(alloc),
            text: Vec::new(alloc),
            asked: VecDeque::new(alloc),
            room: None,
            stage: Stage::Ready,
            has_failed: false,
        }
    }

    /// The answers so far, as `serve` writes them.
    pub fn replies(&self) -> &[u8]
        ensures { result.now ≡ self.now.text }
    {
        &self.text
    }

    /// Whether an allocation failed for its answers or its variables. Then `next` gives nothing more.
    pub fn failed(&self) -> bool
        ensures { result ≡ self.now.failed }
    {
        self.has_failed
    }

    /// Goes on to the next ask, and makes the room for the variable that its line binds.
    fn go_on(&mut self) -> Result<Option<Ask>, AllocError>
        ensures text { OnOk result
            (self.new.text ≡ self.old.text ++ (next_of self.old.names self.old.vars (lines_of self.old.rest)).text) }
        ensures asks { IfOk result
            (λ given. asking_of given self.new.binds
            ≡ (next_of self.old.names self.old.vars (lines_of self.old.rest)).asks) }
        ensures rest { OnOk result
            (lines_of self.new.rest ≡ (next_of self.old.names self.old.vars (lines_of self.old.rest)).rest) }
        ensures asked { IfOk result (λ given. self.new.asked ≡ option_to_list given) }
        ensures some { IfOk result
            (λ given. IfSome given
            (λ _. (length self.new.rest < length self.old.rest) × (self.new.stage ≡ stage.Waiting))) }
        ensures none { IfOk result (λ given. IfNone given (self.new.stage ≡ stage.Done)) }
        ensures left { length self.new.rest ≤ length self.old.rest }
        ensures same { (self.new.names ≡ self.old.names) × (self.new.vars ≡ self.old.vars)
            × (self.new.failed ≡ self.old.failed) }
    {
        self.room = None;
        self.asked.clear();
        let Ok(halt) = go_over(self.names, &self.vars, self.rest, &mut self.text) else {
            return Err(AllocError);
        };
        self.rest = halt.rest;
        let Some(asks) = halt.asks else {
            self.stage = Stage::Done;
            return Ok(None);
        };
        let ask = asks.ask;
        let room = make_room(&mut self.vars, asks.bind)?;
        self.asked.reserve(AT_ONCE)?;
        enqueue(&mut self.asked, &ask);
        self.room = room;
        self.stage = Stage::Waiting;
        Ok(Some(ask))
    }

    /// Asks nothing more.
    fn end(&mut self)
        ensures { self.new ≡ ended self.old }
    {
        self.asked.clear();
        self.stage = Stage::Done;
    }
}
