//! What holds of all words. The functions do nothing: each is a law, which its contract states.
ghost use Rattle.std.specs.Prelude.{◌≡◌, List, ℕ, Some};
ghost use Rattle.mls_tables.specs.declared.mode.Mode.{Mode};
ghost use Rattle.mls_requests.specs.declared.action_word.ActionWord.{ActionWord};
ghost use Rattle.mls_requests.specs.declared.reason.Reason.{Reason};
ghost use Rattle.mls_requests.specs.declared.reply.Reply.{Reply};
ghost use Rattle.mls_requests.specs.declared.reply_word.ReplyWord.{ReplyWord};
ghost use Rattle.mls_requests.specs.ModeWords.{mode_word, read_mode};
ghost use Rattle.mls_requests.specs.ActionWords.{action_word, read_action};
ghost use Rattle.mls_requests.specs.ReasonWords.{reason_word, read_reason};
ghost use Rattle.mls_requests.specs.ReplyWords.{reply_word, read_reply, reply_text, HasNumber};

/// No two modes have one word; a word that is written of a mode is read as that mode, and what is read of a word is
/// what is written so.
pub fn modes_have_their_words()
    ensures apart { (a b : Mode) → mode_word a ≡ mode_word b → a ≡ b }
    ensures read { (x : Mode) → read_mode (mode_word x) ≡ Some x }
    ensures written { (word : List ℕ) (x : Mode) → read_mode word ≡ Some x → word ≡ mode_word x }
{}

/// No two actions have one word; a word that is written of an action is read as that action, and what is read of a word
/// is what is written so.
pub fn actions_have_their_words()
    ensures apart { (a b : ActionWord) → action_word a ≡ action_word b → a ≡ b }
    ensures read { (x : ActionWord) → read_action (action_word x) ≡ Some x }
    ensures written { (word : List ℕ) (x : ActionWord) → read_action word ≡ Some x → word ≡ action_word x }
{}

/// No two reasons have one word; a word that is written of a reason is read as that reason, and what is read of a word
/// is what is written so.
pub fn reasons_have_their_words()
    ensures apart { (a b : Reason) → reason_word a ≡ reason_word b → a ≡ b }
    ensures read { (x : Reason) → read_reason (reason_word x) ≡ Some x }
    ensures written { (word : List ℕ) (x : Reason) → read_reason word ≡ Some x → word ≡ reason_word x }
{}

/// No two replies have one word; a word that is written of a reply is read as that reply, and what is read of a word is
/// what is written so.
pub fn replies_have_their_words()
    ensures apart { (a b : ReplyWord) → reply_word a ≡ reply_word b → a ≡ b }
    ensures read { (x : ReplyWord) → read_reply (reply_word x) ≡ Some x }
    ensures written { (word : List ℕ) (x : ReplyWord) → read_reply word ≡ Some x → word ≡ reply_word x }
{}

/// No two replies have one text.
pub fn replies_have_their_texts()
    ensures { (a b : Reply) → HasNumber a → HasNumber b → reply_text a ≡ reply_text b → a ≡ b }
{}
