//! How entries are explained. The function does nothing: it is a law, which its contract states.
ghost use Rattle.std.specs.Prelude.{◌≡◌, ℕ, List};
ghost use Rattle.mls_answers.specs.Histories.{ExplainsAlike};
ghost use Rattle.mls_explain_text.specs.Entries.{IsUnder};
ghost use Rattle.mls_requests.specs.declared.entry.Entry.{Entry};
ghost use Rattle.mls_seen.specs.Histories.{History as HistoryView, IsOfFiles};

/// What [`journal_explained`](crate::journal_explained) puts under the line of an entry is what
/// [`explain`](crate::explain) tells of the entry of its number over the same files, but for the first line.
pub fn entries_are_explained_alike()
    ensures { (h : HistoryView) (e : Entry) (under : List ℕ) → IsOfFiles h
        → IsUnder h.replayed.names h.replayed.start h.replayed.entries e under → ExplainsAlike h.files e under }
{}
