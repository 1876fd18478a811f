//! What a cut leaves as it was. The function does nothing: it is a law, which its contract states.
ghost use Rattle.std.specs.Prelude.{◌≡◌, ◌++◌, List, Some};
ghost use Rattle.mls_journal.specs.EntryText.{journal_text, AllHaveRanges};
ghost use Rattle.mls_requests.specs.declared.entry.Entry.{Entry as EntryView};
ghost use Rattle.mls_replay.specs.Replays.{SeesOver};
ghost use Rattle.mls_seen.specs.Files.{Cut, Seen as SeenView, SeesFiles, StandsBefore};

/// What is seen of a journal from a cut on is what is seen of the whole journal: where entries stand before the cut
/// and have their ranges, their text and that of the journal are those of entries that have their ranges and are legal
/// from the start, and those before the number lead to the state.
pub fn cut_journals_are_seen_as_whole_ones()
    ensures { (r : SeenView) (cut : Cut) (earlier : List EntryView) → SeesFiles r → r.files.cut ≡ Some cut
        → AllHaveRanges earlier → StandsBefore r.names r.start cut earlier → (entries : List EntryView)
        × SeesOver r.start (journal_text earlier ++ r.files.journal) (Some r.number) entries r.state }
{}
