//! The bytes that a question is about.
ghost use Rattle.std.specs.Prelude.{◌≡◌, option_map};
ghost use Rattle.mls_explain_text.specs.Files.{journal_bytes};

/// The bytes of a journal, none where there is no journal.
pub fn journal_bytes(journal: Option<&[u8]>) -> &[u8]
    ensures { result.now ≡ journal_bytes (option_map (λ bytes. bytes.now) journal.entry) }
{
    match journal {
        Some(bytes) => bytes,
        None => &[],
    }
}
