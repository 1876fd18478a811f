//! What holds of all that is written. The functions do nothing: each is a law, which its contract states.
ghost use Rattle.std.specs.Prelude.{◌≡◌, ℕ, List, not, IsTrue};
ghost use Rattle.std.specs.List.{list_all};
ghost use Rattle.mls_markup.specs.Escaping.{escaped, is_delimiter};
ghost use Rattle.std.specs.Prelude.{◌++◌, ◌∷◌};
ghost use Rattle.mls_markup.specs.Drafts.{Draft, added};
ghost use Rattle.mls_markup.specs.Reading.{Text, Value, after_all};
ghost use Rattle.mls_markup.specs.Trees.{Forest, joined, written_of};

/// What is escaped is no markup: it has no `<`, `>`, `"` or `'`; and a reader of HTML that comes to it in a text or in
/// a value is there behind it, so that each `&` of it begins a reference that ends in it.
#[tactic(auto, using(crate::proofs::Wholes::escaped_plain, crate::proofs::Wholes::escaped_in_text, crate::proofs::Wholes::escaped_in_value))]
pub fn what_is_escaped_is_no_markup()
    ensures plain { (text : List ℕ) → IsTrue (list_all (λ b. not (is_delimiter b)) (escaped text)) }
    ensures text { (text : List ℕ) → after_all Text (escaped text) ≡ Text }
    ensures value { (text : List ℕ) → after_all Value (escaped text) ≡ Value }
{}

/// In what is written of a tree each tag, value and reference that begins ends.
#[tactic(auto, using(crate::proofs::Wholes::written_whole))]
pub fn what_is_written_is_whole()
    ensures { (f : Forest) → after_all Text (written_of f) ≡ Text }
{}

/// Trees that stand one after the other are written so.
#[tactic(auto, using(crate::proofs::Joined::written_joined))]
pub fn trees_are_written_in_turn()
    ensures { (f : Forest) (rest : List Forest)
        → written_of (joined (f ∷ rest)) ≡ written_of f ++ written_of (joined rest) }
{}

/// What is appended of a tree is what is written of it, and as many elements as before are begun and not ended.
#[tactic(auto, using(crate::proofs::Drafts::added_bytes, crate::proofs::Drafts::added_tags))]
pub fn what_is_appended_of_a_tree_is_what_is_written_of_it()
    ensures bytes { (d : Draft) (f : Forest) → (added d f).bytes ≡ d.bytes ++ written_of f }
    ensures tags { (d : Draft) (f : Forest) → (added d f).tags ≡ d.tags }
{}
