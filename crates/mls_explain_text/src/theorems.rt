//! What the words of a line are to name, by the grammar of lines. The function does nothing: it is a law, which its
//! contract states.
ghost use Rattle.std.specs.Prelude.{◌≡◌};
ghost use Rattle.mls_lines.specs.Forms.{Form, tokens_in, parts_in};
ghost use Rattle.mls_explain_text.specs.Parts.{IsAsked, parts_by};
ghost use Rattle.mls_explain_text.specs.Sorts.{sorts_in};

/// The words of a line that are to name something are, in each form that can be asked, just the parts that the grammar
/// has of that form, in their order.
pub fn words_are_parts()
    ensures { (form : Form) → IsAsked form → parts_by (sorts_in (tokens_in form)) (tokens_in form) ≡ parts_in form }
{}
