//! What lines say and why they are refused, by their grammar. The functions do nothing: each is a law, which its
//! contract states.
ghost use Rattle.std.specs.Prelude.{◌≡◌, Ok, Err};
ghost use Rattle.mls_lines.specs.LineView.{LineView};
ghost use Rattle.mls_lines.specs.ScriptLine.{line_of};
ghost use Rattle.mls_lines.specs.Grammar.{Says, IsRefused};
ghost use Rattle.mls_lines.specs.declared.fault.LineFault.{LineFault as FaultView};

use crate::names::Names;
use crate::variables::Vars;
use mls_labels::a_text_is_read_as_it_is_spelled;
use mls_requests::{actions_have_their_words, modes_have_their_words};
use std::alloc::Allocator;

/// A line is read as saying just what it says by the grammar, and refused with a fault just where the grammar refuses
/// it for that fault. The grammar is stated apart from how lines are read.
pub fn lines_law<A: Allocator, B: Allocator>(names: &Names<A>, _vars: &Vars<B>, _line: &[u8])
    ensures read { (view : LineView) → line_of names.now _vars.now.bound _line.now ≡ Ok view
        → Says names.now _vars.now.bound _line.now view }
    ensures said { (view : LineView) → Says names.now _vars.now.bound _line.now view
        → line_of names.now _vars.now.bound _line.now ≡ Ok view }
    ensures refused { (fault : FaultView) → line_of names.now _vars.now.bound _line.now ≡ Err fault
        → IsRefused names.now _vars.now.bound _line.now fault }
    ensures refuses { (fault : FaultView) → IsRefused names.now _vars.now.bound _line.now fault
        → line_of names.now _vars.now.bound _line.now ≡ Err fault }
{
    // both schemes are sound, as their bounds tell
    let _ = names.security().bounds();
    let _ = names.integrity().bounds();
    a_text_is_read_as_it_is_spelled();
    modes_have_their_words();
    actions_have_their_words();
}

/// A line says one thing at most, is refused for one fault at most, and not both.
pub fn a_line_has_one_meaning<A: Allocator, B: Allocator>(
    names: &Names<A>,
    vars: &Vars<B>,
    line: &[u8],
)
    ensures said { (a b : LineView) → Says names.now vars.now.bound line.now a
        → Says names.now vars.now.bound line.now b → a ≡ b }
    ensures fault { (f g : FaultView) → IsRefused names.now vars.now.bound line.now f
        → IsRefused names.now vars.now.bound line.now g → f ≡ g }
    ensures either { (view : LineView) (fault : FaultView) → Says names.now vars.now.bound line.now view
        → IsRefused names.now vars.now.bound line.now fault → ⊥ }
{
    lines_law(names, vars, line);
}
