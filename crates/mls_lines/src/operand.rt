//! The operands of a line: what one token names, and what the tokens of one command name together.
ghost use Rattle.std.specs.Prelude.{◌≡◌};
ghost use Rattle.mls_lines.specs.Numbers.{number_of};
ghost use Rattle.mls_lines.specs.Tokens.{tokens_of, one_of, two_of, three_of};
ghost use Rattle.mls_lines.specs.ScriptLine.{numbered, subject_named, subject_of, object_named, object_of, variable_of};
ghost use Rattle.mls_lines.specs.ScriptLine.{object_operand, mode_and_object, cell_operands, create_operands};
ghost use Rattle.mls_lines.specs.ScriptLine.{level_operand, relabel_operands};

use crate::fault::{LineFault, both};
use crate::label::read_scheme_label;
use crate::names::Names;
use crate::number::read_number;
use crate::token::{one_token, read_name, three_tokens, two_tokens};
use crate::variables::Vars;
use mls_labels::{IntLabel, SecLabel};
use mls_requests::read_mode;
use mls_tables::{Mode, ObjectId, SubjectId};
use std::alloc::Allocator;

/// The number after a `#`.
fn read_numbered(digits: &[u8]) -> Result<u16, LineFault>
    ensures { result ≡ numbered (number_of digits.now) }
{
    read_number(digits).ok_or(LineFault::BadForm)
}

/// The subject of a name.
fn read_subject_name<A: Allocator>(names: &Names<A>, token: &[u8]) -> Result<SubjectId, LineFault>
    ensures { result ≡ subject_named names.now token.now }
{
    let name = read_name(token).ok_or(LineFault::BadForm)?;
    names.subject(name).ok_or(LineFault::UnknownName)
}

/// The subject that a token names: by its name, or by its number after a `#`, known or not.
pub(crate) fn read_subject<A: Allocator>(
    names: &Names<A>,
    token: &[u8],
) -> Result<SubjectId, LineFault>
    ensures { result ≡ subject_of names.now token.now }
{
    match token {
        [b'#', digits @ ..] => {
            let number = read_numbered(digits)?;
            Ok(SubjectId(number))
        }
        name => read_subject_name(names, name),
    }
}

/// The object that a variable is bound to.
fn read_variable<B: Allocator>(vars: &Vars<B>, name: &[u8]) -> Result<ObjectId, LineFault>
    ensures { result ≡ variable_of vars.now.bound name.now }
{
    let name = read_name(name).ok_or(LineFault::BadForm)?;
    vars.get(name).ok_or(LineFault::UnknownName)
}

/// The object of a name.
fn read_object_name<A: Allocator>(names: &Names<A>, token: &[u8]) -> Result<ObjectId, LineFault>
    ensures { result ≡ object_named names.now token.now }
{
    let name = read_name(token).ok_or(LineFault::BadForm)?;
    names.object(name).ok_or(LineFault::UnknownName)
}

/// The object that a token names: by its name, by its number after a `#`, known or not, or by a variable after a `$`.
pub(crate) fn read_object<A: Allocator, B: Allocator>(
    names: &Names<A>,
    vars: &Vars<B>,
    token: &[u8],
) -> Result<ObjectId, LineFault>
    ensures { result ≡ object_of names.now vars.now.bound token.now }
{
    match token {
        [b'#', digits @ ..] => {
            let number = read_numbered(digits)?;
            Ok(ObjectId(number))
        }
        [b'$', name @ ..] => read_variable(vars, name),
        name => read_object_name(names, name),
    }
}

/// The operand of an action on one object.
pub(crate) fn read_one<A: Allocator, B: Allocator>(
    names: &Names<A>,
    vars: &Vars<B>,
    operands: &[u8],
) -> Result<ObjectId, LineFault>
    ensures { result ≡ object_operand names.now vars.now.bound (one_of (tokens_of operands.now)) }
{
    let object = one_token(operands).ok_or(LineFault::BadForm)?;
    read_object(names, vars, object)
}

/// The operands of an access: an object in a mode.
pub(crate) fn read_access<A: Allocator, B: Allocator>(
    names: &Names<A>,
    vars: &Vars<B>,
    operands: &[u8],
) -> Result<(Mode, ObjectId), LineFault>
    ensures { result ≡ mode_and_object names.now vars.now.bound (two_of (tokens_of operands.now)) }
{
    let (mode, object) = two_tokens(operands).ok_or(LineFault::BadForm)?;
    let mode = read_mode(mode).ok_or(LineFault::BadForm)?;
    let object = read_object(names, vars, object)?;
    Ok((mode, object))
}

/// The operands of an action on a cell of the matrix: a mode, a subject and an object.
pub(crate) fn read_cell<A: Allocator, B: Allocator>(
    names: &Names<A>,
    vars: &Vars<B>,
    operands: &[u8],
) -> Result<(Mode, (SubjectId, ObjectId)), LineFault>
    ensures { result ≡ cell_operands names.now vars.now.bound (three_of (tokens_of operands.now)) }
{
    let (mode, subject, object) = three_tokens(operands).ok_or(LineFault::BadForm)?;
    let mode = read_mode(mode).ok_or(LineFault::BadForm)?;
    let cell = both(
        read_subject(names, subject),
        read_object(names, vars, object),
    )?;
    Ok((mode, cell))
}

/// The operands of an action that makes an object: its parent and its labels.
pub(crate) fn read_child<A: Allocator, B: Allocator>(
    names: &Names<A>,
    vars: &Vars<B>,
    operands: &[u8],
) -> Result<(ObjectId, (SecLabel, IntLabel)), LineFault>
    ensures { result ≡ create_operands names.now vars.now.bound (three_of (tokens_of operands.now)) }
{
    let (parent, security, integrity) = three_tokens(operands).ok_or(LineFault::BadForm)?;
    let labels = both(
        read_scheme_label(names.security(), security),
        read_scheme_label(names.integrity(), integrity),
    );
    let (parent, (security, integrity)) = both(read_object(names, vars, parent), labels)?;
    Ok((parent, (SecLabel::of(security), IntLabel::of(integrity))))
}

/// The operand of an action on the caller's level.
pub(crate) fn read_level<A: Allocator>(
    names: &Names<A>,
    operands: &[u8],
) -> Result<SecLabel, LineFault>
    ensures { result ≡ level_operand names.now (one_of (tokens_of operands.now)) }
{
    let label = one_token(operands).ok_or(LineFault::BadForm)?;
    let label = read_scheme_label(names.security(), label)?;
    Ok(SecLabel::of(label))
}

/// The operands of an action on an object's label.
pub(crate) fn read_relabel<A: Allocator, B: Allocator>(
    names: &Names<A>,
    vars: &Vars<B>,
    operands: &[u8],
) -> Result<(ObjectId, SecLabel), LineFault>
    ensures { result ≡ relabel_operands names.now vars.now.bound (two_of (tokens_of operands.now)) }
{
    let (object, label) = two_tokens(operands).ok_or(LineFault::BadForm)?;
    let label = read_scheme_label(names.security(), label);
    let (object, label) = both(read_object(names, vars, object), label)?;
    Ok((object, SecLabel::of(label)))
}
