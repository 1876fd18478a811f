//! What a service tells before it attends to a client.
ghost use Rattle.std.specs.Prelude.{◌≡◌, ◌++◌, codes, option_map, string_bytes, IfOk, OnOk};
ghost use Rattle.mls_monitor.specs.Journal.{state_of};
ghost use Rattle.mls_tables.specs.declared.limits.TheConstants.{MAX_SUBJECTS, MAX_OBJECTS};
ghost use Rattle.mls_durable.specs.Greeting.{access_line, accesses_text, cell_text, greeting, held_line, named_line};
ghost use Rattle.mls_durable.specs.Greeting.{names_text, objects_text, ready_line, row_text, subjects_text};

use itoa::Buffer;
use mls_lines::Names;
use mls_monitor::Monitor;
use mls_requests::mode_word;
use mls_state::State;
use mls_tables::{MAX_OBJECTS, MAX_SUBJECTS, Mode, ObjectId, SubjectId};
use std::alloc::{AllocError, Global};

/// Appends the line of a number's name, where it has one.
fn push_named(
    text: &mut String,
    word: &str,
    number: u16,
    name: Option<&str>,
) -> Result<(), AllocError>
    ensures { OnOk result (string_bytes text.new
        ≡ string_bytes text.old ++ named_line word.now number (option_map (λ n. n.now) name.entry)) }
{
    let Some(name) = name else {
        return Ok(());
    };
    let mut buffer = Buffer::new();
    text.push_str(word)?;
    text.push_str(buffer.format(number))?;
    text.push_str(" ")?;
    text.push_str(name)?;
    text.push_str("\n")?;
    Ok(())
}

/// Appends the lines of the start's subjects, by number.
fn push_subjects(text: &mut String, names: &Names) -> Result<(), AllocError>
    ensures { OnOk result (string_bytes text.new ≡ string_bytes text.old ++ subjects_text names.now MAX_SUBJECTS) }
{
    for s in 0..MAX_SUBJECTS {
        push_named(text, "subject ", s, names.subject_name(SubjectId(s)))?;
    }
    Ok(())
}

/// Appends the lines of the start's objects, by number.
fn push_objects(text: &mut String, names: &Names) -> Result<(), AllocError>
    ensures { OnOk result (string_bytes text.new ≡ string_bytes text.old ++ objects_text names.now MAX_OBJECTS) }
{
    for o in 0..MAX_OBJECTS {
        push_named(text, "object ", o, names.object_name(ObjectId(o)))?;
    }
    Ok(())
}

/// Appends the line of an access, where it is held.
fn push_access(
    text: &mut String,
    access: (SubjectId, ObjectId, Mode),
    held: bool,
    opens: bool,
) -> Result<(), AllocError>
    ensures { OnOk result (string_bytes text.new ≡ string_bytes text.old ++ access_line held opens access) }
{
    if !held {
        return Ok(());
    }
    let (s, o, x) = access;
    let mut subject = Buffer::new();
    let mut object = Buffer::new();
    text.push_str("access ")?;
    text.push_str(subject.format(s.number()))?;
    text.push_str(" ")?;
    text.push_str(mode_word(x))?;
    text.push_str(" ")?;
    text.push_str(object.format(o.number()))?;
    text.push_str(if opens { " start\n" } else { "\n" })?;
    Ok(())
}

/// Appends the line of a state's access, where it is held; the first state is that of the start.
fn push_held(
    text: &mut String,
    state: &State,
    first: &State,
    access: (SubjectId, ObjectId, Mode),
) -> Result<(), AllocError>
    ensures { OnOk result (string_bytes text.new
        ≡ string_bytes text.old ++ held_line state.now.accesses first.now.accesses access) }
{
    let (s, o, x) = access;
    let held = state.has_access(s, o, x);
    let opens = first.has_access(s, o, x);
    push_access(text, (s, o, x), held, opens)
}

/// Appends the lines of a subject's accesses to an object, in the order of modes.
fn push_cell(
    text: &mut String,
    state: &State,
    first: &State,
    s: SubjectId,
    o: ObjectId,
) -> Result<(), AllocError>
    ensures { OnOk result (string_bytes text.new
        ≡ string_bytes text.old ++ cell_text state.now.accesses first.now.accesses s o) }
{
    push_held(text, state, first, (s, o, Mode::Execute))?;
    push_held(text, state, first, (s, o, Mode::Read))?;
    push_held(text, state, first, (s, o, Mode::Append))?;
    push_held(text, state, first, (s, o, Mode::Write))?;
    Ok(())
}

/// Appends the lines of a subject's accesses, by object.
fn push_row(text: &mut String, state: &State, first: &State, s: SubjectId) -> Result<(), AllocError>
    ensures { OnOk result (string_bytes text.new
        ≡ string_bytes text.old ++ row_text state.now.accesses first.now.accesses s MAX_OBJECTS) }
{
    for o in 0..MAX_OBJECTS {
        push_cell(text, state, first, s, ObjectId(o))?;
    }
    Ok(())
}

/// Appends the lines of all accesses, by subject.
fn push_accesses(text: &mut String, state: &State, first: &State) -> Result<(), AllocError>
    ensures { OnOk result (string_bytes text.new
        ≡ string_bytes text.old ++ accesses_text state.now.accesses first.now.accesses MAX_SUBJECTS) }
{
    for s in 0..MAX_SUBJECTS {
        push_row(text, state, first, SubjectId(s))?;
    }
    Ok(())
}

/// Appends the start's names, and the accesses that are held.
fn push_names(
    text: &mut String,
    names: &Names,
    state: &State,
    first: &State,
) -> Result<(), AllocError>
    ensures { OnOk result (string_bytes text.new
        ≡ string_bytes text.old ++ names_text names.now state.now.accesses first.now.accesses) }
{
    push_subjects(text, names)?;
    push_objects(text, names)?;
    push_accesses(text, state, first)
}

/// Appends the line that tells the number of the next entry.
fn push_ready(text: &mut String, next: u64) -> Result<(), AllocError>
    ensures { OnOk result (string_bytes text.new ≡ string_bytes text.old ++ ready_line next) }
{
    let mut buffer = Buffer::new();
    text.push_str("ready ")?;
    text.push_str(buffer.format(next))?;
    text.push_str("\n")?;
    Ok(())
}

/// Appends the start's names, and the accesses that a monitor holds.
fn push_names_of(
    alloc: Global,
    text: &mut String,
    names: &Names,
    monitor: &Monitor,
) -> Result<(), AllocError>
    ensures { OnOk result (string_bytes text.new ≡ string_bytes text.old
        ++ names_text names.now (state_of monitor.now).accesses monitor.now.start.accesses) }
{
    let first = monitor.start().opening(alloc)?;
    let pushed = push_names(text, names, monitor.state(), &first);
    drop(first);
    pushed
}

/// What a service tells before it attends to a client: the start's names and the accesses that are held, where they are
/// wanted, and the number of the next entry.
pub(crate) fn write_greeting(
    alloc: Global,
    names: &Names,
    wanted: bool,
    monitor: &Monitor,
) -> Result<String, AllocError>
    ensures { IfOk result
        (λ text. string_bytes text ≡ greeting names.now wanted monitor.now.start monitor.now.entries) }
{
    let next = monitor.next_number();
    let mut text = String::new(alloc);
    if !wanted {
        push_ready(&mut text, next)?;
        return Ok(text);
    }
    push_names_of(alloc, &mut text, names, monitor)?;
    push_ready(&mut text, next)?;
    Ok(text)
}
