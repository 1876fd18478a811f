//! The ends of a flow that is asked for.
ghost use Rattle.std.specs.Prelude.{◌≡◌, option_map};
ghost use Rattle.mls_flow_text.specs.Naming.{ends_of, object_or, place_named, place_told};

use mls_flows::Place;
use mls_lines::Names;
use mls_replay::{QuestionFault, named_object};
use mls_tables::ObjectId;

/// An object whose content flows, and the place to which it is asked whether it does, where it is asked of one.
#[derive(Clone, Copy)]
pub struct Ends {
    pub from: ObjectId,
    pub to: Option<Place>,
}

/// The object that a word names.
///
/// # Errors
/// This fault where it names none.
fn object_named(names: &Names, word: &str, fault: QuestionFault) -> Result<Place, QuestionFault>
    ensures { result ≡ object_or names.now word.now fault }
{
    match named_object(names, word) {
        Ok(o) => Ok(Place::Object(o)),
        Err(_) => Err(fault),
    }
}

/// The place that a word names: the subject of that name, or else an object, by its name or by its number after a `#`,
/// active or not; `is_object` says that it is to be an object.
///
/// # Errors
/// `Object` where it is to be an object and names none, else `Subject` where it names neither.
fn place_named(names: &Names, word: &str, is_object: bool) -> Result<Place, QuestionFault>
    ensures { result ≡ place_named names.now word.now is_object }
{
    if is_object {
        return object_named(names, word, QuestionFault::Object);
    }
    match names.subject(word) {
        Some(s) => Ok(Place::Subject(s)),
        None => object_named(names, word, QuestionFault::Subject),
    }
}

/// The place that a word names, where there is a word.
fn place_told(
    names: &Names,
    word: Option<&str>,
    is_object: bool,
) -> Result<Option<Place>, QuestionFault>
    ensures { result ≡ place_told names.now (option_map (λ word. word.now) word.entry) is_object }
{
    match word {
        Some(word) => match place_named(names, word, is_object) {
            Ok(place) => Ok(Some(place)),
            Err(fault) => Err(fault),
        },
        None => Ok(None),
    }
}

/// The ends that words name: an object, by its name or by its number after a `#`, active or not; and a place, where
/// there is a word for it: the subject of that name, or else an object, or, if `is_object` says so, an object.
///
/// # Errors
/// `Object` where the first word names no object; of the other one `Object` where it is to be an object and names none,
/// else `Subject` where it names neither.
pub(crate) fn ends_of(
    names: &Names,
    from: &str,
    to: Option<&str>,
    is_object: bool,
) -> Result<Ends, QuestionFault>
    ensures { result ≡ ends_of names.now from.now (option_map (λ word. word.now) to.entry) is_object }
{
    match named_object(names, from) {
        Ok(from) => match place_told(names, to, is_object) {
            Ok(to) => Ok(Ends { from, to }),
            Err(fault) => Err(fault),
        },
        Err(fault) => Err(fault),
    }
}
