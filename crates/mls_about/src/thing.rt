//! What is told of.
ghost use Rattle.std.specs.Prelude.{◌≡◌};
ghost use Rattle.mls_about.specs.Naming.{object_or, thing_named};

use mls_lines::Names;
use mls_replay::{QuestionFault, named_object};
use mls_tables::{ObjectId, SubjectId};

/// What is told of.
#[derive(Clone, Copy, Debug, PartialEq, Eq)]
pub enum Thing {
    Subject(SubjectId),
    Object(ObjectId),
}

/// The object that a word names.
///
/// # Errors
/// This fault where it names none.
fn object_named(names: &Names, word: &str, fault: QuestionFault) -> Result<Thing, QuestionFault>
    ensures { result ≡ object_or names.now word.now fault }
{
    match named_object(names, word) {
        Ok(o) => Ok(Thing::Object(o)),
        Err(_) => Err(fault),
    }
}

impl Thing {
    /// What a word names: the subject of that name, or else an object, by its name or by its number after a `#`, active
    /// or not; `is_object` says that it is to be an object.
    ///
    /// # Errors
    /// `Object` where it is to be an object and names none, else `Subject` where it names neither.
    pub fn named(names: &Names, word: &str, is_object: bool) -> Result<Thing, QuestionFault>
        ensures { result ≡ thing_named names.now word.now is_object }
    {
        if is_object {
            return object_named(names, word, QuestionFault::Object);
        }
        match names.subject(word) {
            Some(s) => Ok(Thing::Subject(s)),
            None => object_named(names, word, QuestionFault::Subject),
        }
    }
}
