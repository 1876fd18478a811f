//! Schemes of labels: the names of the levels and categories, and label text in them.
ghost use Rattle.std.specs.Prelude.{◌≡◌, ◌++◌, IsTrue, IfSome, IfNone, IfOk, IfErr, OnOk, OnErr, Ok, Err, string_bytes};
ghost use Rattle.mls_labels.specs.Label.{Label, has_label};
ghost use Rattle.mls_labels.specs.LabelText.{Spells, IsRefused, written};
ghost use Rattle.mls_labels.specs.Reading.{label_at};
ghost use Rattle.mls_labels.specs.Scheme.{Scheme, IsScheme, bounds_of, scheme_fault, named};

use crate::bounds::Bounds;
use crate::label::Label;
use crate::label_fault::LabelFault;
use crate::limits::{MAX_CATEGORIES, MAX_LEVELS};
use crate::name_set::NameSet;
use crate::names::{are_names, has_twice};
use crate::reading::read_label;
use crate::scheme_fault::SchemeFault;
use crate::writing::push_label;
use std::alloc::{AllocError, Allocator, Global};
use std::marker::Model;

/// The names of 1 to `MAX_LEVELS` levels and of 0 to `MAX_CATEGORIES` categories. The place of a name, counted from 0,
/// is the number by which a label knows it; the first level is the lowest.
#[derive(Drop)]
pub struct Scheme<A: Allocator = Global> {
    levels: NameSet<A>,
    categories: NameSet<A>,
}

impl<A: Allocator> Model for Scheme<A> {
    ghost use Rattle.mls_labels.specs.Scheme.{Scheme, scheme_code};

    ghost Value = { Scheme };

    ghost coded = { scheme_code };

    ghost use Rattle.mls_labels.specs.Scheme.{IsScheme};

    ghost view = { λ a. record { levels = a.levels; categories = a.categories } };

    ghost invariant = { λ a. IsScheme (record { levels = a.levels; categories = a.categories }) };
}

/// The first fault of the names of a scheme.
fn first_fault(levels: &[&str], categories: &[&str]) -> Option<SchemeFault>
    ensures { result ≡ scheme_fault (named levels.now categories.now) }
{
    if levels.is_empty() {
        Some(SchemeFault::NoLevels)
    } else if levels.len() > MAX_LEVELS {
        Some(SchemeFault::TooManyLevels)
    } else if categories.len() > MAX_CATEGORIES {
        Some(SchemeFault::TooManyCategories)
    } else if !are_names(levels) || !are_names(categories) {
        Some(SchemeFault::BadName)
    } else if has_twice(levels) || has_twice(categories) {
        Some(SchemeFault::RepeatedName)
    } else {
        None
    }
}

impl<A: Allocator + Copy> Scheme<A> {
    /// The scheme of these names, in their order. A level and a category may have one name.
    ///
    /// # Errors
    /// The first fault of the names in the order of [`SchemeFault`]; `Memory` where they have none and an
    /// allocation failed.
    pub fn new(alloc: A, levels: &[&str], categories: &[&str]) -> Result<Scheme<A>, SchemeFault>
        ensures ok { IfOk result (λ scheme. scheme ≡ named levels.now categories.now) }
        ensures fault { IfSome (scheme_fault (named levels.now categories.now)) (λ fault. result ≡ Err fault) }
        ensures memory { IfNone (scheme_fault (named levels.now categories.now))
            (IfErr result (λ fault. fault ≡ SchemeFault.Memory)) }
    {
        if let Some(fault) = first_fault(levels, categories) {
            return Err(fault);
        }
        let levels = NameSet::from_names(alloc, levels)?;
        let categories = NameSet::from_names(alloc, categories)?;
        Ok(Scheme { levels, categories })
    }
}

impl<A: Allocator> Scheme<A> {
    /// How many levels and categories the scheme has.
    pub fn bounds(&self) -> Bounds
        ensures counts { result ≡ bounds_of self.now }
        ensures sound { IsScheme self.now }
    {
        Bounds::new(self.levels.len() as u8, self.categories.len() as u16)
    }

    /// Whether the label's level and each of its categories have a name.
    pub fn has(&self, label: Label) -> bool
        ensures { result ≡ has_label (bounds_of self.now) label }
    {
        self.bounds().has(label)
    }

    /// Reads a label text: the name of a level, or that, a colon and the names of categories with a
    /// comma between each two, in any order. It doesn't allocate.
    ///
    /// # Errors
    /// The first fault of the text in the order of [`LabelFault`].
    pub fn read(&self, text: &str) -> Result<Label, LabelFault>
        ensures ok { IfOk result (λ label. Spells self.now text.now label) }
        ensures within { IfOk result (λ label. IsTrue (has_label (bounds_of self.now) label)) }
        ensures only { (label : Label) → Spells self.now text.now label → result ≡ Ok label }
        ensures err { IfErr result (λ fault. IsRefused self.now text.now fault) }
        ensures exact { (fault : LabelFault) → IsRefused self.now text.now fault → result ≡ Err fault }
        ensures steps { result ≡ label_at self.now text.now }
    {
        // (that the names have no fault)
        let _ = self.bounds();
        read_label(&self.levels, &self.categories, text)
    }

    /// Appends the label's text, its categories ascending by number.
    ///
    /// # Errors
    /// `AllocError` where an allocation failed. The text is then as it was.
    pub fn write<B: Allocator>(&self, label: Label, text: &mut String<B>) -> Result<(), AllocError>
        requires { IsTrue (has_label (bounds_of self.now) label) }
        ensures ok { OnOk result (string_bytes text.new ≡ string_bytes text.old ++ written self.now label) }
        ensures err { OnErr result (string_bytes text.new ≡ string_bytes text.old) }
    {
        let start = text.len();
        match push_label(&self.levels, &self.categories, label, text) {
            Ok(()) => Ok(()),
            Err(error) => {
                text.truncate(start);
                Err(error)
            }
        }
    }
}
