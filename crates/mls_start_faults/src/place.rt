//! Places in a start file.
ghost use Rattle.std.specs.Prelude.{◌≡◌, [], ◌∷◌, ◌++◌};
ghost use Rattle.mls_start_faults.specs.Places.{key, number, on_list, on_row, on_member, on_item, on_names};
ghost use Rattle.mls_start_faults.specs.Places.{on_name};
ghost use Rattle.mls_start_faults.specs.Places.{part_steps, spot_view, place_view};

/// What is wrong within a value: with the value itself, with one of its members, or with an item of a member that is a
/// list.
#[derive(Clone, Copy)]
pub(crate) struct Spot<'a> {
    pub member: Option<&'a str>,
    pub item: Option<usize>,
    pub words: &'static str,
}

/// What is wrong in a start file: within one of its members, or within an item of one that is a list.
#[derive(Clone, Copy)]
pub(crate) struct Place<'a> {
    pub list: &'a str,
    pub row: Option<usize>,
    pub spot: Spot<'a>,
}

/// A part of a start file that has members: the file, one of its schemes, or a row of one of its lists.
#[derive(Clone, Copy)]
pub(crate) enum Part<'a> {
    File,
    Scheme(&'a str),
    Row(&'a str, usize),
}

impl<'a> Spot<'a> {
    /// The value itself.
    pub(crate) fn here(words: &'static str) -> Spot<'a>
        ensures { spot_view result ≡ ([], words.now) }
    {
        Spot {
            member: None,
            item: None,
            words,
        }
    }

    /// A member.
    pub(crate) fn member(member: &'a str, words: &'static str) -> Spot<'a>
        ensures { spot_view result ≡ (key member.now ∷ [], words.now) }
    {
        Spot {
            member: Some(member),
            item: None,
            words,
        }
    }

    /// An item of a member.
    pub(crate) fn item(member: &'a str, item: usize, words: &'static str) -> Spot<'a>
        ensures { spot_view result ≡ (key member.now ∷ number item ∷ [], words.now) }
    {
        Spot {
            member: Some(member),
            item: Some(item),
            words,
        }
    }
}

impl<'a> Place<'a> {
    /// A member of the file.
    pub(crate) fn list(list: &'a str, words: &'static str) -> Place<'a>
        ensures { place_view result ≡ on_list list.now words.now }
    {
        Place {
            list,
            row: None,
            spot: Spot::here(words),
        }
    }

    /// An item of a list of the file.
    pub(crate) fn row(list: &'a str, row: usize, words: &'static str) -> Place<'a>
        ensures { place_view result ≡ on_row list.now row words.now }
    {
        Place {
            list,
            row: Some(row),
            spot: Spot::here(words),
        }
    }

    /// A member of an object in a list of the file.
    pub(crate) fn member(
        list: &'a str,
        row: usize,
        member: &'a str,
        words: &'static str,
    ) -> Place<'a>
        ensures { place_view result ≡ on_member list.now row member.now words.now }
    {
        Place {
            list,
            row: Some(row),
            spot: Spot::member(member, words),
        }
    }

    /// An item of such a member.
    pub(crate) fn item(
        list: &'a str,
        row: usize,
        member: &'a str,
        item: usize,
        words: &'static str,
    ) -> Place<'a>
        ensures { place_view result ≡ on_item list.now row member.now item words.now }
    {
        Place {
            list,
            row: Some(row),
            spot: Spot::item(member, item, words),
        }
    }

    /// A list of a scheme.
    pub(crate) fn names(scheme: &'a str, list: &'a str, words: &'static str) -> Place<'a>
        ensures { place_view result ≡ on_names scheme.now list.now words.now }
    {
        Place {
            list: scheme,
            row: None,
            spot: Spot::member(list, words),
        }
    }

    /// A name in a list of a scheme.
    pub(crate) fn name(
        scheme: &'a str,
        list: &'a str,
        item: usize,
        words: &'static str,
    ) -> Place<'a>
        ensures { place_view result ≡ on_name scheme.now list.now item words.now }
    {
        Place {
            list: scheme,
            row: None,
            spot: Spot::item(list, item, words),
        }
    }
}

impl<'a> Part<'a> {
    /// A member of the part.
    pub(crate) fn member(self, member: &'a str, words: &'static str) -> Place<'a>
        ensures { place_view result ≡ (part_steps self.entry ++ key member.now ∷ [], words.now) }
    {
        match self {
            Part::File => Place::list(member, words),
            Part::Scheme(scheme) => Place::names(scheme, member, words),
            Part::Row(list, n) => Place::member(list, n, member, words),
        }
    }

    /// An item of a member of the part that is a list.
    pub(crate) fn item(self, member: &'a str, k: usize, words: &'static str) -> Place<'a>
        ensures { place_view result ≡ (part_steps self.entry ++ key member.now ∷ number k ∷ [], words.now) }
    {
        match self {
            Part::File => Place::row(member, k, words),
            Part::Scheme(scheme) => Place::name(scheme, member, k, words),
            Part::Row(list, n) => Place::item(list, n, member, k, words),
        }
    }
}
