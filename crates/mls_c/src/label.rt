//! Labels in numbers.
ghost use Rattle.std.specs.Prelude.{◌≡◌, Some, IfSome};
ghost use Rattle.mls_c.specs.Labels.{label_of, no_label, numbers_of_label};

use mls_labels::{CatSet, Label, MAX_LEVELS};

/// A label: its level, and a bit for each category, category n in bit n % 64 of word n / 64.
#[repr(C)]
#[derive(Clone, Copy)]
pub struct LabelNumbers {
    pub level: u8,
    pub categories: [u64; 4],
}

impl LabelNumbers {
    /// The numbers that stand where an action has no label.
    pub(crate) fn none() -> LabelNumbers
        ensures { result ≡ no_label }
    {
        LabelNumbers {
            level: 0,
            categories: [0, 0, 0, 0],
        }
    }

    /// A label in numbers.
    pub(crate) fn of(label: Label) -> LabelNumbers
        ensures { result ≡ numbers_of_label label }
    {
        LabelNumbers {
            level: label.level(),
            categories: label.categories().words(),
        }
    }

    /// The label of these numbers, where its level is within the limit of labels.
    pub(crate) fn label(&self) -> Option<Label>
        ensures { result ≡ label_of self.now }
    {
        if (self.level as usize) < MAX_LEVELS {
            let categories = CatSet::from_words(self.categories);
            Some(Label::new(self.level, categories))
        } else {
            None
        }
    }

    /// The label of these numbers, where its level is within the limit and its categories are among the first 64. Code
    /// into which this is put looks at one word of them.
    #[inline(always)]
    #[tactic(auto, using(crate::proofs::ShortLabels::short_words))]
    pub(crate) fn short_label(&self) -> Option<Label>
        ensures { IfSome result (λ l. label_of self.now ≡ Some l) }
    {
        let words = self.categories;
        if (self.level as usize) < MAX_LEVELS && words[1] | words[2] | words[3] == 0 {
            let categories = CatSet::from_words([words[0], 0, 0, 0]);
            Some(Label::new(self.level, categories))
        } else {
            None
        }
    }
}
