//! Labels kept in a plain table, which tests compare with the book.

use crate::LabelBook;
use crate::asked::is_once;
use vec_record::Number;

/// The label of each core below 16 in its place, and 0 where it has none. No core is 0.
#[derive(Clone, Copy)]
pub struct Plain {
    pub labels: [Number; 16],
}

impl Plain {
    pub fn new() -> Plain {
        Plain { labels: [0; 16] }
    }

    /// The table of what a book answers.
    pub fn of(book: &LabelBook) -> Plain {
        let mut plain = Plain::new();
        for core in 0..16u32 {
            plain.set(core, book.label_of(core).unwrap_or(0));
        }
        plain
    }

    pub fn label(&self, core: Number) -> Number {
        match self.labels.get(core as usize) {
            Some(label) => *label,
            None => 0,
        }
    }

    fn set(&mut self, core: Number, label: Number) {
        if let Some(place) = self.labels.get_mut(core as usize) {
            *place = label;
        }
    }

    /// The cores get the least of them as label, which is answered.
    pub fn found(&mut self, cores: &[Number]) -> Number {
        self.join(&[], cores)
    }

    /// The cores, and those with one of the labels, get the least of all as label, which is
    /// answered.
    pub fn join(&mut self, labels: &[Number], cores: &[Number]) -> Number {
        let label = least(labels).min(least(cores));
        for core in 1..16u32 {
            if labels.contains(&self.label(core)) || cores.contains(&core) {
                self.set(core, label);
            }
        }
        label
    }

    /// The lost ones lose their label, and each group and the rest get the least of them.
    pub fn part(&mut self, label: Number, lost: &[Number], groups: &[&[Number]]) {
        let before = *self;
        let mut rest = Number::MAX;
        for core in 1..16u32 {
            if before.label(core) == label
                && label_in(groups, core).is_none()
                && !lost.contains(&core)
            {
                rest = rest.min(core);
            }
        }
        for core in 1..16u32 {
            if before.label(core) == label {
                self.set(core, label_in(groups, core).unwrap_or(rest));
            }
        }
        for core in lost {
            self.set(*core, 0);
        }
    }

    /// Whether a list is exactly the labels of the cores that had a label before.
    pub fn has_labels(&self, before: &Plain, label: Number, labels: &[Number]) -> bool {
        let mut same = true;
        for core in 1..16u32 {
            let own = before.label(self.label(core)) == label && self.label(core) == core;
            same = same && labels.contains(&core) == own;
        }
        same && is_once(labels)
    }

    /// Whether the book answers as this table says.
    pub fn is_seen(&self, book: &LabelBook) -> bool {
        let mut clusters = 0u32;
        for core in 1..16u32 {
            if book.label_of(core).unwrap_or(0) != self.label(core)
                || !self.has_members(book, core)
            {
                return false;
            }
            if self.label(core) == core {
                clusters = clusters.saturating_add(1);
            }
        }
        book.clusters() == clusters as usize
    }

    /// Whether the members of a label in the book are those in this table.
    fn has_members(&self, book: &LabelBook, label: Number) -> bool {
        let Some(members) = book.members(label) else {
            return self.label(label) != label;
        };
        for core in 1..16u32 {
            if members.as_slice().contains(&core) != (self.label(core) == label) {
                return false;
            }
        }
        is_once(members.as_slice())
    }

    /// Whether each label is the least of its members.
    pub fn has_least(&self) -> bool {
        for core in 1..16u32 {
            let label = self.label(core);
            if label > core || (label > 0 && self.label(label) != label) {
                return false;
            }
        }
        true
    }
}

/// The least number of a list, or the greatest of all where it is empty.
fn least(numbers: &[Number]) -> Number {
    let mut least = Number::MAX;
    for number in numbers {
        least = least.min(*number);
    }
    least
}

/// The least of the group in which a core stands.
fn label_in(groups: &[&[Number]], core: Number) -> Option<Number> {
    for group in groups {
        if group.contains(&core) {
            return Some(least(group));
        }
    }
    None
}
