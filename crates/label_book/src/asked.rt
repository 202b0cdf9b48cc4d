//! What a test may ask of a book: each call's conditions as tests that run.

ghost use Rattle.std.specs.Prelude.{◌≡◌, ◌<◌, ℕ, Some, length, IsTrue};
ghost use Rattle.std.specs.FinMap as map;
ghost use Rattle.label_book.specs.Labels.{IsMember, EachOnce, AreFree, AreLabels};
ghost use Rattle.label_book.specs.Parting.{IsGrouped, AreEachOnce, AreApart, IsParting};

use crate::LabelBook;
use crate::parting::{is_among, stands_in};
use vec_record::{Groups, Number, Numbers};

/// Whether no number stands twice in the list.
pub fn is_once(list: &[Number]) -> bool
    ensures { IsTrue result → EachOnce list.now }
{
    for i in 0..list.len() {
        if is_among(&list[..i], list[i]) {
            return false;
        }
    }
    true
}

/// Whether all of these cores have this label, or none.
fn have_label(book: &LabelBook, cores: &[Number], label: Option<Number>) -> bool
    ensures { IsTrue result → (q : ℕ) → IsMember cores.now q → map.get book.now q ≡ label }
{
    for i in 0..cores.len() {
        if book.label_of(cores[i]) != label {
            return false;
        }
    }
    true
}

/// Whether each of these is a label.
fn are_labels(book: &LabelBook, labels: &[Number]) -> bool
    ensures { IsTrue result → AreLabels book.now labels.now }
{
    for i in 0..labels.len() {
        if book.label_of(labels[i]) != Some(labels[i]) {
            return false;
        }
    }
    true
}

/// Whether these cores may be joined to clusters.
pub fn may_add(book: &LabelBook, cores: &Numbers) -> bool
    ensures once { IsTrue result → EachOnce cores.now }
    ensures free { IsTrue result → AreFree book.now cores.now }
{
    is_once(cores.as_slice()) && have_label(book, cores.as_slice(), None)
}

/// Whether the clusters of these labels may be joined.
pub fn may_join(book: &LabelBook, labels: &Numbers) -> bool
    ensures some { IsTrue result → 0 < length labels.now }
    ensures labels { IsTrue result → AreLabels book.now labels.now }
    ensures once { IsTrue result → EachOnce labels.now }
{
    0 < labels.len() && are_labels(book, labels.as_slice()) && is_once(labels.as_slice())
}

/// Whether no core of a group is lost or stands in an earlier group.
fn is_fresh(group: &[Number], lost: &[Number], earlier: &[Numbers]) -> bool
    ensures lost { IsTrue result → (q : ℕ) → IsMember group.now q → IsMember lost.now q → ⊥ }
    ensures earlier { IsTrue result → (q : ℕ) → IsMember group.now q → IsGrouped earlier.now q → ⊥ }
{
    for i in 0..group.len() {
        if is_among(lost, group[i]) {
            return false;
        }
        if stands_in(earlier, group[i]) {
            return false;
        }
    }
    true
}

/// Whether the groups name members alone, none twice and none that is lost.
fn are_groups(book: &LabelBook, label: Number, lost: &[Number], groups: &[Numbers]) -> bool
    ensures members { IsTrue result → (q : ℕ) → IsGrouped groups.now q → map.get book.now q
        ≡ Some label }
    ensures once { IsTrue result → AreEachOnce groups.now }
    ensures lost { IsTrue result → (q : ℕ) → IsMember lost.now q → IsGrouped groups.now q → ⊥ }
    ensures one { IsTrue result → AreApart groups.now }
{
    for i in 0..groups.len() {
        let group = groups[i].as_slice();
        if !is_once(group) {
            return false;
        }
        if !have_label(book, group, Some(label)) {
            return false;
        }
        if !is_fresh(group, lost, &groups[..i]) {
            return false;
        }
    }
    true
}

/// Whether the cluster of this label may part so.
pub fn may_part(book: &LabelBook, label: Number, lost: &Numbers, groups: &Groups) -> bool
    ensures { IsTrue result → IsParting book.now label lost.now groups.now }
{
    let cores = lost.as_slice();
    if book.label_of(label) != Some(label) {
        return false;
    }
    if !have_label(book, cores, Some(label)) {
        return false;
    }
    if !is_once(cores) {
        return false;
    }
    are_groups(book, label, cores, groups.as_slice())
}
