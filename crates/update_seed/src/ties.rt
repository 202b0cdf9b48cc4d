//! New cores and the old labels near them, tied together in one label book.

ghost use Rattle.std.specs.Prelude.{◌≡◌, [], ◌∷◌, IfOk, OnOk, IsSome};
ghost use Rattle.std.specs.FinMap as map;
ghost use Rattle.label_book.specs.Labels.{EachOnce, HasLeast};
ghost use Rattle.update_seed.specs.inside.Ties.{IsTied, AreTied, IsOffered, AreAlone};

use count_book::CountBook;
use label_book::LabelBook;
use std::alloc::{AllocError, Global};
use vec_record::{Number, Numbers};

// The list of one number.
fn single(alloc: Global, a: Number) -> Result<Numbers, AllocError>
    ensures { IfOk result (λ list. list ≡ a ∷ []) }
{
    let mut list = Numbers::new(alloc);
    list.push(a)?;
    Ok(list)
}

// The list of two numbers.
fn pair(alloc: Global, a: Number, b: Number) -> Result<Numbers, AllocError>
    ensures { IfOk result (λ list. list ≡ a ∷ b ∷ []) }
{
    let mut list = Numbers::new(alloc);
    list.push(a)?;
    list.push(b)?;
    Ok(list)
}

/// A book in which each of these cores is alone.
pub(crate) fn each_alone(alloc: Global, cores: &[Number]) -> Result<LabelBook, AllocError>
    requires { EachOnce cores.now }
    ensures { IfOk result (λ ties. AreAlone cores.now ties) }
{
    let mut ties = LabelBook::new(alloc);
    for i in 0..cores.len() {
        ties.found(&single(alloc, cores[i])?)?;
    }
    Ok(ties)
}

// Brings a number to a core, with all that is tied to it already. It takes memory only where this
// is new.
fn tie(alloc: Global, ties: &mut LabelBook, core: Number, other: Number) -> Result<(), AllocError>
    requires { IsSome (map.get ties.old core) }
    ensures { OnOk result (IsTied ties.old core other ties.new) }
{
    let first = match ties.label_of(core) {
        Some(label) => label,
        None => return Ok(()),
    };
    match ties.label_of(other) {
        Some(second) => join(alloc, ties, first, second),
        None => take_in(alloc, ties, first, other),
    }
}

// Makes one class of two, given their labels.
fn join(
    alloc: Global,
    ties: &mut LabelBook,
    first: Number,
    second: Number,
) -> Result<(), AllocError>
    requires least { HasLeast ties.old }
    requires first { map.get ties.old first ≡ Some first }
    requires second { map.get ties.old second ≡ Some second }
    ensures { OnOk result (IsTied ties.old first second ties.new) }
{
    if first != second {
        ties.join(&pair(alloc, first, second)?, &Numbers::new(alloc))?;
    }
    Ok(())
}

// Brings a number that is in no class to the class of a label.
fn take_in(
    alloc: Global,
    ties: &mut LabelBook,
    label: Number,
    other: Number,
) -> Result<(), AllocError>
    requires least { HasLeast ties.old }
    requires label { map.get ties.old label ≡ Some label }
    requires free { map.get ties.old other ≡ None }
    ensures { OnOk result (IsTied ties.old label other ties.new) }
{
    ties.join(&single(alloc, label)?, &single(alloc, other)?)?;
    Ok(())
}

// Ties a number near a new core to it, by the number's label or, where it is new itself, by the
// number. A number that is neither is offered the core as an anchor.
fn tie_near(
    alloc: Global,
    ties: &mut LabelBook,
    labels: &LabelBook,
    counts: &mut CountBook,
    core: Number,
    near: Number,
) -> Result<(), AllocError>
    requires { IsSome (map.get ties.old core) }
    ensures ties { OnOk result (AreTied labels.now core (near ∷ []) ties.old ties.new) }
    ensures counts { OnOk result (IsOffered labels.now ties.old core (near ∷ [])
        counts.old counts.new) }
{
    match labels.label_of(near) {
        Some(label) => tie(alloc, ties, core, label),
        None => {
            if ties.label_of(near).is_some() {
                return tie(alloc, ties, core, near);
            }
            counts.offer_anchor(near, core);
            Ok(())
        }
    }
}

/// Ties all that is near a new core to it, and offers the core to what is no core.
pub(crate) fn tie_all(
    alloc: Global,
    ties: &mut LabelBook,
    labels: &LabelBook,
    counts: &mut CountBook,
    core: Number,
    near: &[Number],
) -> Result<(), AllocError>
    requires { IsSome (map.get ties.old core) }
    ensures ties { OnOk result (AreTied labels.now core near.now ties.old ties.new) }
    ensures counts { OnOk result (IsOffered labels.now ties.old core near.now
        counts.old counts.new) }
{
    for i in 0..near.len() {
        tie_near(alloc, ties, labels, counts, core, near[i])?;
    }
    Ok(())
}
