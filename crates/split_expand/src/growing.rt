//! The work list of growing groups.

ghost use Rattle.std.specs.Prelude.{◌≡◌, ◌+◌, ◌<◌, ◌≤◌, true, false, drop, length};
ghost use Rattle.std.specs.Prelude.{ℕ, Bool, IfOk, OnOk, IsTrue};
ghost use Rattle.chain_growth.specs.inside.Lists.{is_in, In, with_one};
ghost use Rattle.chain_growth.specs.inside.Work.{Enters, EntersNear};
ghost use Rattle.update_seed.specs.Books.{IsHeld, near_in};
ghost use Rattle.update_seed.specs.Price.{cost_at};
ghost use Rattle.split_expand.specs.inside.Growing.{IsAlike, IsSound, IsMet, HasMet, AreThere};
ghost use Rattle.split_expand.specs.inside.Growing.{HasNoSeedLater, GoesOn, IsAsked, next_in};
ghost use Rattle.split_expand.specs.inside.Growing.{IsPaidFor, IsWhole, IsLast};

use crate::members::Members;
use indexmap::IndexSet;
use plain_dbscan::RangeIndex;
use std::alloc::{AllocError, Global};
use std::sync::ledger::Ledger;
use update_seed::ask;
use vec_record::{Metric, Number, Numbers, Records, Steps};

/// What grows: the members and the seeds of a former cluster, and the cores of the groups in the
/// order in which they came. The first ones of these were asked. `unfound` counts the seeds that
/// haven't come, `near` has the answer of the last query, and `later` those of it that are no seed
/// and hadn't come.
#[derive(Drop)]
pub(crate) struct Growth<'a> {
    pub(crate) members: Members<'a>,
    pub(crate) seeds: IndexSet<Number>,
    pub(crate) order: IndexSet<Number>,
    pub(crate) asked: usize,
    pub(crate) unfound: usize,
    pub(crate) near: Numbers,
    pub(crate) later: Vec<Number>,
}

impl Growth<'_> {
    /// Takes in a seed behind the others, and counts it off.
    pub(crate) fn enter_seed(&mut self, seed: Number) -> Result<(), AllocError>
        requires sound { IsSound self.old }
        requires seed { In self.old.seeds.keys seed }
        ensures sound { OnOk result (IsSound self.new) }
        ensures order { OnOk result (self.new.order.keys ≡ with_one self.old.order.keys seed) }
        ensures members { self.new.members ≡ self.old.members }
        ensures seeds { self.new.seeds ≡ self.old.seeds }
        ensures asked { self.new.asked ≡ self.old.asked }
        ensures near { self.new.near ≡ self.old.near }
        ensures later { self.new.later ≡ self.old.later }
    {
        if self.order.insert(seed)? {
            self.unfound -= 1;
        }
        Ok(())
    }

    // Takes in a member that is no seed behind the others.
    fn enter(&mut self, core: Number) -> Result<(), AllocError>
        requires sound { IsSound self.old }
        requires member { In self.old.members core }
        requires other { is_in self.old.seeds.keys core ≡ false }
        ensures sound { OnOk result (IsSound self.new) }
        ensures order { OnOk result (self.new.order.keys ≡ with_one self.old.order.keys core) }
        ensures members { self.new.members ≡ self.old.members }
        ensures seeds { self.new.seeds ≡ self.old.seeds }
        ensures asked { self.new.asked ≡ self.old.asked }
        ensures near { self.new.near ≡ self.old.near }
        ensures later { self.new.later ≡ self.old.later }
    {
        let _ = self.order.insert(core)?;
        Ok(())
    }

    // Takes in a near number that is a seed, and leaves any other one that hasn't come for later.
    fn meet(&mut self, number: Number) -> Result<(), AllocError>
        requires sound { IsSound self.old }
        ensures sound { OnOk result (IsSound self.new) }
        ensures met { OnOk result (IsMet self.old self.new number) }
        ensures members { self.new.members ≡ self.old.members }
        ensures seeds { self.new.seeds ≡ self.old.seeds }
        ensures asked { self.new.asked ≡ self.old.asked }
        ensures near { self.new.near ≡ self.old.near }
    {
        if self.order.contains(&number) {
            return Ok(());
        }
        if self.seeds.contains(&number) {
            return self.enter_seed(number);
        }
        self.later.push(number)?;
        Ok(())
    }

    // Takes in the seeds among the near numbers, and leaves the others that haven't come for later.
    fn enter_seeds(&mut self) -> Result<(), AllocError>
        requires sound { IsSound self.old }
        ensures sound { OnOk result (IsSound self.new) }
        ensures entered { OnOk result (HasMet self.old self.new (length self.old.near)) }
        ensures members { self.new.members ≡ self.old.members }
        ensures seeds { self.new.seeds ≡ self.old.seeds }
        ensures asked { self.new.asked ≡ self.old.asked }
        ensures near { self.new.near ≡ self.old.near }
    {
        self.later.clear();
        for i in 0..self.near.len() {
            let number = self.near.as_slice()[i];
            self.meet(number)?;
        }
        Ok(())
    }

    // Takes in the members among those that were left for later.
    fn enter_later(&mut self) -> Result<(), AllocError>
        requires sound { IsSound self.old }
        requires others { HasNoSeedLater self.old }
        ensures sound { OnOk result (IsSound self.new) }
        ensures entered { OnOk result (Enters self.old.members self.old.later.items
            self.old.order.keys self.new.order.keys true (length self.old.later.items)) }
        ensures members { self.new.members ≡ self.old.members }
        ensures seeds { self.new.seeds ≡ self.old.seeds }
        ensures asked { self.new.asked ≡ self.old.asked }
        ensures near { self.new.near ≡ self.old.near }
        ensures later { self.new.later ≡ self.old.later }
    {
        for i in 0..self.later.len() {
            let number = self.later[i];
            if self.members.has(number) {
                self.enter(number)?;
            }
        }
        Ok(())
    }

    /// The cores from a place on.
    pub(crate) fn since(&self, alloc: Global, start: usize) -> Result<Numbers, AllocError>
        requires { start ≤ length self.now.order.keys }
        ensures { IfOk result (λ cores. cores ≡ drop start self.now.order.keys) }
    {
        let cores = Vec::from_slice(alloc, &self.order.as_slice()[start..])?;
        Ok(Numbers::from_vec(cores))
    }
}

/// Grows the class of the core that came last, and answers whether it is whole. It leaves off when
/// no seed is missing.
pub(crate) fn grow<M: Metric, I: RangeIndex<M>, L: Ledger>(
    records: &Records,
    index: &I,
    eps: u32,
    growth: &mut Growth<'_>,
    steps: &mut Steps<L>,
) -> Result<bool, AllocError>
    requires index { IsHeld (I.width index.now) (I.contents index.now) records.now }
    requires alike { IsAlike (near_in M.dist eps records.now) }
    requires there { AreThere records.now growth.old.members }
    requires sound { IsSound growth.old }
    requires asked { growth.old.asked ≤ length growth.old.order.keys }
    ensures sound { OnOk result (IsSound growth.new) }
    ensures order { OnOk result (GoesOn growth.old growth.new) }
    ensures asked { IfOk result (λ whole. IsTrue whole → IsAsked growth.new) }
    ensures paid { (core : ℕ → Bool) → IsPaidFor core (near_in M.dist eps records.now)
        (cost_at (I.cost index.now) records.now eps) growth.old steps.old steps.new }
    ensures whole { IfOk result (λ whole. IsTrue whole → (core : ℕ → Bool)
        → IsWhole core (near_in M.dist eps records.now) growth.old growth.new) }
    ensures last { IfOk result (λ whole. whole ≡ false → (core : ℕ → Bool)
        → IsLast core (near_in M.dist eps records.now) growth.old) }
{
    'asks: while growth.asked < growth.order.len() {
        if growth.unfound == 0 {
            return Ok(false);
        }
        ask_next(records, index, eps, growth, steps)?;
    }
    Ok(growth.unfound > 0)
}

// Asks the next core, and takes in what is near it: the seeds first, and then the other members.
fn ask_next<M: Metric, I: RangeIndex<M>, L: Ledger>(
    records: &Records,
    index: &I,
    eps: u32,
    growth: &mut Growth<'_>,
    steps: &mut Steps<L>,
) -> Result<(), AllocError>
    requires index { IsHeld (I.width index.now) (I.contents index.now) records.now }
    requires there { AreThere records.now growth.old.members }
    requires sound { IsSound growth.old }
    requires asked { growth.old.asked < length growth.old.order.keys }
    ensures sound { OnOk result (IsSound growth.new) }
    ensures entered { OnOk result (EntersNear (near_in M.dist eps records.now)
        growth.old.members (next_in growth.old) growth.old.order.keys growth.new.order.keys) }
    ensures members { OnOk result (growth.new.members ≡ growth.old.members) }
    ensures seeds { OnOk result (growth.new.seeds ≡ growth.old.seeds) }
    ensures asked { OnOk result (growth.new.asked ≡ growth.old.asked + 1) }
    ensures at_most { steps.new ≤ steps.old
        + cost_at (I.cost index.now) records.now eps (next_in growth.old) }
{
    let core = growth.order.as_slice()[growth.asked];
    ask(records, index, core, eps, &mut growth.near, steps)?;
    growth.enter_seeds()?;
    growth.enter_later()?;
    growth.asked += 1;
    Ok(())
}
