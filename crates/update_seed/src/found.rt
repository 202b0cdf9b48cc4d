//! What is found near lost cores: seeds of what is left of their clusters, and records that hung on
//! them.

ghost use Rattle.std.specs.Prelude.{◌≡◌, [], ◌∷◌, Some, IsSome, OnOk};
ghost use Rattle.std.specs.FinMap as map;
ghost use Rattle.update_seed.specs.inside.Found.{IsKept, IsAdded, IsLooked};

use crate::labelled::Labelled;
use count_book::CountBook;
use label_book::LabelBook;
use number_map::NumberMap;
use std::alloc::{AllocError, Global};
use vec_record::{Number, Numbers};

/// The cores found near lost ones of their own label, each once, and the records whose anchor was a
/// lost core that they are near.
#[derive(Drop)]
pub(crate) struct Found {
    pub(crate) seeds: Vec<Labelled>,
    pub(crate) seen: NumberMap<()>,
    pub(crate) loose: Numbers,
}

impl Found {
    /// Nothing yet.
    pub(crate) fn new(alloc: Global) -> Found
        ensures seeds { result.seeds.items ≡ [] }
        ensures seen { result.seen ≡ map.empty }
        ensures loose { result.loose ≡ [] }
    {
        Found {
            seeds: Vec::new(alloc),
            seen: NumberMap::new(alloc),
            loose: Numbers::new(alloc),
        }
    }

    /// Looks through the numbers near a lost core.
    pub(crate) fn look(
        &mut self,
        counts: &CountBook,
        labels: &LabelBook,
        core: Number,
        near: &[Number],
    ) -> Result<(), AllocError>
        requires kept { IsKept labels.now self.old }
        requires label { IsSome (map.get labels.now core) }
        ensures { OnOk result (IsLooked counts.now labels.now core near.now self.old self.new) }
    {
        let lost = match labels.label_of(core) {
            Some(label) => Labelled {
                label,
                number: core,
            },
            None => return Ok(()),
        };
        for i in 0..near.len() {
            self.see(counts, labels, lost, near[i])?;
        }
        Ok(())
    }

    // Looks at one number near a lost core.
    fn see(
        &mut self,
        counts: &CountBook,
        labels: &LabelBook,
        lost: Labelled,
        near: Number,
    ) -> Result<(), AllocError>
        requires kept { IsKept labels.now self.old }
        requires label { map.get labels.now lost.number ≡ Some lost.label }
        ensures { OnOk result (IsLooked counts.now labels.now lost.number (near ∷ [])
            self.old self.new) }
    {
        if counts.is_core(near) {
            if labels.label_of(near) == Some(lost.label) {
                self.add(Labelled {
                    label: lost.label,
                    number: near,
                })?;
            }
        } else if counts.anchor_of(near) == Some(lost.number) {
            self.loose.push(near)?;
        }
        Ok(())
    }

    // Puts in a seed, unless it is there.
    fn add(&mut self, seed: Labelled) -> Result<(), AllocError>
        ensures { OnOk result (IsAdded seed self.old self.new) }
    {
        if self.seen.get(seed.number).is_none() {
            self.seen.insert(seed.number, ())?;
            self.seeds.push(seed)?;
        }
        Ok(())
    }
}
