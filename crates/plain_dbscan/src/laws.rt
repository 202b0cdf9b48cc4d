//! Laws over the definitions. Each is the contract of a function that does nothing.

ghost use Rattle.plain_dbscan.specs.Laws.{MarksAreLawful, ClustersAreNamed, LabelsAreLeast};
ghost use Rattle.plain_dbscan.specs.Laws.{AnchorsAreLeast, NearByVectors, IndexFindsNear};
ghost use Rattle.plain_dbscan.specs.Change.{MoreCores, OneMoreRecord, ChangesAreOne};

/// A list of marks is the computed one exactly where it has the numbers of the records and no
/// other, rising, and each entry says what is so: a core has as its label the least core that a
/// chain joins it with; a border has the label of the least core near it; noise has none near it.
pub fn marks_are_lawful()
    ensures { MarksAreLawful }
{}

/// Each label in the list of marks is that of a core which is its own label.
pub fn clusters_are_named()
    ensures { ClustersAreNamed }
{}

/// The computed label of a core is the least core that a chain joins it with.
pub fn labels_are_least()
    ensures { LabelsAreLeast }
{}

/// The computed anchor of a record that is no core is the least core near it, and none exactly
/// where no core is near. A core has none.
pub fn anchors_are_least()
    ensures { AnchorsAreLeast }
{}

/// What is near a record, and how many, is what is near its vector.
pub fn near_by_vectors()
    ensures { NearByVectors }
{}

/// An index over the records finds around a record's vector what is near the record.
pub fn index_finds_near()
    ensures { IndexFindsNear }
{}

/// Among more cores what is joined stays joined, labels fall or stay, and a class without a new
/// core keeps its members and its label.
pub fn more_cores()
    ensures { MoreCores }
{}

/// One more record adds itself to what is near the records that it is near, and one to their
/// sizes. Cores stay cores, and each new one but itself is near it. Labels fall or stay; they stay
/// where no new core is joined.
pub fn one_more_record()
    ensures { OneMoreRecord }
{}

/// Records have one more after an insertion, and had one more before a deletion.
pub fn changes_are_one()
    ensures { ChangesAreOne }
{}
