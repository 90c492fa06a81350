//! Laws of unions, snapshots and states, each the contract of a function with an empty body. They run no code.
ghost use Rattle.osm_merge.specs.Laws.{SnapshotOfUnion, SnapshotOfUnions, SnapshotOfSnapshot, StateOfUnion};
ghost use Rattle.osm_merge.specs.Laws.{StateOfUnions};
ghost use Rattle.osm_merge.specs.SliceLaws.{LinesOfSlices, SelectedOfSlice, SliceOfUnions, SlicesWriteTheWhole};
ghost use Rattle.osm_merge.specs.SliceLaws.{SetsWithinAreSlices, AscendingSpansAreSorted};
ghost use Rattle.osm_merge.specs.Laws.{UnionOfTheSame, UnionOfGroups, UnionWithEmpty, UnionStaysInRange};

/// The union of some sets depends neither on their order nor on repetitions.
pub fn union_of_the_same()
    ensures { UnionOfTheSame }
{}

/// The union of some sets doesn't depend on their grouping.
pub fn union_of_groups()
    ensures { UnionOfGroups }
{}

/// The empty set adds nothing to a union.
pub fn union_with_empty()
    ensures { UnionWithEmpty }
{}

/// The union of sets that are within the ranges of versions is within them.
pub fn union_stays_in_range()
    ensures { UnionStaysInRange }
{}

/// The snapshot of the union of two histories is that of the union of their snapshots.
pub fn snapshot_of_union()
    ensures { SnapshotOfUnion }
{}

/// The snapshot of the union of any number of histories is that of the union of their snapshots.
pub fn snapshot_of_unions()
    ensures { SnapshotOfUnions }
{}

/// A snapshot is its own snapshot.
pub fn snapshot_of_snapshot()
    ensures { SnapshotOfSnapshot }
{}

/// The state at a moment of the union of two histories is the snapshot of the union of their states.
pub fn state_of_union()
    ensures { StateOfUnion }
{}

/// The state at a moment of the union of any number of histories is the snapshot of the union of their states.
pub fn state_of_unions()
    ensures { StateOfUnions }
{}

/// The lines of a set are those of its slices, in sequence, for any ascending bounds.
pub fn lines_of_slices()
    ensures { LinesOfSlices }
{}

/// The selection of a slice is the slice of the selection.
pub fn selected_of_slice()
    ensures { SelectedOfSlice }
{}

/// The slice of a union is the union of the slices.
pub fn slice_of_unions()
    ensures { SliceOfUnions }
{}

/// The selection of a union of sets is written slice by slice, each from the slices of the sets.
pub fn slices_write_the_whole()
    ensures { SlicesWriteTheWhole }
{}

/// Sets that are within the spans of ascending bounds, one for one, are the slices of their union.
pub fn sets_within_are_slices()
    ensures { SetsWithinAreSlices }
{}

/// Bounds ascend if each of their spans ascends.
pub fn ascending_spans_are_sorted()
    ensures { AscendingSpansAreSorted }
{}
