//! Laws of the definitions, over all bytes and all versions. Each is the `ensures` clause of a function with an empty
//! body, which runs no code.
ghost use Rattle.osm_files.specs.Laws as law;
ghost use Rattle.osm_files.specs.SpellLaws as spelling;
ghost use Rattle.osm_files.specs.LoadLaws as loading;
ghost use Rattle.osm_files.specs.SourceLaws as source;
ghost use Rattle.osm_files.specs.FirstFault as fault;

use crate::{Input, Output};

/// A file spells at most one list of versions.
pub fn one_list()
    ensures { law.OneList }
{}

/// The bytes of a file have no verdict, and the versions of their units are those that the file spells.
pub fn files_are_read()
    ensures { law.FilesAreRead }
{}

/// Bytes without a verdict are a file, which spells the versions of their units.
pub fn accepted_without_verdict()
    ensures { law.AcceptedWithoutVerdict }
{}

/// A sorted file has no verdict on its order.
pub fn sorted_files_are_read()
    ensures { law.SortedFilesAreRead }
{}

/// Bytes without a verdict on their order are a sorted file.
pub fn sorted_without_verdict()
    ensures { law.SortedWithoutVerdict }
{}

/// If the verdict on order isn't Unsorted, the verdict is the same.
pub fn verdict_without_order()
    ensures { law.VerdictWithoutOrder }
{}

/// The file that is written for a set of versions, if it is shorter than 2^62 bytes, is sorted and holds the set.
pub fn spell_holds_its_set()
    ensures { spelling.SpellHoldsItsSet }
{}

/// The file that is written for a set of versions, if it is shorter than 2^62 bytes, is accepted: it has no verdict.
pub fn spell_has_no_verdict()
    ensures { spelling.SpellHasNoVerdict }
{}

/// Bytes hold a set exactly if they have no verdict and the set has the versions of their units.
pub fn held_without_verdict()
    ensures { spelling.HeldWithoutVerdict }
{}

/// A file holds at most one set.
pub fn held_is_one_set()
    ensures { spelling.HeldIsOneSet }
{}

/// The file that is written for a set of versions holds no other set.
pub fn spelled_is_held()
    ensures { spelling.SpelledIsHeld }
{}

/// The union of two sets has the same file in either order.
pub fn join_in_any_order()
    ensures { spelling.JoinInAnyOrder }
{}

/// The union of a set with itself has the same file as its union with the empty set.
pub fn join_repeated()
    ensures { spelling.JoinRepeated }
{}

/// The union of three sets has the same file, whichever two are joined and written first, and in whichever formats.
pub fn join_in_any_grouping()
    ensures { spelling.JoinInAnyGrouping }
{}

/// In a strictly ascending list, each version may be written after those before it: no kind is below the kind before.
pub fn each_may_follow()
    ensures { spelling.EachMayFollow }
{}

/// The file of a strictly ascending list is the file of its set.
pub fn list_is_spelled_as_its_set()
    ensures { spelling.ListIsSpelledAsItsSet }
{}

/// The file of a list's first versions, without the end mark, is a front of the file of the whole list.
pub fn first_versions_are_a_front()
    ensures { spelling.FirstVersionsAreAFront }
{}

/// The calls of a sink together append the file of the versions put. After a refusal they have appended a front of that
/// file.
pub fn calls_are_spelled<W: Output>(_out: &W)
    ensures { spelling.CallsAreSpelled W.Output }
{}

/// The versions that a file spells are within the ranges of versions.
pub fn files_hold_versions()
    ensures { spelling.FilesHoldVersions }
{}

/// The members of the set that a file holds are within the ranges of versions.
pub fn held_are_versions()
    ensures { spelling.HeldAreVersions }
{}

/// The union of two sets within the ranges of versions is within them.
pub fn unions_are_versions()
    ensures { spelling.UnionsAreVersions }
{}

/// The union of the sets that three files hold has the same file, whichever two are joined and written first, and in
/// whichever formats.
pub fn files_join_in_any_grouping()
    ensures { spelling.FilesJoinInAnyGrouping }
{}

/// For an input that ends, the units are those of its bytes, and the refusal is their verdict.
pub fn inputs_are_files()
    ensures { loading.InputsAreFiles }
{}

/// An input that is refused at its end, because it fails or its end is missing, has the verdict of its bytes if they
/// have a whole faulty unit, or if they are 2^62 or more. Otherwise the refusal of its end is at the number of its
/// bytes.
pub fn failed_inputs_are_refused()
    ensures { loading.FailedInputsAreRefused }
{}

/// The reason of a verdict is never Memory, Failed, ReadFault or WriteFault. Only a verdict on order may be Unsorted.
pub fn reasons_of_verdicts()
    ensures { loading.ReasonsOfVerdicts }
{}

/// The file that is written in a format determines that format.
pub fn written_files_determine_their_format()
    ensures { loading.WrittenFilesDetermineTheirFormat }
{}

/// The versions that the source of a file gives ascend strictly.
pub fn sources_ascend()
    ensures { source.SourcesAscend }
{}

/// The source of a file ends with the file's verdict on its order.
pub fn source_ends_as_verdict()
    ensures { source.SourceEndsAsVerdict }
{}

/// The source of a sorted file gives the set that the file holds.
pub fn source_gives_held()
    ensures { source.SourceGivesHeld }
{}

/// If the source of a file ends without a refusal, the file is sorted and holds the versions that the source gave.
pub fn whole_source_is_held()
    ensures { source.WholeSourceIsHeld }
{}

/// If some bytes are refused at their end, because of an error or a missing end, their source ends with the first whole
/// faulty unit, or with the refusal of the end if there is none.
pub fn failed_source_ends()
    ensures { source.FailedSourceEnds }
{}

/// The source of 2^62 bytes or more gives the same, whether they are refused at their end or not.
pub fn long_source_ends()
    ensures { source.LongSourceEnds }
{}

/// Either some bytes have a whole faulty unit, and their verdict on order is the same whatever closes the file; or
/// their verdict on order is the one that closes it.
pub fn faulty_or_closed()
    ensures { source.FaultyOrClosed }
{}

/// Bytes after a whole faulty unit don't change the verdict on the order of a file.
pub fn faulty_stays()
    ensures { source.FaultyStays }
{}

/// Bytes after a whole unit that can't be read don't change the verdict of a file.
pub fn malformed_stays()
    ensures { source.MalformedStays }
{}

/// The source of a faulty input gives the key groups before the last one that began before the fault, and then the
/// fault. The versions ascend, and each is given once.
pub fn faulty_input_gives_the_groups_before()
    ensures { source.FaultyInputGivesTheGroupsBefore }
{}

/// An opened source that is refused gives the key groups before the last one that began before the fault. The versions
/// ascend, and each is given once. The source can give such versions and the fault exactly if its reader can give an
/// input that has them and the fault.
pub fn refused_source_gives_the_groups_before<R: Input>(_reader: &R)
    ensures { source.RefusedSourceGivesTheGroupsBefore R.can_give }
{}

/// The source of a sorted file gives its whole set. The source of any other input gives the key groups before the last
/// one that began before the first fault, and then that fault, in terms of the formats' grammars.
pub fn sources_give()
    ensures { fault.SourcesGive }
{}

/// Each list that the source of a file with a rule for its end can give is that of an input that has to end so.
pub fn ended_source_gives<R: Input>(_reader: &R)
    ensures { source.EndedSourceGives R.can_give }
{}

/// The source of a file with a rule for its end can give a whole list only if the file ends as the rule says.
pub fn ended_source_ends_well<R: Input>(_reader: &R)
    ensures { source.EndedSourceEndsWell R.can_give }
{}
