//! Laws of the metadata: its order, the lock, the entries that serve keys, tags, and private copies.
//! No code: each function's contract is a law of the definitions.

ghost use Rattle.model.specs.Laws.Metadata.{MetadataIsInOrder, MetadataKeysAreKept};
ghost use Rattle.model.specs.Laws.Metadata.{MetadataContinues, ChangesKeepTheOrder};
ghost use Rattle.model.specs.Laws.Metadata.{JournalRowsKeepTheOrder, ChangesAddKeptKeysAlone};
ghost use Rattle.model.specs.Laws.Metadata.{JournalRowsAddKeptKeysAlone, ASetPutsItsValue};
ghost use Rattle.model.specs.Laws.Metadata.{ASetChangesNoOtherKey, ASetOfAnotherKeyChangesNothing};
ghost use Rattle.model.specs.Laws.Metadata.{AClearRemovesItsRange, AClearChangesNoOtherKey};
ghost use Rattle.model.specs.Laws.Metadata.{AppliedIsCommittedAndUnlocked};
ghost use Rattle.model.specs.Laws.Metadata.{ARowReadsTheLockBeforeIt, KeyServersAreInOrder};
ghost use Rattle.model.specs.Laws.Metadata.{KeyServersHaveThePrefix, ServingEntryServes};
ghost use Rattle.model.specs.Laws.Metadata.{ServingEntryOfMetadataServes};
ghost use Rattle.model.specs.Laws.Metadata.{NoServingEntryMeansNoneBefore};
ghost use Rattle.model.specs.Laws.Metadata.{TagsAreSortedAndDistinct, TagsAreOfTheTouchedRows};
ghost use Rattle.model.specs.Laws.Metadata.{ARowOfServersHasTheirTags, ARowOfTagsHasThem};
ghost use Rattle.model.specs.Laws.Metadata.{ASetTouchesTheServingEntry};
ghost use Rattle.model.specs.Laws.Metadata.{AClearTouchesTheServingEntries};
ghost use Rattle.model.specs.Laws.PrivateCopies.{ServerKeysGoToTheirServer};
ghost use Rattle.model.specs.Laws.PrivateCopies.{ServerTagsGoToTheirServer};
ghost use Rattle.model.specs.Laws.PrivateCopies.{OtherSetsHaveNoCopy, ClearsHaveNoCopy};

/// The entries of every metadata are in strict order of their keys, which are all kept ones. The
/// metadata of a longer journal continues from what its first rows give. Each change, and so each row
/// of a journal, keeps the order, and adds kept keys alone.
pub fn fold_keeps_order_law()
    ensures order { MetadataIsInOrder }
    ensures kept { MetadataKeysAreKept }
    ensures longer { MetadataContinues }
    ensures order_after_change { ChangesKeepTheOrder }
    ensures order_after_row { JournalRowsKeepTheOrder }
    ensures kept_after_change { ChangesAddKeptKeysAlone }
    ensures kept_after_row { JournalRowsAddKeptKeysAlone }
{}

/// What a change does at each key: a Set of a kept key puts its value there and changes no other
/// key. A Set of another key changes nothing. A Clear removes the keys of its range and no others.
pub fn change_at_key_law()
    ensures set { ASetPutsItsValue }
    ensures other { ASetChangesNoOtherKey }
    ensures not_kept { ASetOfAnotherKeyChangesNothing }
    ensures cleared { AClearRemovesItsRange }
    ensures left { AClearChangesNoOtherKey }
{}

/// A state transaction is applied exactly if each of its verdicts is Committed, one for each
/// resolver, and it is lock aware or the database is not locked. A row of a journal makes the
/// changes that the lock before it lets through, in order, whatever its own transactions write.
pub fn lock_rule_law()
    ensures passes { AppliedIsCommittedAndUnlocked }
    ensures changes { ARowReadsTheLockBeforeIt }
{}

/// The entry of a key is the keyServers entry that serves it: it is at or before the key, and no
/// other such entry is above it. This holds for all entries in order, and so for every metadata. If
/// no entry serves the key, no keyServers entry is at or before it.
pub fn serving_entry_law()
    ensures order { KeyServersAreInOrder }
    ensures kept { KeyServersHaveThePrefix }
    ensures serves { ServingEntryServes }
    ensures served { ServingEntryOfMetadataServes }
    ensures none { NoServingEntryMeansNoneBefore }
{}

/// The tags of a change are sorted by locality and then by id, and distinct. They are exactly those
/// of the keyServers entries that the change touches: an entry that names servers has the tags of
/// these, and one that lists tags has them, whatever other entries there are. A Set touches the entry
/// that serves its key, and a Clear those that serve some key of its range.
pub fn tags_of_change_law()
    ensures rising { TagsAreSortedAndDistinct }
    ensures exact { TagsAreOfTheTouchedRows }
    ensures of_servers { ARowOfServersHasTheirTags }
    ensures of_tags { ARowOfTagsHasThem }
    ensures set { ASetTouchesTheServingEntry }
    ensures cleared { AClearTouchesTheServingEntries }
{}

/// Which changes have a private copy, and of which tag. A Set of a serverKeys row has exactly the copy
/// for the server that its key names, if that server's serverTag row gives a tag. A Set of a
/// serverTag row has exactly the copy for the tag that it sets. No other change has one.
pub fn private_copy_law()
    ensures server_keys { ServerKeysGoToTheirServer }
    ensures server_tag { ServerTagsGoToTheirServer }
    ensures other { OtherSetsHaveNoCopy }
    ensures cleared { ClearsHaveNoCopy }
{}
