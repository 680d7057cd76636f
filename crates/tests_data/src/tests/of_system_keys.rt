//! Tests of system_keys.

use super::{assert_alike, assert_copied, is_range};
use std::alloc::{AllocError, Global};
use std::test::Fail;
use system_keys::{
    Bytes, Change, Items, KeyRange, Location, OrderedKey, OutOfMemory, RowFault, RowKind, ServerId,
    SharedItems, Tag, TagTeams, TagTeamsFault, Teams, TeamsFault, classify, decode_key_servers,
    decode_location, decode_tag, encode_key_servers, encode_tag, encode_tag_teams, is_state,
    print_bytes, read_bytes,
};
use testing::{MutationLine, bytes, change, list, range, repeat_byte, room, text_room, twice};

/// `server0000000001`.
const SERVER_1: [u8; 16] = [
    0x73, 0x65, 0x72, 0x76, 0x65, 0x72, 0x30, 0x30, 0x30, 0x30, 0x30, 0x30, 0x30, 0x30, 0x30, 0x31,
];

/// The value of a keyServers row with the source `server0000000001` and no destination.
const ONE_SOURCE: [u8; 18] = [
    0x01, 0x73, 0x65, 0x72, 0x76, 0x65, 0x72, 0x30, 0x30, 0x30, 0x30, 0x30, 0x30, 0x30, 0x30, 0x30,
    0x31, 0x00,
];

/// Keys, and whether they lie from `b` up to `d`, without `d`.
const FROM_B_UP_TO_D: &[(&[u8], bool)] = &[
    (b"a", false),
    (b"b", true),
    (b"c\xff", true),
    (b"d", false),
    (b"", false),
];

#[test]
fn a_range_holds_its_begin_and_not_its_end(rt: HostRuntime) -> Result<(), Fail> {
    let range = KeyRange::new(list(rt.alloc(), b"b")?, list(rt.alloc(), b"d")?)?;
    assert!(rt; is_range(&range, b"b", b"d"));
    for (key, held) in FROM_B_UP_TO_D {
        assert!(rt; range.contains(*key) == *held);
    }
    Ok(())
}

/// Ranges, and whether they share a key with that from `b` up to `d`.
const AROUND_B_UP_TO_D: &[(&[u8], &[u8], bool)] = &[
    (b"a", b"b", false),
    (b"d", b"e", false),
    (b"a", b"b\x00", true),
    (b"c", b"z", true),
    (b"c", b"c\x00", true),
    (b"a", b"z", true),
];

/// Whether the range from `b` up to `d` overlaps the other, and the other it.
fn overlaps(alloc: Global, begin: &[u8], end: &[u8]) -> Result<(bool, bool), Fail> {
    let middle = range(alloc, b"b", b"d")?;
    let other = range(alloc, begin, end)?;
    Ok((middle.overlaps(&other), other.overlaps(&middle)))
}

#[test]
fn ranges_that_touch_do_not_overlap(rt: HostRuntime) -> Result<(), Fail> {
    for (begin, end, overlapping) in AROUND_B_UP_TO_D {
        let found = overlaps(rt.alloc(), *begin, *end)?;
        assert!(rt; found == (*overlapping, *overlapping));
    }
    Ok(())
}

#[test]
fn a_copy_is_equal(rt: HostRuntime) -> Result<(), Fail> {
    let key = bytes(rt.alloc(), b"abc")?;
    assert_copied(&rt, &key);
    let range = range(rt.alloc(), b"b", b"d")?;
    assert_copied(&rt, &range);
    assert_copied(&rt, &Change::clear(range));
    assert_copied(&rt, &ServerId(SERVER_1));
    let tag = Tag {
        locality: 3,
        id: 258,
    };
    assert!(rt; tag.copy() == Ok(tag));
    Ok(())
}

/// The change is a Set of `a` to `1`.
fn sets_a(change: &Change) -> bool {
    match change {
        Change::Set { key, value } => {
            key.as_slice() == b"a".as_slice() && value.as_slice() == b"1".as_slice()
        }
        Change::Clear { .. } => false,
    }
}

#[test]
fn a_set_is_made_and_copied(rt: HostRuntime) -> Result<(), Fail> {
    let set = Change::set(list(rt.alloc(), b"a")?, list(rt.alloc(), b"1")?)?;
    assert!(rt; sets_a(&set));
    assert_copied(&rt, &set);
    Ok(())
}

/// Changes, and whether they change the state.
const CHANGES: &[(MutationLine<'_>, bool)] = &[
    (MutationLine::Set(b"\xff", b"1"), true),
    (MutationLine::Set(b"\xff\x02a", b"1"), false),
    (MutationLine::Set(b"\xfe", b"1"), false),
    (MutationLine::Clear(b"a", b"\xff"), false),
    (MutationLine::Clear(b"a", b"\xff\x02"), true),
    (MutationLine::Clear(b"\xff\x02a", b"\xff\x03"), false),
    (MutationLine::Clear(b"\xff\x02", b"\xff\x04"), true),
];

#[test]
fn state_changes_are_those_of_the_metadata(rt: HostRuntime) -> Result<(), Fail> {
    for (step, state) in CHANGES {
        assert!(rt; is_state(&change(rt.alloc(), *step)?) == *state);
    }
    Ok(())
}

/// Keys, and the kinds of their rows.
const KINDS: &[(&[u8], RowKind)] = &[
    (b"\xff/keyServers/", RowKind::KeyServers),
    (b"\xff/keyServers/m\x00", RowKind::KeyServers),
    (b"\xff/keyServers", RowKind::OtherSystem),
    (b"\xff/serverTag/server0000000001", RowKind::ServerTag),
    (b"\xff/serverTag/server000000001", RowKind::OtherSystem),
    (b"\xff/serverTag/server00000000001", RowKind::OtherSystem),
    (b"\xff/dbLocked", RowKind::DatabaseLocked),
    (b"\xff/dbLocked\x00", RowKind::OtherSystem),
    (b"\xff/metadataVersion", RowKind::MetadataVersion),
    (b"\xff/serverKeys/server0000000001/m", RowKind::ServerKeys),
    (b"\xff/serverKeys/server0000000001/", RowKind::ServerKeys),
    (b"\xff/serverKeys/server0000000001", RowKind::OtherSystem),
    (b"\xff/serverKeys/server0000000001m", RowKind::OtherSystem),
    (b"\xff/serverKeys/server000000001/m", RowKind::OtherSystem),
    (b"\xff\x02", RowKind::NonMetadata),
    (b"\xff", RowKind::OtherSystem),
    (b"\xfe\xff", RowKind::Normal),
    (b"", RowKind::Normal),
];

#[test]
fn each_key_has_its_kind(rt: HostRuntime) {
    for (key, kind) in KINDS {
        assert!(rt; classify(*key) == *kind);
    }
}

/// This many ids, rising.
fn many(alloc: Global, count: u16) -> Result<Vec<ServerId>, AllocError> {
    let mut ids = room(alloc, usize::from(count))?;
    for number in 0..count {
        let [high, low] = number.to_be_bytes();
        ids.push(ServerId([high, low, 0, 0, 0, 0, 0, 0, 0, 0, 0, 0, 0, 0, 0, 0]))?;
    }
    Ok(ids)
}

/// Whether there are no teams of these sources and destinations, for this fault, and both lists come back.
fn are_refused(sources: Vec<ServerId>, destinations: Vec<ServerId>, fault: TeamsFault) -> bool {
    let counts = (sources.len(), destinations.len());
    match Teams::new(sources, destinations) {
        Ok(_) => false,
        Err(refused) => refused.0 == fault && (refused.1.len(), refused.2.len()) == counts,
    }
}

#[test]
fn teams_rise_and_are_few_enough(rt: HostRuntime) -> Result<(), Fail> {
    let equal = list(rt.alloc(), &[ServerId(SERVER_1), ServerId(SERVER_1)])?;
    assert!(rt; are_refused(many(rt.alloc(), 1)?, equal, TeamsFault::NotRising));
    let sources = many(rt.alloc(), 256)?;
    assert!(rt; are_refused(sources, many(rt.alloc(), 2)?, TeamsFault::TooManyServers));
    Ok(())
}

/// Teams of 255 sources and two destinations.
fn many_teams(alloc: Global) -> Result<Teams, Fail> {
    let sources = many(alloc, 255)?;
    let destinations = many(alloc, 2)?;
    match Teams::new(sources, destinations) {
        Ok(teams) => Ok(teams),
        Err(refused) => Err(Fail::from(refused.0)),
    }
}

fn encoded(alloc: Global, teams: &Teams) -> Result<Vec<u8>, OutOfMemory> {
    twice!(alloc; encode_key_servers(alloc, teams), OutOfMemory)
}

fn decoded(alloc: Global, value: &[u8]) -> Result<Teams, RowFault> {
    twice!(alloc; decode_key_servers(alloc, value), RowFault::OutOfMemory)
}

#[test]
fn teams_of_255_servers_are_copied_and_have_a_value(rt: HostRuntime) -> Result<(), Fail> {
    let teams = many_teams(rt.alloc())?;
    assert!(rt; teams.sources().len() == 255 && teams.destinations().len() == 2);
    assert_copied(&rt, &teams);
    let value = encoded(rt.alloc(), &teams).expect(&rt, "a value");
    assert!(rt; value.len() == 2 + 16 * 257);
    let read = decoded(rt.alloc(), &value).expect(&rt, "teams");
    assert_alike(&rt, &read, &teams);
    Ok(())
}

#[test]
fn a_key_servers_value_is_that_of_the_vector(rt: HostRuntime) -> Result<(), Fail> {
    let read = decoded(rt.alloc(), &ONE_SOURCE)?;
    assert!(rt; matches!(read.sources(), [source] if source.as_slice() == SERVER_1.as_slice()));
    assert!(rt; read.destinations().is_empty());
    let value = encoded(rt.alloc(), &read).expect(&rt, "a value");
    assert!(rt; value.as_slice() == ONE_SOURCE.as_slice());
    Ok(())
}

/// Values of keyServers rows, and the faults for which they are refused.
const BAD_VALUES: &[(&[u8], RowFault)] = &[
    (b"", RowFault::Truncated),
    (b"\x00", RowFault::Truncated),
    (b"\x01server0000000001", RowFault::Truncated),
    (b"\x01server000000001", RowFault::Truncated),
    (b"\x02server0000000002a", RowFault::Truncated),
    (b"\x02server0000000002server000000000", RowFault::Truncated),
    (b"\x02server0000000002server0000000001", RowFault::NotRising),
    (
        b"\x02server0000000001server0000000001\x00",
        RowFault::NotRising,
    ),
    (b"\x03server0000000002server0000000001", RowFault::NotRising),
    (b"\x00\x00\x00", RowFault::Trailing),
    (b"\x01server0000000001\x00\x00", RowFault::Trailing),
];

#[test]
fn a_key_servers_value_is_refused_by_its_first_fault(rt: HostRuntime) {
    for (value, fault) in BAD_VALUES {
        assert!(rt; decode_key_servers(rt.alloc(), *value).err() == Some(*fault));
    }
}

/// This many tags, rising.
fn many_tags(alloc: Global, count: u16) -> Result<Vec<Tag>, AllocError> {
    let mut tags = room(alloc, usize::from(count))?;
    for id in 0..count {
        tags.push(Tag { locality: 0, id })?;
    }
    Ok(tags)
}

/// Whether these tags are refused for this fault, and both lists come back.
fn are_refused_tags(sources: Vec<Tag>, destinations: Vec<Tag>, fault: TagTeamsFault) -> bool {
    let counts = (sources.len(), destinations.len());
    match TagTeams::new(sources, destinations) {
        Ok(_) => false,
        Err(refused) => refused.0 == fault && (refused.1.len(), refused.2.len()) == counts,
    }
}

#[test]
fn listed_tags_rise_and_are_few_enough(rt: HostRuntime) -> Result<(), Fail> {
    let tag = Tag { locality: 0, id: 1 };
    let equal = list(rt.alloc(), &[tag, tag])?;
    assert!(rt; are_refused_tags(many_tags(rt.alloc(), 1)?, equal, TagTeamsFault::NotRising));
    let sources = many_tags(rt.alloc(), 256)?;
    assert!(rt;
        are_refused_tags(
            sources,
            many_tags(rt.alloc(), 2)?,
            TagTeamsFault::TooManyTags
        )
    );
    Ok(())
}

/// 255 source tags and 255 destination tags.
fn many_listed_tags(alloc: Global) -> Result<TagTeams, Fail> {
    let sources = many_tags(alloc, 255)?;
    let destinations = many_tags(alloc, 255)?;
    match TagTeams::new(sources, destinations) {
        Ok(teams) => Ok(teams),
        Err(refused) => Err(Fail::from(refused.0)),
    }
}

fn encoded_tags(alloc: Global, teams: &TagTeams) -> Result<Vec<u8>, OutOfMemory> {
    twice!(alloc; encode_tag_teams(alloc, teams), OutOfMemory)
}

fn location_of_value(alloc: Global, value: &[u8]) -> Result<Location, RowFault> {
    twice!(alloc; decode_location(alloc, value), RowFault::OutOfMemory)
}

#[test]
fn lists_of_255_tags_are_copied_and_have_a_value(rt: HostRuntime) -> Result<(), Fail> {
    let teams = many_listed_tags(rt.alloc())?;
    assert!(rt; teams.sources().len() == 255 && teams.destinations().len() == 255);
    assert_copied(&rt, &teams);
    let value = encoded_tags(rt.alloc(), &teams).expect(&rt, "a value");
    assert!(rt; value.len() == 4 + 3 * 510);
    let location = location_of_value(rt.alloc(), &value).expect(&rt, "a location");
    assert_copied(&rt, &location);
    assert_alike(&rt, &location, &Location::Tags(teams));
    Ok(())
}

/// The value of a keyServers row that lists the source tags `0:1` and `0:2` and the destination tag
/// `3:258`.
const LISTING: [u8; 13] = [0, 0, 2, 0, 0, 1, 0, 0, 2, 1, 3, 1, 2];

/// Whether the location lists the tags of `LISTING`.
fn is_listing(location: &Location) -> bool {
    let sources = [Tag { locality: 0, id: 1 }, Tag { locality: 0, id: 2 }];
    let destinations = [Tag {
        locality: 3,
        id: 258,
    }];
    match location {
        Location::Servers(_) => false,
        Location::Tags(teams) => {
            teams.sources() == sources.as_slice() && teams.destinations() == destinations.as_slice()
        }
    }
}

/// How many servers a location names, or else how many tags it lists.
fn count_servers_or_tags(location: &Location) -> Result<usize, usize> {
    match location {
        Location::Servers(teams) => Ok(teams.sources().len() + teams.destinations().len()),
        Location::Tags(teams) => Err(teams.sources().len() + teams.destinations().len()),
    }
}

/// Whether `LISTING` is the value of the tags that the location lists.
fn has_value_listing(alloc: Global, location: &Location) -> Result<bool, OutOfMemory> {
    match location {
        Location::Servers(_) => Ok(false),
        Location::Tags(teams) => {
            let value = encoded_tags(alloc, teams)?;
            Ok(value.as_slice() == LISTING.as_slice())
        }
    }
}

/// Whether the location of `LISTING` lists its tags, and has that value again.
fn is_listing_again(alloc: Global) -> Result<bool, Fail> {
    let listing = location_of_value(alloc, &LISTING)?;
    Ok(is_listing(&listing) && has_value_listing(alloc, &listing)?)
}

/// How many servers the location of the value names, or else how many tags it lists.
fn count_in_value(alloc: Global, value: &[u8]) -> Result<Result<usize, usize>, RowFault> {
    let location = location_of_value(alloc, value)?;
    Ok(count_servers_or_tags(&location))
}

#[test]
fn a_location_is_that_of_the_vectors(rt: HostRuntime) -> Result<(), Fail> {
    assert!(rt; is_listing_again(rt.alloc())?);
    assert!(rt; count_in_value(rt.alloc(), &ONE_SOURCE)? == Ok(1));
    assert!(rt; count_in_value(rt.alloc(), b"\x00\x00")? == Ok(0));
    assert!(rt; count_in_value(rt.alloc(), b"\x00\x00\x00\x00")? == Err(0));
    Ok(())
}

/// Values of keyServers rows of either form, and the faults for which they are refused.
const BAD_LOCATIONS: &[(&[u8], RowFault)] = &[
    (b"", RowFault::Truncated),
    (b"\x01server0000000001", RowFault::Truncated),
    (b"\x00", RowFault::Truncated),
    (b"\x01server0000000001\x00\x00", RowFault::Trailing),
    (b"\x02server0000000002server0000000001", RowFault::NotRising),
    (b"\x00\x00\x00", RowFault::Truncated),
    (b"\x00\x00\x01", RowFault::Truncated),
    (b"\x00\x00\x01\x00\x00\x01", RowFault::Truncated),
    (
        b"\x00\x00\x02\x00\x00\x02\x00\x00\x01\x00",
        RowFault::NotRising,
    ),
    (b"\x00\x00\x03\x00\x00\x02\x00\x00\x02", RowFault::NotRising),
    (
        b"\x00\x00\x00\x02\x01\x00\x00\x00\xff\xff",
        RowFault::NotRising,
    ),
    (b"\x00\x00\x00\x00\x00", RowFault::Trailing),
    // source tags that fall before missing or further bytes, destination tags before further ones
    (b"\x00\x00\x02\x00\x00\x02\x00\x00\x01", RowFault::NotRising),
    (
        b"\x00\x00\x02\x00\x00\x02\x00\x00\x01\x00\x07",
        RowFault::NotRising,
    ),
    (
        b"\x00\x00\x00\x02\x00\x00\x02\x00\x00\x01\x07",
        RowFault::NotRising,
    ),
];

#[test]
fn a_location_is_refused_by_its_first_fault(rt: HostRuntime) {
    for (value, fault) in BAD_LOCATIONS {
        assert!(rt; decode_location(rt.alloc(), *value).err() == Some(*fault));
    }
}

/// Tags and their values.
const TAGS: &[(Tag, &[u8])] = &[
    (Tag { locality: 0, id: 1 }, b"\x00\x00\x01"),
    (
        Tag {
            locality: 3,
            id: 258,
        },
        b"\x03\x01\x02",
    ),
];

#[test]
fn tags_are_those_of_the_vectors(rt: HostRuntime) -> Result<(), Fail> {
    for (tag, expected) in TAGS {
        let value = twice!(rt.alloc(); encode_tag(rt.alloc(), tag), OutOfMemory)?;
        assert!(rt; value.as_slice() == *expected && decode_tag(*expected) == Ok(*tag));
    }
    assert!(rt; decode_tag(b"\x00\x00") == Err(RowFault::Truncated));
    assert!(rt; decode_tag(b"\x00\x00\x01\x00") == Err(RowFault::Trailing));
    Ok(())
}

/// Bytes, and the text of each.
const TEXTS: &[(&[u8], &str)] = &[
    (b"", ""),
    (b"a~!", "a~!"),
    (b"\xff/keyServers/", "\\xff/keyServers/"),
    (b" \"\\\x00\x7f", "\\x20\\x22\\x5c\\x00\\x7f"),
];

/// One call for the text of the bytes.
fn text_by_call(alloc: Global, bytes: &[u8]) -> Result<String, OutOfMemory> {
    print_bytes(alloc, bytes)
}

/// Whether the bytes are printed as this text, which is made again after a failed allocation.
fn is_printed(alloc: Global, bytes: &[u8], text: &str) -> Result<bool, OutOfMemory> {
    let printed = twice!(alloc; text_by_call(alloc, bytes), OutOfMemory)?;
    Ok(printed.as_str() == text)
}

/// One call for the bytes of the text.
fn bytes_by_call(alloc: Global, text: &str) -> Result<Vec<u8>, RowFault> {
    read_bytes(alloc, text)
}

/// Whether the text is read as these bytes, which are made again after a failed allocation.
fn is_read(alloc: Global, text: &str, bytes: &[u8]) -> Result<bool, RowFault> {
    let read = twice!(alloc; bytes_by_call(alloc, text), RowFault::OutOfMemory)?;
    Ok(read.as_slice() == bytes)
}

#[test]
fn bytes_have_one_text(rt: HostRuntime) -> Result<(), Fail> {
    for (bytes, text) in TEXTS {
        assert!(rt; is_printed(rt.alloc(), *bytes, *text)?);
        assert!(rt; is_read(rt.alloc(), *text, *bytes)?);
    }
    assert!(rt; bytes_by_call(rt.alloc(), "\\xFF").err() == Some(RowFault::BadText));
    Ok(())
}

/// How many bytes the longest value has.
const LONGEST: usize = 100_000;

/// The text of that many bytes of 0, of which each takes four characters.
fn longest_text(alloc: Global) -> Result<String, AllocError> {
    let mut text = text_room(alloc, 4 * LONGEST)?;
    for _ in 0..LONGEST {
        text.push_str("\\x00")?;
    }
    Ok(text)
}

#[test]
fn the_longest_value_has_one_text(rt: HostRuntime) -> Result<(), Fail> {
    let value = repeat_byte(rt.alloc(), 0, LONGEST)?;
    let text = longest_text(rt.alloc())?;
    assert!(rt; is_printed(rt.alloc(), value.as_slice(), text.as_str())?);
    assert!(rt; is_read(rt.alloc(), text.as_str(), value.as_slice())?);
    Ok(())
}

// ---- bytes and keys, short and long

/// No bytes, one, as many as lie in the value itself, and one more.
const SHORT_AND_LONG: &[&[u8]] = &[
    b"",
    b"a",
    b"abcdefghijklmnopqrstuvwx",
    b"abcdefghijklmnopqrstuvwxy",
];

/// One call for the bytes, and one for their vector.
fn vector_by_calls(alloc: Global, bytes: &[u8]) -> Result<Vec<u8>, OutOfMemory> {
    Bytes::from_slice(alloc, bytes)?.into_vec()
}

/// One call for the bytes of a vector, and one for their vector.
fn vector_of_vector(alloc: Global, bytes: &[u8]) -> Result<Vec<u8>, OutOfMemory> {
    Bytes::from(Vec::from_slice(alloc, bytes)?).into_vec()
}

#[test]
fn bytes_are_given_back_as_a_vector(rt: HostRuntime) -> Result<(), Fail> {
    for bytes in SHORT_AND_LONG {
        let copied = twice!(rt.alloc(); vector_by_calls(rt.alloc(), *bytes), OutOfMemory)?;
        assert!(rt; copied.as_slice() == *bytes);
        let given = twice!(rt.alloc(); vector_of_vector(rt.alloc(), *bytes), OutOfMemory)?;
        assert!(rt; given.as_slice() == *bytes);
    }
    Ok(())
}

/// Keys in their order: with up to 15 bytes and with more, and some with the same first 15.
const IN_ORDER: &[&[u8]] = &[
    b"",
    b"\x00",
    b"a",
    b"a\x00",
    b"fifteen bytes..",
    b"fifteen bytes..\x00",
    b"fifteen bytes..\x01",
    b"sixteen bytes...",
    b"\xff",
];

/// One call for the key of a vector.
fn key_of_vector(alloc: Global, bytes: &[u8]) -> Result<OrderedKey, OutOfMemory> {
    Ok(OrderedKey::from(Vec::from_slice(alloc, bytes)?))
}

/// Whether the key is in its place: behind those before it, and before those behind it.
fn is_in_place(alloc: Global, key: &OrderedKey, place: usize) -> Result<bool, OutOfMemory> {
    for (other_place, bytes) in IN_ORDER.iter().enumerate() {
        let other = twice!(alloc; key_of_vector(alloc, *bytes), OutOfMemory)?;
        if key.cmp(&other) != place.cmp(&other_place) {
            return Ok(false);
        }
    }
    Ok(true)
}

#[test]
fn ordered_keys_are_in_the_order_of_their_bytes(rt: HostRuntime) -> Result<(), Fail> {
    for (place, bytes) in IN_ORDER.iter().enumerate() {
        let key = twice!(rt.alloc(); OrderedKey::new(rt.alloc(), *bytes), OutOfMemory)?;
        assert!(rt; key.as_slice() == *bytes);
        assert!(rt; is_in_place(rt.alloc(), &key, place)?);
        assert_copied(&rt, &key);
    }
    Ok(())
}

/// One call for a shared list of the numbers.
fn shared_numbers(alloc: Global, numbers: &[u64]) -> Result<SharedItems<u64>, OutOfMemory> {
    SharedItems::new(alloc, Items::from(Vec::from_slice(alloc, numbers)?))
}

/// Whether the list gives its numbers away.
fn gives_away(numbers: SharedItems<u64>, expected: &[u64]) -> bool {
    match numbers.try_into_items() {
        Ok(numbers) => numbers.as_slice() == expected,
        Err(_numbers) => false,
    }
}

/// Whether the list keeps its numbers, since a copy has them too.
fn keeps(numbers: SharedItems<u64>, expected: &[u64]) -> bool {
    match numbers.try_into_items() {
        Ok(_numbers) => false,
        Err(numbers) => numbers.as_slice() == expected,
    }
}

#[test]
fn a_shared_list_is_given_away_by_its_last_copy(rt: HostRuntime) -> Result<(), Fail> {
    let numbers = twice!(rt.alloc(); shared_numbers(rt.alloc(), &[3, 1, 2]), OutOfMemory)?;
    let copy = twice!(rt.alloc(); numbers.copy(), OutOfMemory)?;
    assert!(rt; copy.as_slice() == [3, 1, 2].as_slice());
    assert!(rt; keeps(copy, &[3, 1, 2]));
    assert!(rt; numbers.as_slice() == [3, 1, 2].as_slice());
    assert!(rt; gives_away(numbers, &[3, 1, 2]));
    Ok(())
}
