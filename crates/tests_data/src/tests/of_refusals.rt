//! Tests of refusals: the words in which they are shown, and the numbers and names that no script
//! prints.

use model::Refusal::BadConfig;
use mutation::Refusal;
use std::test::Fail;
use system_keys::{OutOfMemory, RowFault, TagTeamsFault, TeamsFault};
use testing::are_shown_as;

/// Each refusal of a transaction in words; those of a key, a range or a change are shown alone.
const OF_TRANSACTIONS: &[(Refusal, &str)] = &[
    (
        Refusal::Key(system_keys::Refusal::KeyTooLong),
        "a key is too long",
    ),
    (
        Refusal::Key(system_keys::Refusal::ValueTooLong),
        "a value is too long",
    ),
    (
        Refusal::Key(system_keys::Refusal::KeyOutside),
        "a key lies outside the key space",
    ),
    (
        Refusal::Key(system_keys::Refusal::EmptyRange),
        "a range is empty",
    ),
    (
        Refusal::Key(system_keys::Refusal::BadRow),
        "the value of a system row does not decode",
    ),
    (Refusal::BadStamp, "a value has no place for its stamp"),
    (Refusal::BatchTooLarge, "a batch is too large"),
    (Refusal::OutOfMemory, "out of memory"),
];

/// Each fault of a row's value, or of a text, in words.
const OF_VALUES: &[(RowFault, &str)] = &[
    (RowFault::Truncated, "bytes are missing"),
    (RowFault::NotRising, "server ids or tags do not rise"),
    (RowFault::Trailing, "bytes stand after the end"),
    (RowFault::BadText, "the text is no spelling of bytes"),
    (RowFault::OutOfMemory, "out of memory"),
];

/// Each fault of teams in words.
const OF_TEAMS: &[(TeamsFault, &str)] = &[
    (
        TeamsFault::TooManyServers,
        "a list has more than 255 servers",
    ),
    (TeamsFault::NotRising, "server ids do not rise"),
];

/// Each fault of lists of tags in words.
const OF_TAGS: &[(TagTeamsFault, &str)] = &[
    (TagTeamsFault::TooManyTags, "a list has more than 255 tags"),
    (TagTeamsFault::NotRising, "tags do not rise"),
];

/// The refusal of a configuration in words.
const OF_NUMBERS: &[(model::Refusal, &str)] = &[(
    BadConfig,
    "a number of the configuration is outside its limits",
)];

#[test]
fn refusals_are_shown_in_words(rt: HostRuntime) -> Result<(), Fail> {
    let alloc = rt.alloc();
    assert!(&rt; are_shown_as(alloc, OF_TRANSACTIONS)?);
    assert!(&rt; are_shown_as(alloc, OF_VALUES)?);
    assert!(&rt; are_shown_as(alloc, OF_TEAMS)?);
    assert!(&rt; are_shown_as(alloc, OF_TAGS)?);
    assert!(&rt; are_shown_as(alloc, OF_NUMBERS)?);
    assert!(&rt; are_shown_as(alloc, &[(OutOfMemory, "out of memory")])?);
    Ok(())
}

/// Each fault of a value with its number and its name.
const FAULTS: &[(RowFault, Option<u32>, &str)] = &[
    (RowFault::Truncated, Some(1), "Truncated"),
    (RowFault::NotRising, Some(2), "NotRising"),
    (RowFault::Trailing, Some(3), "Trailing"),
    (RowFault::BadText, Some(4), "BadText"),
    (RowFault::OutOfMemory, None, "OutOfMemory"),
];

#[test]
fn what_no_script_prints_has_its_number_and_name(rt: HostRuntime) {
    for (fault, number, name) in FAULTS {
        assert!(rt;
            fault.number() == *number && fault.name() == *name,
            "{name}"
        );
    }
    assert!(rt; BadConfig.number() == Some(17) && BadConfig.name() == "BadConfig");
    assert!(rt;
        Refusal::OutOfMemory.number().is_none() && Refusal::OutOfMemory.name() == "OutOfMemory"
    );
}
