//! What resolvers remember and which journals proxies have, where the events of turns scripts are carried
//! out one by one: no line of a run shows them.

use super::turns::TURNS;
use super::{named, script_of};
use model::{JournalRow, Verdict};
use std::alloc::{AllocError, Global};
use std::process::Abort;
use std::test::Fail;
use turn_world::{Event, TurnWorld};
use turns_run::read_turns;

/// A script, how many versions resolver 0 and resolver 1 remember after events of these numbers, and the
/// journals of both proxies in the end: each version, with the verdicts of both resolvers on each of its
/// state transactions.
struct Story {
    name: &'static str,
    remembered: &'static [(usize, [usize; 2])],
    journals: [&'static str; 2],
}

const STORIES: &[Story] = &[
    Story {
        name: "write_of_a_refused_transaction",
        remembered: &[(5, [1, 1]), (9, [3, 3])],
        journals: ["10 20 30", ""],
    },
    Story {
        name: "lock_meets_a_plain_write",
        remembered: &[(3, [1, 1]), (5, [1, 1])],
        journals: ["10:cc", "10:cc 20"],
    },
    Story {
        name: "two_proxies_learn_the_lock",
        remembered: &[(4, [1, 1]), (6, [1, 1]), (8, [1, 1])],
        journals: ["10:cc 20:cc 30", "10:cc 20:cc"],
    },
    Story {
        name: "snapshot_before_the_lock",
        remembered: &[(4, [1, 1]), (6, [1, 1]), (8, [1, 1])],
        journals: ["10:cc 20:fc 30", "10:cc 20:fc"],
    },
    Story {
        name: "five_batches_told_at_once",
        remembered: &[(14, [5, 5]), (22, [1, 1])],
        journals: [
            "10:cc 20:cc 30:cc 40:cc 50:cc",
            "10:cc 20:cc 30:cc 40:cc 50:cc 60",
        ],
    },
    Story {
        name: "offers_again_early_and_given_up",
        remembered: &[(3, [1, 0]), (12, [1, 1])],
        journals: ["10", ""],
    },
    Story {
        name: "tags_of_a_clear_over_four_servers",
        remembered: &[(4, [1, 1]), (8, [3, 3])],
        journals: ["10:cc 20 30:cc", ""],
    },
    Story {
        name: "two_records_begun_before_one_is_finished",
        remembered: &[(4, [1, 1]), (6, [1, 1]), (8, [1, 1]), (10, [1, 1])],
        journals: ["10:cc 20:cc 30:cc", ""],
    },
];

fn verdict_letter(verdict: Verdict) -> char {
    match verdict {
        Verdict::Conflict => 'f',
        Verdict::TooOld => 'o',
        Verdict::Committed => 'c',
    }
}

/// The row as the stories have it.
fn push_row(text: &mut String, alloc: Global, row: &JournalRow) -> Result<(), AllocError> {
    let version = row.version;
    let shown = format!(in alloc; "{version}")?;
    text.push_str(shown.as_str())?;
    for state in row.states.as_slice() {
        text.push(':')?;
        for verdict in state.verdicts.as_slice() {
            text.push(verdict_letter(*verdict))?;
        }
    }
    Ok(())
}

/// The journal of a proxy as the stories have it.
fn journal_text(alloc: Global, world: &TurnWorld, proxy: usize) -> Result<String, AllocError> {
    let mut text = String::new(alloc);
    if let Some(proxy) = world.proxy(proxy) {
        for row in proxy.journal() {
            if !text.is_empty() {
                text.push(' ')?;
            }
            push_row(&mut text, alloc, row)?;
        }
    }
    Ok(text)
}

/// How many versions the resolver of this number remembers.
fn count_remembered(world: &TurnWorld, number: usize) -> usize {
    match world.resolver(number) {
        Some(resolver) => resolver.remembered(),
        None => 0,
    }
}

/// What the story wants remembered after the event of this number.
fn wanted(story: &Story, number: usize) -> Option<[usize; 2]> {
    for (after, counts) in story.remembered {
        if *after == number {
            return Some(*counts);
        }
    }
    None
}

/// Carries out the events, and looks at the resolvers after those that the story names.
fn carry_out<R: Abort + AllocGlobal>(
    rt: &R,
    world: &mut TurnWorld,
    events: &[Event],
    story: &Story,
) {
    let name = story.name;
    for (number, event) in events.iter().enumerate() {
        let answer = world.step(event);
        assert!(rt;
            !matches!(answer, Err(turn_world::Refusal::OutOfMemory)),
            "{name}"
        );
        if let Some(counts) = wanted(story, number) {
            let found = [count_remembered(world, 0), count_remembered(world, 1)];
            assert!(rt; found == counts, "{name}: after event {number}");
        }
    }
}

#[test]
fn resolvers_remember_and_proxies_have_journals_as_they_should(
    rt: HostRuntime,
) -> Result<(), Fail> {
    for story in STORIES {
        let worked = named(TURNS, story.name).ok_or("no such script")?;
        let bytes = script_of(rt.alloc(), worked.script)?;
        let script = read_turns(rt.alloc(), bytes.as_slice())?;
        let mut world = TurnWorld::new(rt.alloc(), &script.config)?;
        carry_out(&rt, &mut world, script.events.as_slice(), story);
        for (proxy, journal) in story.journals.iter().enumerate() {
            let text = journal_text(rt.alloc(), &world, proxy)?;
            assert!(&rt;
                text.as_str() == *journal,
                "{}: {proxy}: {text}",
                story.name
            );
        }
    }
    Ok(())
}
