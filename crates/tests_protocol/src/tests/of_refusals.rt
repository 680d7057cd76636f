//! Tests of refusals: the words in which they are shown.

use std::test::Fail;
use testing::are_shown_as;

const OF_OWNERS: &[(dated_owners::Refusal, &str)] = &[
    (
        dated_owners::Refusal::NoSuchResolver,
        "there is no such resolver",
    ),
    (
        dated_owners::Refusal::DateGoesBack,
        "the date of a move goes back",
    ),
    (dated_owners::Refusal::OutOfMemory, "out of memory"),
];

const OF_RESOLVERS: &[(state_memory::Refusal, &str)] = &[
    (
        state_memory::Refusal::WrongResolver,
        "the request is to another resolver",
    ),
    (state_memory::Refusal::NoSuchProxy, "there is no such proxy"),
    (
        state_memory::Refusal::OutsideChain { version: 7 },
        "the request is outside the chain of versions, which has reached 7",
    ),
    (
        state_memory::Refusal::GivenUp { acknowledged: 7 },
        "the reply is given up, since the proxy acknowledged 7",
    ),
    (
        state_memory::Refusal::Early { version: 7 },
        "the request is early, since the resolver has reached 7",
    ),
    (state_memory::Refusal::OutOfMemory, "out of memory"),
];

const OF_PROXIES: &[(proxy_state::Refusal, &str)] = &[
    (
        proxy_state::Refusal::WrongResolver,
        "the reply is of a resolver that the cluster does not have",
    ),
    (
        proxy_state::Refusal::NotMine,
        "the record is of another proxy",
    ),
    (
        proxy_state::Refusal::OutOfOrder { expected: 7 },
        "the record does not follow version 7, which was last begun",
    ),
    (
        proxy_state::Refusal::OutOfTurn { expected: None },
        "no record is begun, or another one is expected",
    ),
    (
        proxy_state::Refusal::MissingReply { resolver: 1 },
        "resolver 1 has not replied",
    ),
    (
        proxy_state::Refusal::RepliesDisagree { version: 7 },
        "the replies disagree at version 7",
    ),
    (
        proxy_state::Refusal::NotReached { version: 7 },
        "the proxy is at version 7",
    ),
    (
        proxy_state::Refusal::DoubleReply { resolver: 1 },
        "resolver 1 has replied already",
    ),
    (proxy_state::Refusal::OutOfMemory, "out of memory"),
];

const OF_THE_WORLD: &[(turn_world::Refusal, &str)] = &[
    (
        turn_world::Refusal::NoSuchResolver,
        "the cluster has no such resolver to move to",
    ),
    (
        turn_world::Refusal::Early { version: 7 },
        "the request is early, since the resolver has reached 7",
    ),
    (
        turn_world::Refusal::GivenUp { acknowledged: 7 },
        "the reply is given up, since the proxy acknowledged 7",
    ),
    (turn_world::Refusal::NoSuchProxy, "there is no such proxy"),
    (
        turn_world::Refusal::WrongResolver,
        "there is no such resolver",
    ),
    (turn_world::Refusal::NoSuchRow, "there is no such row"),
    (
        turn_world::Refusal::OutOfTurn { expected: None },
        "the record is not the one that is next",
    ),
    (
        turn_world::Refusal::MissingReply { resolver: 1 },
        "resolver 1 has not replied",
    ),
    (turn_world::Refusal::VersionsEnd, "no version is left"),
    (turn_world::Refusal::OutOfMemory, "out of memory"),
];

#[test]
fn refusals_are_shown_in_words(rt: HostRuntime) -> Result<(), Fail> {
    let alloc = rt.alloc();
    assert!(&rt; are_shown_as(alloc, OF_OWNERS)?);
    assert!(&rt; are_shown_as(alloc, OF_RESOLVERS)?);
    assert!(&rt; are_shown_as(alloc, OF_PROXIES)?);
    assert!(&rt; are_shown_as(alloc, OF_THE_WORLD)?);
    Ok(())
}
