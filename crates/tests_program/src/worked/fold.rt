//! Scripts of the mode `fold`.
//! Written by tests/scripts/worked.py from the files of tests/worked, which are to be changed in its place.

use super::{Expected, Worked};

pub(super) const FOLD: &[Worked] = &[
    Worked {
        name: "beginning_of_an_object",
        script: &[(br#"{"proxies":2"#, 1)],
        expected: Expected::Whole(
            br#"refused 70 NotJson
"#,
        ),
        status: 1,
    },
    Worked {
        name: "key_at_the_end_of_all_keys",
        script: &[(
            br#"{"resolvers":2,"ask":["a"],"rows":[
{"version":10,"states":[{"lock_aware":false,"verdicts":["committed","committed"],"mutations":[{"set":["\\xff\\xff","v"]}]}]}]}"#,
            1,
        )],
        expected: Expected::Whole(
            br#"refused 12 KeyOutside
"#,
        ),
        status: 1,
    },
    Worked {
        name: "lock_of_the_row_before",
        script: &[(
            br#"{"resolvers":1,"ask":["a"],"rows":[
{"version":10,"states":[{"lock_aware":true,"verdicts":["committed"],"mutations":[{"set":["\\xff/dbLocked","L"]}]},{"lock_aware":false,"verdicts":["committed"],"mutations":[{"set":["\\xff/serverTag/server0000000001","\\x00\\x00\\x01"]},{"set":["\\xff/keyServers/","\\x01server0000000001\\x00"]}]}]},
{"version":20,"states":[{"lock_aware":false,"verdicts":["committed"],"mutations":[{"set":["\\xff/metadataVersion","v"]}]}]}]}"#,
            1,
        )],
        expected: Expected::Whole(
            br#"version 20
locked yes
metadata_version none
route "" 0:1
tags "a" 0:1
"#,
        ),
        status: 0,
    },
    Worked {
        name: "no_rows",
        script: &[(br#"{"resolvers":2,"ask":["a"],"rows":[]}"#, 1)],
        expected: Expected::Whole(
            br#"version 0
locked no
metadata_version none
tags "a" none
"#,
        ),
        status: 0,
    },
    Worked {
        name: "object_without_fields",
        script: &[(br#"{}"#, 1)],
        expected: Expected::Whole(
            br#"refused 71 BadShape
"#,
        ),
        status: 1,
    },
    Worked {
        name: "one_resolver_refuses",
        script: &[(
            br#"{"resolvers":2,"ask":["a"],"rows":[
{"version":10,"states":[{"lock_aware":false,"verdicts":["committed","conflict"],"mutations":[{"set":["\\xff/keyServers/","\\x01server0000000001\\x00"]}]}]}]}"#,
            1,
        )],
        expected: Expected::Whole(
            br#"version 10
locked no
metadata_version none
tags "a" none
"#,
        ),
        status: 0,
    },
    Worked {
        name: "row_that_lists_tags",
        script: &[(
            br#"{"resolvers":1,"ask":["a","m"],"rows":[
{"version":10,"states":[{"lock_aware":false,"verdicts":["committed"],"mutations":[{"set":["\\xff/keyServers/","\\x00\\x00\\x02\\x00\\x00\\x01\\x00\\x00\\x02\\x01\\x03\\x01\\x02"]},{"set":["\\xff/keyServers/m","\\x01server0000000001\\x00"]}]}]}]}"#,
            1,
        )],
        expected: Expected::Whole(
            br#"version 10
locked no
metadata_version none
route "" 0:1 0:2 3:258
route "m" none
tags "a" 0:1 0:2 3:258
tags "m" none
"#,
        ),
        status: 0,
    },
    Worked {
        name: "row_without_its_last_count",
        script: &[(
            br#"{"resolvers":2,"ask":["a"],"rows":[
{"version":10,"states":[{"lock_aware":false,"verdicts":["committed","committed"],"mutations":[{"set":["\\xff/keyServers/","\\x01server0000000001"]}]}]}]}"#,
            1,
        )],
        expected: Expected::Whole(
            br#"refused 14 BadRow
"#,
        ),
        status: 1,
    },
    Worked {
        name: "servers_out_of_order",
        script: &[(
            br#"{"resolvers":2,"ask":["a"],"rows":[
{"version":10,"states":[{"lock_aware":false,"verdicts":["committed","committed"],"mutations":[{"set":["\\xff/keyServers/","\\x02server0000000002server0000000001\\x00"]}]}]}]}"#,
            1,
        )],
        expected: Expected::Whole(
            br#"refused 14 BadRow
"#,
        ),
        status: 1,
    },
    Worked {
        name: "tags_cleared_after_the_rows",
        script: &[(
            br#"{"resolvers":1,"ask":["a","m"],"rows":[
{"version":10,"states":[{"lock_aware":false,"verdicts":["committed"],"mutations":[{"set":["\\xff/keyServers/","\\x01server0000000001\\x00"]}]}]},
{"version":20,"states":[{"lock_aware":false,"verdicts":["committed"],"mutations":[{"set":["\\xff/serverTag/server0000000001","\\x00\\x00\\x01"]}]}]},
{"version":30,"states":[{"lock_aware":false,"verdicts":["committed"],"mutations":[{"set":["\\xff/keyServers/m","\\x01server0000000001\\x01server0000000002"]}]}]},
{"version":40,"states":[{"lock_aware":false,"verdicts":["committed"],"mutations":[{"set":["\\xff/serverTag/server0000000002","\\x00\\x00\\x00"]}]}]},
{"version":50,"states":[{"lock_aware":false,"verdicts":["committed"],"mutations":[{"clear":["\\xff/serverTag/","\\xff/serverTag0"]}]}]}]}"#,
            1,
        )],
        expected: Expected::Whole(
            br#"version 50
locked no
metadata_version none
route "" none
route "m" none
tags "a" none
tags "m" none
"#,
        ),
        status: 0,
    },
    Worked {
        name: "tags_set_after_the_rows",
        script: &[(
            br#"{"resolvers":1,"ask":["a","m"],"rows":[
{"version":10,"states":[{"lock_aware":false,"verdicts":["committed"],"mutations":[{"set":["\\xff/keyServers/","\\x01server0000000001\\x00"]}]}]},
{"version":20,"states":[{"lock_aware":false,"verdicts":["committed"],"mutations":[{"set":["\\xff/serverTag/server0000000001","\\x00\\x00\\x01"]}]}]},
{"version":30,"states":[{"lock_aware":false,"verdicts":["committed"],"mutations":[{"set":["\\xff/keyServers/m","\\x01server0000000001\\x01server0000000002"]}]}]},
{"version":40,"states":[{"lock_aware":false,"verdicts":["committed"],"mutations":[{"set":["\\xff/serverTag/server0000000002","\\x00\\x00\\x00"]}]}]}]}"#,
            1,
        )],
        expected: Expected::Whole(
            br#"version 40
locked no
metadata_version none
route "" 0:1
route "m" 0:0 0:1
tags "a" 0:1
tags "m" 0:0 0:1
"#,
        ),
        status: 0,
    },
    Worked {
        name: "two_servers",
        script: &[(
            br#"{"resolvers":2,"rows":[{"version":10,"states":[{"lock_aware":true,
"verdicts":["committed","committed"],"mutations":[
{"set":["\\xff/serverTag/server0000000001","\\x00\\x00\\x01"]},
{"set":["\\xff/serverTag/server0000000002","\\x00\\x00\\x02"]},
{"set":["\\xff/keyServers/","\\x01server0000000001\\x00"]},
{"set":["\\xff/keyServers/m","\\x01server0000000002\\x00"]}]}]}],
"ask":["a","m","z"]}"#,
            1,
        )],
        expected: Expected::Whole(
            br#"version 10
locked no
metadata_version none
route "" 0:1
route "m" 0:2
tags "a" 0:1
tags "m" 0:2
tags "z" 0:2
"#,
        ),
        status: 0,
    },
];
