//! Scripts of the mode `turns` that are others with a change.
//! Written by tests/scripts/worked.py from the files of tests/worked, which are to be changed in its place.

use super::{Expected, Worked};

pub(super) const CHANGED: &[Worked] = &[
    Worked {
        name: "a_letter_after_the_script",
        script: &[(
            br#"{"proxies":1,"resolvers":2,"window":100,"step":10,"ask":["n"],"events":[
{"sequence":{"proxy":0,"batch":[]}},
{"sequence":{"proxy":0,"batch":[{"snapshot":0,"reads":[],
"writes":[["n","n\\x00"]],"mutations":[{"set":["n","1"]}],"lock_aware":false}]}},
{"move":{"range":["m","t"],"resolver":1}},
{"sequence":{"proxy":0,"batch":[{"snapshot":10,"reads":[["n","n\\x00"]],
"writes":[],"mutations":[],"lock_aware":false}]}},
{"offer":{"row":0,"resolver":0}},{"offer":{"row":0,"resolver":1}},
{"offer":{"row":1,"resolver":0}},{"offer":{"row":1,"resolver":1}},
{"offer":{"row":2,"resolver":0}},{"offer":{"row":2,"resolver":1}},
{"finish":{"proxy":0}},{"finish":{"proxy":0}},{"finish":{"proxy":0}}]}x"#,
            1,
        )],
        expected: Expected::Whole(
            br#"refused 70 NotJson
"#,
        ),
        status: 1,
    },
    Worked {
        name: "a_byte_that_is_no_text_before_the_script",
        script: &[(
            b"\xff{\"proxies\":1,\"resolvers\":2,\"window\":100,\"step\":10,\"ask\":[\"n\"],\"events\":[\n{\"sequence\":{\"proxy\":0,\"batch\":[]}},\n{\"sequence\":{\"proxy\":0,\"batch\":[{\"snapshot\":0,\"reads\":[],\n\"writes\":[[\"n\",\"n\\\\x00\"]],\"mutations\":[{\"set\":[\"n\",\"1\"]}],\"lock_aware\":false}]}},\n{\"move\":{\"range\":[\"m\",\"t\"],\"resolver\":1}},\n{\"sequence\":{\"proxy\":0,\"batch\":[{\"snapshot\":10,\"reads\":[[\"n\",\"n\\\\x00\"]],\n\"writes\":[],\"mutations\":[],\"lock_aware\":false}]}},\n{\"offer\":{\"row\":0,\"resolver\":0}},{\"offer\":{\"row\":0,\"resolver\":1}},\n{\"offer\":{\"row\":1,\"resolver\":0}},{\"offer\":{\"row\":1,\"resolver\":1}},\n{\"offer\":{\"row\":2,\"resolver\":0}},{\"offer\":{\"row\":2,\"resolver\":1}},\n{\"finish\":{\"proxy\":0}},{\"finish\":{\"proxy\":0}},{\"finish\":{\"proxy\":0}}]}",
            1,
        )],
        expected: Expected::Whole(
            br#"refused 70 NotJson
"#,
        ),
        status: 1,
    },
    Worked {
        name: "a_snapshot_below_zero",
        script: &[(
            br#"{"proxies":1,"resolvers":2,"window":100,"step":10,"ask":["n"],"events":[
{"sequence":{"proxy":0,"batch":[]}},
{"sequence":{"proxy":0,"batch":[{"snapshot":0,"reads":[],
"writes":[["n","n\\x00"]],"mutations":[{"set":["n","1"]}],"lock_aware":false}]}},
{"move":{"range":["m","t"],"resolver":1}},
{"sequence":{"proxy":0,"batch":[{"snapshot":-1,"reads":[["n","n\\x00"]],
"writes":[],"mutations":[],"lock_aware":false}]}},
{"offer":{"row":0,"resolver":0}},{"offer":{"row":0,"resolver":1}},
{"offer":{"row":1,"resolver":0}},{"offer":{"row":1,"resolver":1}},
{"offer":{"row":2,"resolver":0}},{"offer":{"row":2,"resolver":1}},
{"finish":{"proxy":0}},{"finish":{"proxy":0}},{"finish":{"proxy":0}}]}"#,
            1,
        )],
        expected: Expected::Whole(
            br#"refused 71 BadShape
"#,
        ),
        status: 1,
    },
    Worked {
        name: "a_snapshot_past_the_greatest_version",
        script: &[(
            br#"{"proxies":1,"resolvers":2,"window":100,"step":10,"ask":["n"],"events":[
{"sequence":{"proxy":0,"batch":[]}},
{"sequence":{"proxy":0,"batch":[{"snapshot":0,"reads":[],
"writes":[["n","n\\x00"]],"mutations":[{"set":["n","1"]}],"lock_aware":false}]}},
{"move":{"range":["m","t"],"resolver":1}},
{"sequence":{"proxy":0,"batch":[{"snapshot":9223372036854775808,"reads":[["n","n\\x00"]],
"writes":[],"mutations":[],"lock_aware":false}]}},
{"offer":{"row":0,"resolver":0}},{"offer":{"row":0,"resolver":1}},
{"offer":{"row":1,"resolver":0}},{"offer":{"row":1,"resolver":1}},
{"offer":{"row":2,"resolver":0}},{"offer":{"row":2,"resolver":1}},
{"finish":{"proxy":0}},{"finish":{"proxy":0}},{"finish":{"proxy":0}}]}"#,
            1,
        )],
        expected: Expected::Whole(
            br#"refused 71 BadShape
"#,
        ),
        status: 1,
    },
    Worked {
        name: "a_snapshot_that_is_a_text",
        script: &[(
            br#"{"proxies":1,"resolvers":2,"window":100,"step":10,"ask":["n"],"events":[
{"sequence":{"proxy":0,"batch":[]}},
{"sequence":{"proxy":0,"batch":[{"snapshot":0,"reads":[],
"writes":[["n","n\\x00"]],"mutations":[{"set":["n","1"]}],"lock_aware":false}]}},
{"move":{"range":["m","t"],"resolver":1}},
{"sequence":{"proxy":0,"batch":[{"snapshot":"0","reads":[["n","n\\x00"]],
"writes":[],"mutations":[],"lock_aware":false}]}},
{"offer":{"row":0,"resolver":0}},{"offer":{"row":0,"resolver":1}},
{"offer":{"row":1,"resolver":0}},{"offer":{"row":1,"resolver":1}},
{"offer":{"row":2,"resolver":0}},{"offer":{"row":2,"resolver":1}},
{"finish":{"proxy":0}},{"finish":{"proxy":0}},{"finish":{"proxy":0}}]}"#,
            1,
        )],
        expected: Expected::Whole(
            br#"refused 71 BadShape
"#,
        ),
        status: 1,
    },
    Worked {
        name: "one_field_more",
        script: &[(
            br#"{"x":1,"proxies":1,"resolvers":2,"window":100,"step":10,"ask":["n"],"events":[
{"sequence":{"proxy":0,"batch":[]}},
{"sequence":{"proxy":0,"batch":[{"snapshot":0,"reads":[],
"writes":[["n","n\\x00"]],"mutations":[{"set":["n","1"]}],"lock_aware":false}]}},
{"move":{"range":["m","t"],"resolver":1}},
{"sequence":{"proxy":0,"batch":[{"snapshot":10,"reads":[["n","n\\x00"]],
"writes":[],"mutations":[],"lock_aware":false}]}},
{"offer":{"row":0,"resolver":0}},{"offer":{"row":0,"resolver":1}},
{"offer":{"row":1,"resolver":0}},{"offer":{"row":1,"resolver":1}},
{"offer":{"row":2,"resolver":0}},{"offer":{"row":2,"resolver":1}},
{"finish":{"proxy":0}},{"finish":{"proxy":0}},{"finish":{"proxy":0}}]}"#,
            1,
        )],
        expected: Expected::Whole(
            br#"refused 71 BadShape
"#,
        ),
        status: 1,
    },
    Worked {
        name: "no_proxies",
        script: &[(
            br#"{"proxies":0,"resolvers":2,"window":100,"step":10,"ask":["n"],"events":[
{"sequence":{"proxy":0,"batch":[]}},
{"sequence":{"proxy":0,"batch":[{"snapshot":0,"reads":[],
"writes":[["n","n\\x00"]],"mutations":[{"set":["n","1"]}],"lock_aware":false}]}},
{"move":{"range":["m","t"],"resolver":1}},
{"sequence":{"proxy":0,"batch":[{"snapshot":10,"reads":[["n","n\\x00"]],
"writes":[],"mutations":[],"lock_aware":false}]}},
{"offer":{"row":0,"resolver":0}},{"offer":{"row":0,"resolver":1}},
{"offer":{"row":1,"resolver":0}},{"offer":{"row":1,"resolver":1}},
{"offer":{"row":2,"resolver":0}},{"offer":{"row":2,"resolver":1}},
{"finish":{"proxy":0}},{"finish":{"proxy":0}},{"finish":{"proxy":0}}]}"#,
            1,
        )],
        expected: Expected::Whole(
            br#"refused 71 BadShape
"#,
        ),
        status: 1,
    },
    Worked {
        name: "too_many_proxies",
        script: &[(
            br#"{"proxies":65,"resolvers":2,"window":100,"step":10,"ask":["n"],"events":[
{"sequence":{"proxy":0,"batch":[]}},
{"sequence":{"proxy":0,"batch":[{"snapshot":0,"reads":[],
"writes":[["n","n\\x00"]],"mutations":[{"set":["n","1"]}],"lock_aware":false}]}},
{"move":{"range":["m","t"],"resolver":1}},
{"sequence":{"proxy":0,"batch":[{"snapshot":10,"reads":[["n","n\\x00"]],
"writes":[],"mutations":[],"lock_aware":false}]}},
{"offer":{"row":0,"resolver":0}},{"offer":{"row":0,"resolver":1}},
{"offer":{"row":1,"resolver":0}},{"offer":{"row":1,"resolver":1}},
{"offer":{"row":2,"resolver":0}},{"offer":{"row":2,"resolver":1}},
{"finish":{"proxy":0}},{"finish":{"proxy":0}},{"finish":{"proxy":0}}]}"#,
            1,
        )],
        expected: Expected::Whole(
            br#"refused 71 BadShape
"#,
        ),
        status: 1,
    },
    Worked {
        name: "a_key_with_an_upper_case_digit",
        script: &[(
            br#"{"proxies":1,"resolvers":2,"window":100,"step":10,"ask":["n"],"events":[
{"sequence":{"proxy":0,"batch":[]}},
{"sequence":{"proxy":0,"batch":[{"snapshot":0,"reads":[],
"writes":[["n","n\\x00"]],"mutations":[{"set":["\\xFF","1"]}],"lock_aware":false}]}},
{"move":{"range":["m","t"],"resolver":1}},
{"sequence":{"proxy":0,"batch":[{"snapshot":10,"reads":[["n","n\\x00"]],
"writes":[],"mutations":[],"lock_aware":false}]}},
{"offer":{"row":0,"resolver":0}},{"offer":{"row":0,"resolver":1}},
{"offer":{"row":1,"resolver":0}},{"offer":{"row":1,"resolver":1}},
{"offer":{"row":2,"resolver":0}},{"offer":{"row":2,"resolver":1}},
{"finish":{"proxy":0}},{"finish":{"proxy":0}},{"finish":{"proxy":0}}]}"#,
            1,
        )],
        expected: Expected::Whole(
            br#"refused 71 BadShape
"#,
        ),
        status: 1,
    },
    Worked {
        name: "a_key_with_an_escaped_letter",
        script: &[(
            br#"{"proxies":1,"resolvers":2,"window":100,"step":10,"ask":["n"],"events":[
{"sequence":{"proxy":0,"batch":[]}},
{"sequence":{"proxy":0,"batch":[{"snapshot":0,"reads":[],
"writes":[["n","n\\x00"]],"mutations":[{"set":["\\x6d","1"]}],"lock_aware":false}]}},
{"move":{"range":["m","t"],"resolver":1}},
{"sequence":{"proxy":0,"batch":[{"snapshot":10,"reads":[["n","n\\x00"]],
"writes":[],"mutations":[],"lock_aware":false}]}},
{"offer":{"row":0,"resolver":0}},{"offer":{"row":0,"resolver":1}},
{"offer":{"row":1,"resolver":0}},{"offer":{"row":1,"resolver":1}},
{"offer":{"row":2,"resolver":0}},{"offer":{"row":2,"resolver":1}},
{"finish":{"proxy":0}},{"finish":{"proxy":0}},{"finish":{"proxy":0}}]}"#,
            1,
        )],
        expected: Expected::Whole(
            br#"refused 71 BadShape
"#,
        ),
        status: 1,
    },
    Worked {
        name: "a_long_key_before_a_snapshot_below_zero",
        script: &[
            (
                br#"{"proxies":1,"resolvers":2,"window":100,"step":10,"ask":["n"],"events":[
{"sequence":{"proxy":0,"batch":[{"snapshot":0,"reads":[],"writes":[],"mutations":[{"set":[""#,
                1,
            ),
            (br#"k"#, 10001),
            (
                br#"","1"]}],"lock_aware":false}]}},
{"sequence":{"proxy":0,"batch":[{"snapshot":0,"reads":[],
"writes":[["n","n\\x00"]],"mutations":[{"set":["n","1"]}],"lock_aware":false}]}},
{"move":{"range":["m","t"],"resolver":1}},
{"sequence":{"proxy":0,"batch":[{"snapshot":-1,"reads":[["n","n\\x00"]],
"writes":[],"mutations":[],"lock_aware":false}]}},
{"offer":{"row":0,"resolver":0}},{"offer":{"row":0,"resolver":1}},
{"offer":{"row":1,"resolver":0}},{"offer":{"row":1,"resolver":1}},
{"offer":{"row":2,"resolver":0}},{"offer":{"row":2,"resolver":1}},
{"finish":{"proxy":0}},{"finish":{"proxy":0}},{"finish":{"proxy":0}}]}"#,
                1,
            ),
        ],
        expected: Expected::Whole(
            br#"refused 71 BadShape
"#,
        ),
        status: 1,
    },
    Worked {
        name: "a_key_outside_before_a_long_value",
        script: &[
            (
                br#"{"proxies":1,"resolvers":2,"window":100,"step":10,"ask":["n"],"events":[
{"sequence":{"proxy":0,"batch":[{"snapshot":0,"reads":[],"writes":[],"mutations":[{"set":["\\xff\\xff","1"]}],"lock_aware":false}]}},
{"sequence":{"proxy":0,"batch":[{"snapshot":0,"reads":[],
"writes":[["n","n\\x00"]],"mutations":[{"set":["n",""#,
                1,
            ),
            (br#"v"#, 100001),
            (
                br#""]}],"lock_aware":false}]}},
{"move":{"range":["m","t"],"resolver":1}},
{"sequence":{"proxy":0,"batch":[{"snapshot":10,"reads":[["n","n\\x00"]],
"writes":[],"mutations":[],"lock_aware":false}]}},
{"offer":{"row":0,"resolver":0}},{"offer":{"row":0,"resolver":1}},
{"offer":{"row":1,"resolver":0}},{"offer":{"row":1,"resolver":1}},
{"offer":{"row":2,"resolver":0}},{"offer":{"row":2,"resolver":1}},
{"finish":{"proxy":0}},{"finish":{"proxy":0}},{"finish":{"proxy":0}}]}"#,
                1,
            ),
        ],
        expected: Expected::Whole(
            br#"refused 12 KeyOutside
"#,
        ),
        status: 1,
    },
];
