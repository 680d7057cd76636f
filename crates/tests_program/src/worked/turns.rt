//! Scripts of the mode `turns`.
//! Written by tests/scripts/worked.py from the files of tests/worked, which are to be changed in its place.

use super::{Expected, Worked};

pub(super) const TURNS: &[Worked] = &[
    Worked {
        name: "all_keys_cleared",
        script: &[(
            br#"{"proxies":2,"resolvers":2,"window":100,"step":10,"ask":[],"events":[
{"sequence":{"proxy":0,"batch":[{"snapshot":0,"reads":[],"writes":[],"mutations":[{"set":["\\xff/serverTag/server0000000001","\\x00\\x00\\x01"]},{"set":["\\xff/serverTag/server0000000002","\\x00\\x00\\x02"]},{"set":["\\xff/serverTag/server0000000003","\\x00\\x00\\x03"]},{"set":["\\xff/serverTag/server0000000004","\\x00\\x00\\x04"]},{"set":["\\xff/keyServers/","\\x01server0000000001\\x00"]},{"set":["\\xff/keyServers/b","\\x01server0000000002\\x00"]},{"set":["\\xff/keyServers/f","\\x02server0000000001server0000000003\\x00"]},{"set":["\\xff/keyServers/q","\\x01server0000000004\\x00"]}],"lock_aware":false}]}},
{"sequence":{"proxy":0,"batch":[{"snapshot":0,"reads":[],"writes":[],"mutations":[{"clear":["","\\xff\\xff"]}],"lock_aware":true}]}},
{"offer":{"row":0,"resolver":0}},{"offer":{"row":0,"resolver":1}},{"offer":{"row":1,"resolver":0}},
{"offer":{"row":1,"resolver":1}},{"finish":{"proxy":0}},{"finish":{"proxy":0}}]}"#,
            1,
        )],
        expected: Expected::Whole(
            br#"sequence row 0 version 10
sequence row 1 version 20
offer row 0 resolver 0 judged committed unseen none
offer row 0 resolver 1 judged committed unseen none
offer row 1 resolver 0 judged committed unseen none
offer row 1 resolver 1 judged committed unseen none
finish proxy 0 version 10
txn 0 committed 10 0
mutation 0 0 tags 0:4
private 0 0 "\xff\xff/serverTag/server0000000001" 0:1
mutation 0 1 tags 0:4
private 0 1 "\xff\xff/serverTag/server0000000002" 0:2
mutation 0 2 tags 0:4
private 0 2 "\xff\xff/serverTag/server0000000003" 0:3
mutation 0 3 tags 0:4
private 0 3 "\xff\xff/serverTag/server0000000004" 0:4
mutation 0 4 tags 0:4
mutation 0 5 tags 0:4
mutation 0 6 tags 0:4
mutation 0 7 tags 0:4
finish proxy 0 version 20
txn 0 committed 20 0
mutation 0 0 tags none
proxy 0
version 20
locked no
metadata_version none
proxy 1
version 0
locked no
metadata_version none
"#,
        ),
        status: 0,
    },
    Worked {
        name: "beginning_of_an_object",
        script: &[(br#"{"proxies":2"#, 1)],
        expected: Expected::Whole(
            br#"refused 70 NotJson
"#,
        ),
        status: 1,
    },
    Worked {
        name: "edge_of_the_window",
        script: &[(
            br#"{"proxies":2,"resolvers":2,"window":100,"step":140,"ask":[],"events":[
{"sequence":{"proxy":0,"batch":[{"snapshot":40,"reads":[["a","a\\x00"]],"writes":[],"mutations":[],"lock_aware":false},{"snapshot":39,"reads":[["a","a\\x00"]],"writes":[],"mutations":[],"lock_aware":false},{"snapshot":0,"reads":[],"writes":[["b","b\\x00"]],"mutations":[],"lock_aware":false}]}},
{"offer":{"row":0,"resolver":0}},{"offer":{"row":0,"resolver":1}},{"finish":{"proxy":0}}]}"#,
            1,
        )],
        expected: Expected::Whole(
            br#"sequence row 0 version 140
offer row 0 resolver 0 judged committed too_old committed unseen none
offer row 0 resolver 1 judged none unseen none
finish proxy 0 version 140
txn 0 committed 140 0
txn 1 too_old 1007
txn 2 committed 140 2
proxy 0
version 140
locked no
metadata_version none
proxy 1
version 0
locked no
metadata_version none
"#,
        ),
        status: 0,
    },
    Worked {
        name: "five_batches_told_at_once",
        script: &[(
            br#"{"proxies":2,"resolvers":2,"window":100,"step":10,"ask":[],"events":[
{"sequence":{"proxy":0,"batch":[{"snapshot":0,"reads":[],"writes":[],"mutations":[{"set":["\\xff/keyServers/a","\\x01server0000000001\\x00"]}],"lock_aware":false}]}},
{"sequence":{"proxy":0,"batch":[{"snapshot":0,"reads":[],"writes":[],"mutations":[{"set":["\\xff/keyServers/b","\\x01server0000000001\\x00"]}],"lock_aware":false}]}},
{"sequence":{"proxy":0,"batch":[{"snapshot":0,"reads":[],"writes":[],"mutations":[{"set":["\\xff/keyServers/c","\\x01server0000000001\\x00"]}],"lock_aware":false}]}},
{"sequence":{"proxy":0,"batch":[{"snapshot":0,"reads":[],"writes":[],"mutations":[{"set":["\\xff/keyServers/d","\\x01server0000000001\\x00"]}],"lock_aware":false}]}},
{"sequence":{"proxy":0,"batch":[{"snapshot":0,"reads":[],"writes":[],"mutations":[{"set":["\\xff/keyServers/e","\\x01server0000000001\\x00"]}],"lock_aware":false}]}},
{"offer":{"row":0,"resolver":0}},{"offer":{"row":0,"resolver":1}},{"offer":{"row":1,"resolver":0}},
{"offer":{"row":1,"resolver":1}},{"offer":{"row":2,"resolver":0}},{"offer":{"row":2,"resolver":1}},
{"offer":{"row":3,"resolver":0}},{"offer":{"row":3,"resolver":1}},{"offer":{"row":4,"resolver":0}},
{"offer":{"row":4,"resolver":1}},{"finish":{"proxy":0}},{"finish":{"proxy":0}},{"finish":{"proxy":0}},
{"finish":{"proxy":0}},{"finish":{"proxy":0}},{"sequence":{"proxy":1,"batch":[]}},{"offer":{"row":5,"resolver":0}},
{"offer":{"row":5,"resolver":1}},{"finish":{"proxy":1}}]}"#,
            1,
        )],
        expected: Expected::Whole(
            br#"sequence row 0 version 10
sequence row 1 version 20
sequence row 2 version 30
sequence row 3 version 40
sequence row 4 version 50
offer row 0 resolver 0 judged committed unseen none
offer row 0 resolver 1 judged committed unseen none
offer row 1 resolver 0 judged committed unseen none
offer row 1 resolver 1 judged committed unseen none
offer row 2 resolver 0 judged committed unseen none
offer row 2 resolver 1 judged committed unseen none
offer row 3 resolver 0 judged committed unseen none
offer row 3 resolver 1 judged committed unseen none
offer row 4 resolver 0 judged committed unseen none
offer row 4 resolver 1 judged committed unseen none
finish proxy 0 version 10
txn 0 committed 10 0
mutation 0 0 tags none
finish proxy 0 version 20
txn 0 committed 20 0
mutation 0 0 tags none
finish proxy 0 version 30
txn 0 committed 30 0
mutation 0 0 tags none
finish proxy 0 version 40
txn 0 committed 40 0
mutation 0 0 tags none
finish proxy 0 version 50
txn 0 committed 50 0
mutation 0 0 tags none
sequence row 5 version 60
offer row 5 resolver 0 judged none unseen 10 20 30 40 50
offer row 5 resolver 1 judged none unseen 10 20 30 40 50
finish proxy 1 version 60
proxy 0
version 50
locked no
metadata_version none
route "a" none
route "b" none
route "c" none
route "d" none
route "e" none
proxy 1
version 60
locked no
metadata_version none
route "a" none
route "b" none
route "c" none
route "d" none
route "e" none
"#,
        ),
        status: 0,
    },
    Worked {
        name: "key_at_the_end_of_all_keys",
        script: &[(
            br#"{"proxies":2,"resolvers":2,"window":100,"step":10,"ask":[],"events":[
{"sequence":{"proxy":0,"batch":[{"snapshot":0,"reads":[],"writes":[],"mutations":[{"set":["\\xff\\xff","v"]}],"lock_aware":false}]}},
{"offer":{"row":0,"resolver":0}},{"offer":{"row":0,"resolver":1}},{"finish":{"proxy":0}}]}"#,
            1,
        )],
        expected: Expected::Whole(
            br#"refused 12 KeyOutside
"#,
        ),
        status: 1,
    },
    Worked {
        name: "lock_meets_a_plain_write",
        script: &[(
            br#"{"proxies":2,"resolvers":2,"window":100,"step":10,"ask":[],"events":[
{"sequence":{"proxy":0,"batch":[{"snapshot":0,"reads":[],"writes":[["\\xff/dbLocked","\\xff/dbLocked\\x00"]],"mutations":[{"set":["\\xff/dbLocked","L"]}],"lock_aware":true},{"snapshot":0,"reads":[],"writes":[["a","a\\x00"]],"mutations":[{"set":["a","1"]}],"lock_aware":false}]}},
{"sequence":{"proxy":1,"batch":[{"snapshot":0,"reads":[],"writes":[["b","b\\x00"]],"mutations":[{"set":["b","1"]}],"lock_aware":false}]}},
{"offer":{"row":0,"resolver":0}},{"offer":{"row":0,"resolver":1}},{"offer":{"row":1,"resolver":0}},
{"offer":{"row":1,"resolver":1}},{"finish":{"proxy":0}},{"finish":{"proxy":1}}]}"#,
            1,
        )],
        expected: Expected::Whole(
            br#"sequence row 0 version 10
sequence row 1 version 20
offer row 0 resolver 0 judged committed committed unseen none
offer row 0 resolver 1 judged committed unseen none
offer row 1 resolver 0 judged committed unseen 10
offer row 1 resolver 1 judged none unseen 10
finish proxy 0 version 10
txn 0 committed 10 0
mutation 0 0 tags none
txn 1 committed 10 1
mutation 1 0 tags none
finish proxy 1 version 20
txn 0 locked 1038
proxy 0
version 10
locked yes
metadata_version none
proxy 1
version 20
locked yes
metadata_version none
"#,
        ),
        status: 0,
    },
    Worked {
        name: "no_version_left",
        script: &[(
            br#"{"proxies":2,"resolvers":2,"window":100,"step":4611686018427387904,"ask":[],"events":[
{"sequence":{"proxy":0,"batch":[]}},{"sequence":{"proxy":0,"batch":[]}}]}"#,
            1,
        )],
        expected: Expected::Whole(
            br#"sequence row 0 version 4611686018427387904
refused 51 VersionsEnd
proxy 0
version 0
locked no
metadata_version none
proxy 1
version 0
locked no
metadata_version none
"#,
        ),
        status: 0,
    },
    Worked {
        name: "object_without_fields",
        script: &[(br#"{}"#, 1)],
        expected: Expected::Whole(
            br#"refused 71 BadShape
"#,
        ),
        status: 1,
    },
    Worked {
        name: "offers_again_early_and_given_up",
        script: &[(
            br#"{"proxies":2,"resolvers":2,"window":100,"step":10,"ask":[],"events":[
{"sequence":{"proxy":0,"batch":[]}},{"sequence":{"proxy":1,"batch":[]}},{"sequence":{"proxy":1,"batch":[]}},
{"offer":{"row":0,"resolver":0}},{"offer":{"row":0,"resolver":0}},{"offer":{"row":2,"resolver":0}},
{"offer":{"row":0,"resolver":1}},{"finish":{"proxy":0}},{"sequence":{"proxy":0,"batch":[]}},
{"offer":{"row":1,"resolver":0}},{"offer":{"row":2,"resolver":0}},{"offer":{"row":3,"resolver":0}},
{"offer":{"row":0,"resolver":0}}]}"#,
            1,
        )],
        expected: Expected::Whole(
            br#"sequence row 0 version 10
sequence row 1 version 20
sequence row 2 version 30
offer row 0 resolver 0 judged none unseen none
offer row 0 resolver 0 again none unseen none
refused 30 Early 10
offer row 0 resolver 1 judged none unseen none
finish proxy 0 version 10
sequence row 3 version 40
offer row 1 resolver 0 judged none unseen 10
offer row 2 resolver 0 judged none unseen none
offer row 3 resolver 0 judged none unseen 20 30
refused 31 GivenUp 10
proxy 0
version 10
locked no
metadata_version none
proxy 1
version 0
locked no
metadata_version none
"#,
        ),
        status: 0,
    },
    Worked {
        name: "private_copies_of_a_key_and_a_tag",
        script: &[(
            br#"{"proxies":1,"resolvers":1,"window":100,"step":10,"ask":[],"events":[
{"sequence":{"proxy":0,"batch":[{"snapshot":0,"reads":[],"writes":[],"mutations":[{"set":["\\xff/serverKeys/server0000000001/m","1"]},{"set":["\\xff/serverTag/server0000000001","\\x00\\x00\\x01"]},{"set":["\\xff/serverKeys/server0000000002/m","1"]}],"lock_aware":false}]}},
{"offer":{"row":0,"resolver":0}},{"finish":{"proxy":0}}]}"#,
            1,
        )],
        expected: Expected::Whole(
            br#"sequence row 0 version 10
offer row 0 resolver 0 judged committed unseen none
finish proxy 0 version 10
txn 0 committed 10 0
mutation 0 0 tags none
private 0 0 "\xff\xff/serverKeys/server0000000001/m" 0:1
mutation 0 1 tags none
private 0 1 "\xff\xff/serverTag/server0000000001" 0:1
mutation 0 2 tags none
proxy 0
version 10
locked no
metadata_version none
"#,
        ),
        status: 0,
    },
    Worked {
        name: "private_copies_of_a_tag_and_a_key",
        script: &[(
            br#"{"proxies":1,"resolvers":1,"window":100,"step":10,"ask":[],"events":[
{"sequence":{"proxy":0,"batch":[{"snapshot":0,"reads":[],"writes":[],"mutations":[{"set":["\\xff/serverTag/server0000000001","\\x00\\x00\\x01"]},{"set":["\\xff/serverKeys/server0000000001/m","1"]},{"set":["\\xff/serverKeys/server0000000002/m","1"]}],"lock_aware":false}]}},
{"offer":{"row":0,"resolver":0}},{"finish":{"proxy":0}}]}"#,
            1,
        )],
        expected: Expected::Whole(
            br#"sequence row 0 version 10
offer row 0 resolver 0 judged committed unseen none
finish proxy 0 version 10
txn 0 committed 10 0
mutation 0 0 tags none
private 0 0 "\xff\xff/serverTag/server0000000001" 0:1
mutation 0 1 tags none
private 0 1 "\xff\xff/serverKeys/server0000000001/m" 0:1
mutation 0 2 tags none
proxy 0
version 10
locked no
metadata_version none
"#,
        ),
        status: 0,
    },
    Worked {
        name: "reads_about_the_date_of_a_move",
        script: &[(
            br#"{"proxies":2,"resolvers":2,"window":100,"step":10,"ask":[],"events":[
{"sequence":{"proxy":0,"batch":[]}},{"sequence":{"proxy":0,"batch":[]}},{"move":{"range":["m","t"],"resolver":1}},
{"sequence":{"proxy":0,"batch":[]}},
{"sequence":{"proxy":0,"batch":[{"snapshot":20,"reads":[["n","n\\x00"]],"writes":[],"mutations":[],"lock_aware":false},{"snapshot":21,"reads":[["n","n\\x00"]],"writes":[],"mutations":[],"lock_aware":false},{"snapshot":30,"reads":[["n","n\\x00"]],"writes":[],"mutations":[],"lock_aware":false}]}},
{"offer":{"row":0,"resolver":0}},{"offer":{"row":0,"resolver":1}},{"offer":{"row":1,"resolver":0}},
{"offer":{"row":1,"resolver":1}},{"offer":{"row":2,"resolver":0}},{"offer":{"row":2,"resolver":1}},
{"offer":{"row":3,"resolver":0}},{"offer":{"row":3,"resolver":1}},{"finish":{"proxy":0}},{"finish":{"proxy":0}},
{"finish":{"proxy":0}},{"finish":{"proxy":0}}]}"#,
            1,
        )],
        expected: Expected::Whole(
            br#"sequence row 0 version 10
sequence row 1 version 20
move date 21
sequence row 2 version 30
sequence row 3 version 40
offer row 0 resolver 0 judged none unseen none
offer row 0 resolver 1 judged none unseen none
offer row 1 resolver 0 judged none unseen none
offer row 1 resolver 1 judged none unseen none
offer row 2 resolver 0 judged none unseen none
offer row 2 resolver 1 judged none unseen none
offer row 3 resolver 0 judged committed committed unseen none
offer row 3 resolver 1 judged committed committed committed unseen none
finish proxy 0 version 10
finish proxy 0 version 20
finish proxy 0 version 30
finish proxy 0 version 40
txn 0 committed 40 0
txn 1 committed 40 1
txn 2 committed 40 2
proxy 0
version 40
locked no
metadata_version none
proxy 1
version 0
locked no
metadata_version none
"#,
        ),
        status: 0,
    },
    Worked {
        name: "refused_events",
        script: &[(
            br#"{"proxies":2,"resolvers":2,"window":100,"step":10,"ask":[],"events":[
{"move":{"range":["m","t"],"resolver":2}},{"finish":{"proxy":0}},{"sequence":{"proxy":0,"batch":[]}},
{"offer":{"row":0,"resolver":0}},{"finish":{"proxy":0}},{"offer":{"row":9,"resolver":0}},
{"offer":{"row":0,"resolver":1}},{"finish":{"proxy":0}}]}"#,
            1,
        )],
        expected: Expected::Whole(
            br#"refused 20 NoSuchResolver
refused 42 OutOfTurn none
sequence row 0 version 10
offer row 0 resolver 0 judged none unseen none
refused 43 MissingReply 1
refused 35 NoSuchRow
offer row 0 resolver 1 judged none unseen none
finish proxy 0 version 10
proxy 0
version 10
locked no
metadata_version none
proxy 1
version 0
locked no
metadata_version none
"#,
        ),
        status: 0,
    },
    Worked {
        name: "row_without_its_last_count",
        script: &[(
            br#"{"proxies":2,"resolvers":2,"window":100,"step":10,"ask":[],"events":[
{"sequence":{"proxy":0,"batch":[{"snapshot":0,"reads":[],"writes":[],"mutations":[{"set":["\\xff/keyServers/","\\x01server0000000001"]}],"lock_aware":false}]}},
{"offer":{"row":0,"resolver":0}},{"offer":{"row":0,"resolver":1}},{"finish":{"proxy":0}}]}"#,
            1,
        )],
        expected: Expected::Whole(
            br#"refused 14 BadRow
"#,
        ),
        status: 1,
    },
    Worked {
        name: "servers_out_of_order",
        script: &[(
            br#"{"proxies":2,"resolvers":2,"window":100,"step":10,"ask":[],"events":[
{"sequence":{"proxy":0,"batch":[{"snapshot":0,"reads":[],"writes":[],"mutations":[{"set":["\\xff/keyServers/","\\x02server0000000002server0000000001\\x00"]}],"lock_aware":false}]}},
{"offer":{"row":0,"resolver":0}},{"offer":{"row":0,"resolver":1}},{"finish":{"proxy":0}}]}"#,
            1,
        )],
        expected: Expected::Whole(
            br#"refused 14 BadRow
"#,
        ),
        status: 1,
    },
    Worked {
        name: "snapshot_before_the_lock",
        script: &[(
            br#"{"proxies":2,"resolvers":2,"window":100,"step":10,"ask":[],"events":[
{"sequence":{"proxy":0,"batch":[{"snapshot":0,"reads":[],"writes":[["\\xff/dbLocked","\\xff/dbLocked\\x00"]],"mutations":[{"set":["\\xff/dbLocked","L"]}],"lock_aware":true},{"snapshot":0,"reads":[],"writes":[["a","a\\x00"]],"mutations":[{"set":["a","1"]}],"lock_aware":false}]}},
{"sequence":{"proxy":1,"batch":[{"snapshot":9,"reads":[],"writes":[],"mutations":[{"set":["\\xff/serverTag/server0000000001","\\x00\\x00\\x01"]}],"lock_aware":false}]}},
{"sequence":{"proxy":0,"batch":[]}},{"offer":{"row":0,"resolver":0}},{"offer":{"row":0,"resolver":1}},
{"offer":{"row":1,"resolver":0}},{"offer":{"row":1,"resolver":1}},{"offer":{"row":2,"resolver":0}},
{"offer":{"row":2,"resolver":1}},{"finish":{"proxy":0}},{"finish":{"proxy":1}},{"finish":{"proxy":0}}]}"#,
            1,
        )],
        expected: Expected::Whole(
            br#"sequence row 0 version 10
sequence row 1 version 20
sequence row 2 version 30
offer row 0 resolver 0 judged committed committed unseen none
offer row 0 resolver 1 judged committed unseen none
offer row 1 resolver 0 judged conflict unseen 10
offer row 1 resolver 1 judged committed unseen 10
offer row 2 resolver 0 judged none unseen 20
offer row 2 resolver 1 judged none unseen 20
finish proxy 0 version 10
txn 0 committed 10 0
mutation 0 0 tags none
txn 1 committed 10 1
mutation 1 0 tags none
finish proxy 1 version 20
txn 0 conflict 1020
finish proxy 0 version 30
proxy 0
version 30
locked yes
metadata_version none
proxy 1
version 20
locked yes
metadata_version none
"#,
        ),
        status: 0,
    },
    Worked {
        name: "stamp_past_its_value",
        script: &[(
            br#"{"proxies":2,"resolvers":2,"window":100,"step":10,"ask":[],"events":[
{"sequence":{"proxy":0,"batch":[{"snapshot":0,"reads":[],"writes":[],"mutations":[{"set_stamped":["\\xff/metadataVersion","\\x00\\x00\\x00\\x00\\x00\\x00\\x00\\x00\\x00\\x00\\x01\\x00\\x00\\x00"]}],"lock_aware":false}]}},
{"offer":{"row":0,"resolver":0}},{"offer":{"row":0,"resolver":1}},{"finish":{"proxy":0}}]}"#,
            1,
        )],
        expected: Expected::Whole(
            br#"refused 15 BadStamp
"#,
        ),
        status: 1,
    },
    Worked {
        name: "stamped_metadata_version",
        script: &[(
            br#"{"proxies":2,"resolvers":2,"window":100,"step":10,"ask":[],"events":[
{"sequence":{"proxy":0,"batch":[{"snapshot":0,"reads":[],"writes":[],"mutations":[{"set_stamped":["\\xff/metadataVersion","\\x00\\x00\\x00\\x00\\x00\\x00\\x00\\x00\\x00\\x00\\x00\\x00\\x00\\x00"]}],"lock_aware":false}]}},
{"offer":{"row":0,"resolver":0}},{"offer":{"row":0,"resolver":1}},{"finish":{"proxy":0}}]}"#,
            1,
        )],
        expected: Expected::Whole(
            br#"sequence row 0 version 10
offer row 0 resolver 0 judged committed unseen none
offer row 0 resolver 1 judged committed unseen none
finish proxy 0 version 10
txn 0 committed 10 0
mutation 0 0 tags none
proxy 0
version 10
locked no
metadata_version "\x00\x00\x00\x00\x00\x00\x00\x0a\x00\x00"
proxy 1
version 0
locked no
metadata_version none
"#,
        ),
        status: 0,
    },
    Worked {
        name: "tags_of_a_clear_over_four_servers",
        script: &[(
            br#"{"proxies":2,"resolvers":2,"window":100,"step":10,"ask":[],"events":[
{"sequence":{"proxy":0,"batch":[{"snapshot":0,"reads":[],"writes":[],"mutations":[{"set":["\\xff/serverTag/server0000000001","\\x00\\x00\\x01"]},{"set":["\\xff/serverTag/server0000000002","\\x00\\x00\\x02"]},{"set":["\\xff/serverTag/server0000000003","\\x00\\x00\\x03"]},{"set":["\\xff/serverTag/server0000000004","\\x00\\x00\\x04"]},{"set":["\\xff/keyServers/","\\x01server0000000001\\x00"]},{"set":["\\xff/keyServers/b","\\x01server0000000002\\x00"]},{"set":["\\xff/keyServers/f","\\x02server0000000001server0000000003\\x00"]},{"set":["\\xff/keyServers/q","\\x01server0000000004\\x00"]}],"lock_aware":false}]}},
{"sequence":{"proxy":0,"batch":[{"snapshot":0,"reads":[],"writes":[],"mutations":[{"clear":["a","\\xff"]}],"lock_aware":false}]}},
{"sequence":{"proxy":0,"batch":[{"snapshot":0,"reads":[],"writes":[],"mutations":[{"set":["a","1"]},{"clear":["\\xff/keyServers/","\\xff/keyServers0"]}],"lock_aware":true}]}},
{"offer":{"row":0,"resolver":0}},{"offer":{"row":0,"resolver":1}},{"offer":{"row":1,"resolver":0}},
{"offer":{"row":1,"resolver":1}},{"offer":{"row":2,"resolver":0}},{"offer":{"row":2,"resolver":1}},
{"finish":{"proxy":0}},{"finish":{"proxy":0}},{"finish":{"proxy":0}}]}"#,
            1,
        )],
        expected: Expected::Whole(
            br#"sequence row 0 version 10
sequence row 1 version 20
sequence row 2 version 30
offer row 0 resolver 0 judged committed unseen none
offer row 0 resolver 1 judged committed unseen none
offer row 1 resolver 0 judged none unseen none
offer row 1 resolver 1 judged none unseen none
offer row 2 resolver 0 judged committed unseen none
offer row 2 resolver 1 judged committed unseen none
finish proxy 0 version 10
txn 0 committed 10 0
mutation 0 0 tags 0:4
private 0 0 "\xff\xff/serverTag/server0000000001" 0:1
mutation 0 1 tags 0:4
private 0 1 "\xff\xff/serverTag/server0000000002" 0:2
mutation 0 2 tags 0:4
private 0 2 "\xff\xff/serverTag/server0000000003" 0:3
mutation 0 3 tags 0:4
private 0 3 "\xff\xff/serverTag/server0000000004" 0:4
mutation 0 4 tags 0:4
mutation 0 5 tags 0:4
mutation 0 6 tags 0:4
mutation 0 7 tags 0:4
finish proxy 0 version 20
txn 0 committed 20 0
mutation 0 0 tags 0:1 0:2 0:3 0:4
finish proxy 0 version 30
txn 0 committed 30 0
mutation 0 0 tags none
mutation 0 1 tags none
proxy 0
version 30
locked no
metadata_version none
proxy 1
version 0
locked no
metadata_version none
"#,
        ),
        status: 0,
    },
    Worked {
        name: "two_hundred_lists",
        script: &[(
            br#"[[[[[[[[[[[[[[[[[[[[[[[[[[[[[[[[[[[[[[[[[[[[[[[[[[[[[[[[[[[[[[[[[[[[[[[[[[[[[[[[[[[[[[[[[[[[[[[[[[[[[[[[[[[[[[[[[[[[[[[[[[[[[[[[[[[[[[[[[[[[[[[[[[[[[[[[[[[[[[[[[[[[[[[[[[[[[[[[[[[[[[[[[[[[[[[[[[[[[[[[]]]]]]]]]]]]]]]]]]]]]]]]]]]]]]]]]]]]]]]]]]]]]]]]]]]]]]]]]]]]]]]]]]]]]]]]]]]]]]]]]]]]]]]]]]]]]]]]]]]]]]]]]]]]]]]]]]]]]]]]]]]]]]]]]]]]]]]]]]]]]]]]]]]]]]]]]]]]]]]]]]]]]]]]]]]]]]]]]]]]]]]]]]]]]]]]]]]]]]]]"#,
            1,
        )],
        expected: Expected::Whole(
            br#"refused 70 NotJson
"#,
        ),
        status: 1,
    },
    Worked {
        name: "two_proxies_learn_the_lock",
        script: &[(
            br#"{"proxies":2,"resolvers":2,"window":100,"step":10,"ask":[],"events":[
{"sequence":{"proxy":0,"batch":[{"snapshot":0,"reads":[],"writes":[["\\xff/dbLocked","\\xff/dbLocked\\x00"]],"mutations":[{"set":["\\xff/dbLocked","L"]}],"lock_aware":true},{"snapshot":0,"reads":[],"writes":[["a","a\\x00"]],"mutations":[{"set":["a","1"]}],"lock_aware":false}]}},
{"sequence":{"proxy":1,"batch":[{"snapshot":10,"reads":[],"writes":[],"mutations":[{"set":["\\xff/serverTag/server0000000001","\\x00\\x00\\x01"]}],"lock_aware":false}]}},
{"sequence":{"proxy":0,"batch":[]}},{"offer":{"row":0,"resolver":0}},{"offer":{"row":0,"resolver":1}},
{"offer":{"row":1,"resolver":0}},{"offer":{"row":1,"resolver":1}},{"offer":{"row":2,"resolver":0}},
{"offer":{"row":2,"resolver":1}},{"finish":{"proxy":0}},{"finish":{"proxy":1}},{"finish":{"proxy":0}}]}"#,
            1,
        )],
        expected: Expected::Whole(
            br#"sequence row 0 version 10
sequence row 1 version 20
sequence row 2 version 30
offer row 0 resolver 0 judged committed committed unseen none
offer row 0 resolver 1 judged committed unseen none
offer row 1 resolver 0 judged committed unseen 10
offer row 1 resolver 1 judged committed unseen 10
offer row 2 resolver 0 judged none unseen 20
offer row 2 resolver 1 judged none unseen 20
finish proxy 0 version 10
txn 0 committed 10 0
mutation 0 0 tags none
txn 1 committed 10 1
mutation 1 0 tags none
finish proxy 1 version 20
txn 0 locked 1038
finish proxy 0 version 30
proxy 0
version 30
locked yes
metadata_version none
proxy 1
version 20
locked yes
metadata_version none
"#,
        ),
        status: 0,
    },
    Worked {
        name: "two_records_begun_before_one_is_finished",
        script: &[(
            br#"{"proxies":2,"resolvers":2,"window":100,"step":10,"ask":[],"events":[
{"sequence":{"proxy":0,"batch":[{"snapshot":0,"reads":[],"writes":[],"mutations":[{"set":["\\xff/metadataVersion","a"]}],"lock_aware":true}]}},
{"sequence":{"proxy":1,"batch":[{"snapshot":0,"reads":[],"writes":[],"mutations":[{"set":["\\xff/metadataVersion","b"]}],"lock_aware":true}]}},
{"sequence":{"proxy":0,"batch":[{"snapshot":0,"reads":[],"writes":[],"mutations":[{"set":["\\xff/metadataVersion","c"]}],"lock_aware":true}]}},
{"offer":{"row":0,"resolver":0}},{"offer":{"row":0,"resolver":1}},{"offer":{"row":1,"resolver":0}},
{"offer":{"row":1,"resolver":1}},{"offer":{"row":2,"resolver":0}},{"offer":{"row":2,"resolver":1}},
{"offer":{"row":0,"resolver":0}},{"offer":{"row":0,"resolver":1}},{"finish":{"proxy":0}},{"finish":{"proxy":0}}]}"#,
            1,
        )],
        expected: Expected::Whole(
            br#"sequence row 0 version 10
sequence row 1 version 20
sequence row 2 version 30
offer row 0 resolver 0 judged committed unseen none
offer row 0 resolver 1 judged committed unseen none
offer row 1 resolver 0 judged committed unseen 10
offer row 1 resolver 1 judged committed unseen 10
offer row 2 resolver 0 judged committed unseen 20
offer row 2 resolver 1 judged committed unseen 20
offer row 0 resolver 0 again committed unseen none
offer row 0 resolver 1 again committed unseen none
finish proxy 0 version 10
txn 0 committed 10 0
mutation 0 0 tags none
finish proxy 0 version 30
txn 0 committed 30 0
mutation 0 0 tags none
proxy 0
version 30
locked no
metadata_version "c"
proxy 1
version 0
locked no
metadata_version none
"#,
        ),
        status: 0,
    },
    Worked {
        name: "write_before_a_move",
        script: &[(
            br#"{"proxies":1,"resolvers":2,"window":100,"step":10,"ask":["n"],"events":[
{"sequence":{"proxy":0,"batch":[]}},
{"sequence":{"proxy":0,"batch":[{"snapshot":0,"reads":[],
"writes":[["n","n\\x00"]],"mutations":[{"set":["n","1"]}],"lock_aware":false}]}},
{"move":{"range":["m","t"],"resolver":1}},
{"sequence":{"proxy":0,"batch":[{"snapshot":10,"reads":[["n","n\\x00"]],
"writes":[],"mutations":[],"lock_aware":false}]}},
{"offer":{"row":0,"resolver":0}},{"offer":{"row":0,"resolver":1}},
{"offer":{"row":1,"resolver":0}},{"offer":{"row":1,"resolver":1}},
{"offer":{"row":2,"resolver":0}},{"offer":{"row":2,"resolver":1}},
{"finish":{"proxy":0}},{"finish":{"proxy":0}},{"finish":{"proxy":0}}]}"#,
            1,
        )],
        expected: Expected::Whole(
            br#"sequence row 0 version 10
sequence row 1 version 20
move date 21
sequence row 2 version 30
offer row 0 resolver 0 judged none unseen none
offer row 0 resolver 1 judged none unseen none
offer row 1 resolver 0 judged committed unseen none
offer row 1 resolver 1 judged none unseen none
offer row 2 resolver 0 judged conflict unseen none
offer row 2 resolver 1 judged committed unseen none
finish proxy 0 version 10
finish proxy 0 version 20
txn 0 committed 20 0
mutation 0 0 tags none
finish proxy 0 version 30
txn 0 conflict 1020
proxy 0
version 30
locked no
metadata_version none
tags "n" none
"#,
        ),
        status: 0,
    },
    Worked {
        name: "write_of_a_refused_transaction",
        script: &[(
            br#"{"proxies":2,"resolvers":2,"window":100,"step":10,"ask":[],"events":[
{"move":{"range":["m","t"],"resolver":1}},
{"sequence":{"proxy":0,"batch":[{"snapshot":0,"reads":[],"writes":[["n","n\\x00"]],"mutations":[],"lock_aware":false}]}},
{"sequence":{"proxy":0,"batch":[{"snapshot":5,"reads":[["n","n\\x00"]],"writes":[["b","b\\x00"]],"mutations":[],"lock_aware":false}]}},
{"sequence":{"proxy":0,"batch":[{"snapshot":10,"reads":[["b","b\\x00"]],"writes":[],"mutations":[],"lock_aware":false}]}},
{"offer":{"row":0,"resolver":0}},{"offer":{"row":0,"resolver":1}},{"offer":{"row":1,"resolver":0}},
{"offer":{"row":1,"resolver":1}},{"offer":{"row":2,"resolver":0}},{"offer":{"row":2,"resolver":1}},
{"finish":{"proxy":0}},{"finish":{"proxy":0}},{"finish":{"proxy":0}}]}"#,
            1,
        )],
        expected: Expected::Whole(
            br#"move date 1
sequence row 0 version 10
sequence row 1 version 20
sequence row 2 version 30
offer row 0 resolver 0 judged none unseen none
offer row 0 resolver 1 judged committed unseen none
offer row 1 resolver 0 judged committed unseen none
offer row 1 resolver 1 judged conflict unseen none
offer row 2 resolver 0 judged conflict unseen none
offer row 2 resolver 1 judged none unseen none
finish proxy 0 version 10
txn 0 committed 10 0
finish proxy 0 version 20
txn 0 conflict 1020
finish proxy 0 version 30
txn 0 conflict 1020
proxy 0
version 30
locked no
metadata_version none
proxy 1
version 0
locked no
metadata_version none
"#,
        ),
        status: 0,
    },
    Worked {
        name: "writes_within_a_batch",
        script: &[(
            br#"{"proxies":2,"resolvers":2,"window":100,"step":10,"ask":[],"events":[
{"sequence":{"proxy":0,"batch":[{"snapshot":0,"reads":[],"writes":[["a","a\\x00"]],"mutations":[],"lock_aware":false},{"snapshot":0,"reads":[["a","a\\x00"]],"writes":[],"mutations":[],"lock_aware":false}]}},
{"sequence":{"proxy":0,"batch":[{"snapshot":10,"reads":[["b","b\\x00"]],"writes":[],"mutations":[],"lock_aware":false},{"snapshot":10,"reads":[],"writes":[["b","b\\x00"]],"mutations":[],"lock_aware":false}]}},
{"offer":{"row":0,"resolver":0}},{"offer":{"row":0,"resolver":1}},{"offer":{"row":1,"resolver":0}},
{"offer":{"row":1,"resolver":1}},{"finish":{"proxy":0}},{"finish":{"proxy":0}}]}"#,
            1,
        )],
        expected: Expected::Whole(
            br#"sequence row 0 version 10
sequence row 1 version 20
offer row 0 resolver 0 judged committed conflict unseen none
offer row 0 resolver 1 judged none unseen none
offer row 1 resolver 0 judged committed committed unseen none
offer row 1 resolver 1 judged none unseen none
finish proxy 0 version 10
txn 0 committed 10 0
txn 1 conflict 1020
finish proxy 0 version 20
txn 0 committed 20 0
txn 1 committed 20 1
proxy 0
version 20
locked no
metadata_version none
proxy 1
version 0
locked no
metadata_version none
"#,
        ),
        status: 0,
    },
];
