//! Scripts of the mode `threads`.
//! Written by tests/scripts/worked.py from the files of tests/worked, which are to be changed in its place.

use super::{Expected, Worked};

pub(super) const THREADS: &[Worked] = &[
    Worked {
        name: "beginning_of_an_object",
        script: &[(br#"{"proxies":2"#, 1)],
        expected: Expected::Whole(
            br#"refused 70 NotJson
"#,
        ),
        status: 1,
    },
    Worked {
        name: "no_row_for_the_last_closing",
        script: &[(
            br#"{"proxies":3,"resolvers":2,"window":1000,"step":10,"rows":29,"moves":[],"ask":["k13"],"work":[
[[{"snapshot":0,"reads":[],"writes":[["\\xff/keyServers/k00","\\xff/keyServers/k00\\x00"]],"mutations":[{"set":["\\xff/keyServers/k00","\\x01server0000000001\\x00"]},{"set":["\\xff/serverTag/server0000000001","\\x00\\x00\\x01"]}],"lock_aware":false}],
[{"snapshot":0,"reads":[],"writes":[["\\xff/keyServers/k01","\\xff/keyServers/k01\\x00"]],"mutations":[{"set":["\\xff/keyServers/k01","\\x01server0000000001\\x00"]}],"lock_aware":false}],
[{"snapshot":0,"reads":[],"writes":[["\\xff/keyServers/k02","\\xff/keyServers/k02\\x00"]],"mutations":[{"set":["\\xff/keyServers/k02","\\x01server0000000001\\x00"]}],"lock_aware":false}],
[{"snapshot":0,"reads":[],"writes":[["\\xff/keyServers/k03","\\xff/keyServers/k03\\x00"]],"mutations":[{"set":["\\xff/keyServers/k03","\\x01server0000000001\\x00"]}],"lock_aware":false}],
[{"snapshot":0,"reads":[],"writes":[["\\xff/keyServers/k04","\\xff/keyServers/k04\\x00"]],"mutations":[{"set":["\\xff/keyServers/k04","\\x01server0000000001\\x00"]}],"lock_aware":false}],
[{"snapshot":0,"reads":[],"writes":[["\\xff/keyServers/k05","\\xff/keyServers/k05\\x00"]],"mutations":[{"set":["\\xff/keyServers/k05","\\x01server0000000001\\x00"]}],"lock_aware":false}],
[{"snapshot":0,"reads":[],"writes":[["\\xff/keyServers/k06","\\xff/keyServers/k06\\x00"]],"mutations":[{"set":["\\xff/keyServers/k06","\\x01server0000000001\\x00"]}],"lock_aware":false}],
[{"snapshot":0,"reads":[],"writes":[["\\xff/keyServers/k07","\\xff/keyServers/k07\\x00"]],"mutations":[{"set":["\\xff/keyServers/k07","\\x01server0000000001\\x00"]}],"lock_aware":false}],
[{"snapshot":0,"reads":[],"writes":[["\\xff/keyServers/k08","\\xff/keyServers/k08\\x00"]],"mutations":[{"set":["\\xff/keyServers/k08","\\x01server0000000001\\x00"]}],"lock_aware":false}]],
[[{"snapshot":0,"reads":[],"writes":[["\\xff/keyServers/k09","\\xff/keyServers/k09\\x00"]],"mutations":[{"set":["\\xff/keyServers/k09","\\x01server0000000001\\x00"]}],"lock_aware":false}],
[{"snapshot":0,"reads":[],"writes":[["\\xff/keyServers/k10","\\xff/keyServers/k10\\x00"]],"mutations":[{"set":["\\xff/keyServers/k10","\\x01server0000000001\\x00"]}],"lock_aware":false}],
[{"snapshot":0,"reads":[],"writes":[["\\xff/keyServers/k11","\\xff/keyServers/k11\\x00"]],"mutations":[{"set":["\\xff/keyServers/k11","\\x01server0000000001\\x00"]}],"lock_aware":false}],
[{"snapshot":0,"reads":[],"writes":[["\\xff/keyServers/k12","\\xff/keyServers/k12\\x00"]],"mutations":[{"set":["\\xff/keyServers/k12","\\x01server0000000001\\x00"]}],"lock_aware":false}],
[{"snapshot":0,"reads":[],"writes":[["\\xff/keyServers/k13","\\xff/keyServers/k13\\x00"]],"mutations":[{"set":["\\xff/keyServers/k13","\\x01server0000000001\\x00"]}],"lock_aware":false}],
[{"snapshot":0,"reads":[],"writes":[["\\xff/keyServers/k14","\\xff/keyServers/k14\\x00"]],"mutations":[{"set":["\\xff/keyServers/k14","\\x01server0000000001\\x00"]}],"lock_aware":false}],
[{"snapshot":0,"reads":[],"writes":[["\\xff/keyServers/k15","\\xff/keyServers/k15\\x00"]],"mutations":[{"set":["\\xff/keyServers/k15","\\x01server0000000001\\x00"]}],"lock_aware":false}],
[{"snapshot":0,"reads":[],"writes":[["\\xff/keyServers/k16","\\xff/keyServers/k16\\x00"]],"mutations":[{"set":["\\xff/keyServers/k16","\\x01server0000000001\\x00"]}],"lock_aware":false}],
[{"snapshot":0,"reads":[],"writes":[["\\xff/keyServers/k17","\\xff/keyServers/k17\\x00"]],"mutations":[{"set":["\\xff/keyServers/k17","\\x01server0000000001\\x00"]}],"lock_aware":false}]],
[[{"snapshot":0,"reads":[],"writes":[["\\xff/keyServers/k18","\\xff/keyServers/k18\\x00"]],"mutations":[{"set":["\\xff/keyServers/k18","\\x01server0000000001\\x00"]}],"lock_aware":false}],
[{"snapshot":0,"reads":[],"writes":[["\\xff/keyServers/k19","\\xff/keyServers/k19\\x00"]],"mutations":[{"set":["\\xff/keyServers/k19","\\x01server0000000001\\x00"]}],"lock_aware":false}],
[{"snapshot":0,"reads":[],"writes":[["\\xff/keyServers/k20","\\xff/keyServers/k20\\x00"]],"mutations":[{"set":["\\xff/keyServers/k20","\\x01server0000000001\\x00"]}],"lock_aware":false}],
[{"snapshot":0,"reads":[],"writes":[["\\xff/keyServers/k21","\\xff/keyServers/k21\\x00"]],"mutations":[{"set":["\\xff/keyServers/k21","\\x01server0000000001\\x00"]}],"lock_aware":false}],
[{"snapshot":0,"reads":[],"writes":[["\\xff/keyServers/k22","\\xff/keyServers/k22\\x00"]],"mutations":[{"set":["\\xff/keyServers/k22","\\x01server0000000001\\x00"]}],"lock_aware":false}],
[{"snapshot":0,"reads":[],"writes":[["\\xff/keyServers/k23","\\xff/keyServers/k23\\x00"]],"mutations":[{"set":["\\xff/keyServers/k23","\\x01server0000000001\\x00"]}],"lock_aware":false}],
[{"snapshot":0,"reads":[],"writes":[["\\xff/keyServers/k24","\\xff/keyServers/k24\\x00"]],"mutations":[{"set":["\\xff/keyServers/k24","\\x01server0000000001\\x00"]}],"lock_aware":false}],
[{"snapshot":0,"reads":[],"writes":[["\\xff/keyServers/k25","\\xff/keyServers/k25\\x00"]],"mutations":[{"set":["\\xff/keyServers/k25","\\x01server0000000001\\x00"]}],"lock_aware":false}],
[{"snapshot":0,"reads":[],"writes":[["\\xff/keyServers/k26","\\xff/keyServers/k26\\x00"]],"mutations":[{"set":["\\xff/keyServers/k26","\\x01server0000000001\\x00"]}],"lock_aware":false}]]]}"#,
            1,
        )],
        expected: Expected::Lines(
            br#"batch 0 0 committed
batch 0 1 committed
batch 0 2 committed
batch 0 3 committed
batch 0 4 committed
batch 0 5 committed
batch 0 6 committed
batch 0 7 committed
batch 0 8 committed
batch 1 0 committed
batch 1 1 committed
batch 1 2 committed
batch 1 3 committed
batch 1 4 committed
batch 1 5 committed
batch 1 6 committed
batch 1 7 committed
batch 1 8 committed
batch 2 0 committed
batch 2 1 committed
batch 2 2 committed
batch 2 3 committed
batch 2 4 committed
batch 2 5 committed
batch 2 6 committed
batch 2 7 committed
batch 2 8 committed
closing 0 version 280
closing 1 version 290
closing 2 refused 50 LedgerFull 29
proxy 0
version 280
locked no
metadata_version none
route "k00" 0:1
route "k01" 0:1
route "k02" 0:1
route "k03" 0:1
route "k04" 0:1
route "k05" 0:1
route "k06" 0:1
route "k07" 0:1
route "k08" 0:1
route "k09" 0:1
route "k10" 0:1
route "k11" 0:1
route "k12" 0:1
route "k13" 0:1
route "k14" 0:1
route "k15" 0:1
route "k16" 0:1
route "k17" 0:1
route "k18" 0:1
route "k19" 0:1
route "k20" 0:1
route "k21" 0:1
route "k22" 0:1
route "k23" 0:1
route "k24" 0:1
route "k25" 0:1
route "k26" 0:1
tags "k13" 0:1
proxy 1
version 290
locked no
metadata_version none
route "k00" 0:1
route "k01" 0:1
route "k02" 0:1
route "k03" 0:1
route "k04" 0:1
route "k05" 0:1
route "k06" 0:1
route "k07" 0:1
route "k08" 0:1
route "k09" 0:1
route "k10" 0:1
route "k11" 0:1
route "k12" 0:1
route "k13" 0:1
route "k14" 0:1
route "k15" 0:1
route "k16" 0:1
route "k17" 0:1
route "k18" 0:1
route "k19" 0:1
route "k20" 0:1
route "k21" 0:1
route "k22" 0:1
route "k23" 0:1
route "k24" 0:1
route "k25" 0:1
route "k26" 0:1
tags "k13" 0:1
proxy 2
meet 0 1 behind
meet 0 2 ahead
meet 1 2 ahead
audit 0 ok
audit 1 ok
audit 2 ok
"#,
        ),
        status: 0,
    },
    Worked {
        name: "object_without_fields",
        script: &[(br#"{}"#, 1)],
        expected: Expected::Whole(
            br#"refused 71 BadShape
"#,
        ),
        status: 1,
    },
    Worked {
        name: "three_proxies_of_nine_batches",
        script: &[(
            br#"{"proxies":3,"resolvers":2,"window":1000,"step":10,"rows":30,"moves":[],"ask":["k13"],"work":[
[[{"snapshot":0,"reads":[],"writes":[["\\xff/keyServers/k00","\\xff/keyServers/k00\\x00"]],"mutations":[{"set":["\\xff/keyServers/k00","\\x01server0000000001\\x00"]},{"set":["\\xff/serverTag/server0000000001","\\x00\\x00\\x01"]}],"lock_aware":false}],
[{"snapshot":0,"reads":[],"writes":[["\\xff/keyServers/k01","\\xff/keyServers/k01\\x00"]],"mutations":[{"set":["\\xff/keyServers/k01","\\x01server0000000001\\x00"]}],"lock_aware":false}],
[{"snapshot":0,"reads":[],"writes":[["\\xff/keyServers/k02","\\xff/keyServers/k02\\x00"]],"mutations":[{"set":["\\xff/keyServers/k02","\\x01server0000000001\\x00"]}],"lock_aware":false}],
[{"snapshot":0,"reads":[],"writes":[["\\xff/keyServers/k03","\\xff/keyServers/k03\\x00"]],"mutations":[{"set":["\\xff/keyServers/k03","\\x01server0000000001\\x00"]}],"lock_aware":false}],
[{"snapshot":0,"reads":[],"writes":[["\\xff/keyServers/k04","\\xff/keyServers/k04\\x00"]],"mutations":[{"set":["\\xff/keyServers/k04","\\x01server0000000001\\x00"]}],"lock_aware":false}],
[{"snapshot":0,"reads":[],"writes":[["\\xff/keyServers/k05","\\xff/keyServers/k05\\x00"]],"mutations":[{"set":["\\xff/keyServers/k05","\\x01server0000000001\\x00"]}],"lock_aware":false}],
[{"snapshot":0,"reads":[],"writes":[["\\xff/keyServers/k06","\\xff/keyServers/k06\\x00"]],"mutations":[{"set":["\\xff/keyServers/k06","\\x01server0000000001\\x00"]}],"lock_aware":false}],
[{"snapshot":0,"reads":[],"writes":[["\\xff/keyServers/k07","\\xff/keyServers/k07\\x00"]],"mutations":[{"set":["\\xff/keyServers/k07","\\x01server0000000001\\x00"]}],"lock_aware":false}],
[{"snapshot":0,"reads":[],"writes":[["\\xff/keyServers/k08","\\xff/keyServers/k08\\x00"]],"mutations":[{"set":["\\xff/keyServers/k08","\\x01server0000000001\\x00"]}],"lock_aware":false}]],
[[{"snapshot":0,"reads":[],"writes":[["\\xff/keyServers/k09","\\xff/keyServers/k09\\x00"]],"mutations":[{"set":["\\xff/keyServers/k09","\\x01server0000000001\\x00"]}],"lock_aware":false}],
[{"snapshot":0,"reads":[],"writes":[["\\xff/keyServers/k10","\\xff/keyServers/k10\\x00"]],"mutations":[{"set":["\\xff/keyServers/k10","\\x01server0000000001\\x00"]}],"lock_aware":false}],
[{"snapshot":0,"reads":[],"writes":[["\\xff/keyServers/k11","\\xff/keyServers/k11\\x00"]],"mutations":[{"set":["\\xff/keyServers/k11","\\x01server0000000001\\x00"]}],"lock_aware":false}],
[{"snapshot":0,"reads":[],"writes":[["\\xff/keyServers/k12","\\xff/keyServers/k12\\x00"]],"mutations":[{"set":["\\xff/keyServers/k12","\\x01server0000000001\\x00"]}],"lock_aware":false}],
[{"snapshot":0,"reads":[],"writes":[["\\xff/keyServers/k13","\\xff/keyServers/k13\\x00"]],"mutations":[{"set":["\\xff/keyServers/k13","\\x01server0000000001\\x00"]}],"lock_aware":false}],
[{"snapshot":0,"reads":[],"writes":[["\\xff/keyServers/k14","\\xff/keyServers/k14\\x00"]],"mutations":[{"set":["\\xff/keyServers/k14","\\x01server0000000001\\x00"]}],"lock_aware":false}],
[{"snapshot":0,"reads":[],"writes":[["\\xff/keyServers/k15","\\xff/keyServers/k15\\x00"]],"mutations":[{"set":["\\xff/keyServers/k15","\\x01server0000000001\\x00"]}],"lock_aware":false}],
[{"snapshot":0,"reads":[],"writes":[["\\xff/keyServers/k16","\\xff/keyServers/k16\\x00"]],"mutations":[{"set":["\\xff/keyServers/k16","\\x01server0000000001\\x00"]}],"lock_aware":false}],
[{"snapshot":0,"reads":[],"writes":[["\\xff/keyServers/k17","\\xff/keyServers/k17\\x00"]],"mutations":[{"set":["\\xff/keyServers/k17","\\x01server0000000001\\x00"]}],"lock_aware":false}]],
[[{"snapshot":0,"reads":[],"writes":[["\\xff/keyServers/k18","\\xff/keyServers/k18\\x00"]],"mutations":[{"set":["\\xff/keyServers/k18","\\x01server0000000001\\x00"]}],"lock_aware":false}],
[{"snapshot":0,"reads":[],"writes":[["\\xff/keyServers/k19","\\xff/keyServers/k19\\x00"]],"mutations":[{"set":["\\xff/keyServers/k19","\\x01server0000000001\\x00"]}],"lock_aware":false}],
[{"snapshot":0,"reads":[],"writes":[["\\xff/keyServers/k20","\\xff/keyServers/k20\\x00"]],"mutations":[{"set":["\\xff/keyServers/k20","\\x01server0000000001\\x00"]}],"lock_aware":false}],
[{"snapshot":0,"reads":[],"writes":[["\\xff/keyServers/k21","\\xff/keyServers/k21\\x00"]],"mutations":[{"set":["\\xff/keyServers/k21","\\x01server0000000001\\x00"]}],"lock_aware":false}],
[{"snapshot":0,"reads":[],"writes":[["\\xff/keyServers/k22","\\xff/keyServers/k22\\x00"]],"mutations":[{"set":["\\xff/keyServers/k22","\\x01server0000000001\\x00"]}],"lock_aware":false}],
[{"snapshot":0,"reads":[],"writes":[["\\xff/keyServers/k23","\\xff/keyServers/k23\\x00"]],"mutations":[{"set":["\\xff/keyServers/k23","\\x01server0000000001\\x00"]}],"lock_aware":false}],
[{"snapshot":0,"reads":[],"writes":[["\\xff/keyServers/k24","\\xff/keyServers/k24\\x00"]],"mutations":[{"set":["\\xff/keyServers/k24","\\x01server0000000001\\x00"]}],"lock_aware":false}],
[{"snapshot":0,"reads":[],"writes":[["\\xff/keyServers/k25","\\xff/keyServers/k25\\x00"]],"mutations":[{"set":["\\xff/keyServers/k25","\\x01server0000000001\\x00"]}],"lock_aware":false}],
[{"snapshot":0,"reads":[],"writes":[["\\xff/keyServers/k26","\\xff/keyServers/k26\\x00"]],"mutations":[{"set":["\\xff/keyServers/k26","\\x01server0000000001\\x00"]}],"lock_aware":false}]]]}"#,
            1,
        )],
        expected: Expected::Whole(
            br#"batch 0 0 committed
batch 0 1 committed
batch 0 2 committed
batch 0 3 committed
batch 0 4 committed
batch 0 5 committed
batch 0 6 committed
batch 0 7 committed
batch 0 8 committed
batch 1 0 committed
batch 1 1 committed
batch 1 2 committed
batch 1 3 committed
batch 1 4 committed
batch 1 5 committed
batch 1 6 committed
batch 1 7 committed
batch 1 8 committed
batch 2 0 committed
batch 2 1 committed
batch 2 2 committed
batch 2 3 committed
batch 2 4 committed
batch 2 5 committed
batch 2 6 committed
batch 2 7 committed
batch 2 8 committed
closing 0 version 280
closing 1 version 290
closing 2 version 300
proxy 0
version 280
locked no
metadata_version none
route "k00" 0:1
route "k01" 0:1
route "k02" 0:1
route "k03" 0:1
route "k04" 0:1
route "k05" 0:1
route "k06" 0:1
route "k07" 0:1
route "k08" 0:1
route "k09" 0:1
route "k10" 0:1
route "k11" 0:1
route "k12" 0:1
route "k13" 0:1
route "k14" 0:1
route "k15" 0:1
route "k16" 0:1
route "k17" 0:1
route "k18" 0:1
route "k19" 0:1
route "k20" 0:1
route "k21" 0:1
route "k22" 0:1
route "k23" 0:1
route "k24" 0:1
route "k25" 0:1
route "k26" 0:1
tags "k13" 0:1
proxy 1
version 290
locked no
metadata_version none
route "k00" 0:1
route "k01" 0:1
route "k02" 0:1
route "k03" 0:1
route "k04" 0:1
route "k05" 0:1
route "k06" 0:1
route "k07" 0:1
route "k08" 0:1
route "k09" 0:1
route "k10" 0:1
route "k11" 0:1
route "k12" 0:1
route "k13" 0:1
route "k14" 0:1
route "k15" 0:1
route "k16" 0:1
route "k17" 0:1
route "k18" 0:1
route "k19" 0:1
route "k20" 0:1
route "k21" 0:1
route "k22" 0:1
route "k23" 0:1
route "k24" 0:1
route "k25" 0:1
route "k26" 0:1
tags "k13" 0:1
proxy 2
version 300
locked no
metadata_version none
route "k00" 0:1
route "k01" 0:1
route "k02" 0:1
route "k03" 0:1
route "k04" 0:1
route "k05" 0:1
route "k06" 0:1
route "k07" 0:1
route "k08" 0:1
route "k09" 0:1
route "k10" 0:1
route "k11" 0:1
route "k12" 0:1
route "k13" 0:1
route "k14" 0:1
route "k15" 0:1
route "k16" 0:1
route "k17" 0:1
route "k18" 0:1
route "k19" 0:1
route "k20" 0:1
route "k21" 0:1
route "k22" 0:1
route "k23" 0:1
route "k24" 0:1
route "k25" 0:1
route "k26" 0:1
tags "k13" 0:1
meet 0 1 behind
meet 0 2 behind
meet 1 2 behind
audit 0 ok
audit 1 ok
audit 2 ok
"#,
        ),
        status: 0,
    },
];
