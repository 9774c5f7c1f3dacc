//! The runs that are stopped.

use crate::database::Tables;
use crate::turns::{Deed, Run, Turn};
use jm_base::Mode;
use tests_calls::{At, Kind, Op};
use tests_databases::Part;

/// The row of the message a, which session 2.1 sends to the topic t as its first.
const A: &str =
    "1|01000000010000000200000001000000000000000100000000000003e800000000000000000104010000000000000001740000010000000000000001610000000000000000";

/// The row of the message c, which session 3.1 sends to t as its first.
const C: &str =
    "3|01000000010000000300000001000000000000000100000000000003e800000000000000000104010000000000000001740000010000000000000001630000000000000000";

/// The row of the message d, which session 3.1 sends to the queue q as its second.
const D: &str =
    "4|01000000010000000300000001000000000000000200000000000003e800000000000000000104000000000000000001710000010000000000000001640000000000000000";

/// The row of the message e, which session 3.1 sends to t as its third, with a delay of half a second.
const E: &str =
    "5|02000000010000000300000001000000000000000300000000000003e8000000000000000000000000000005dc0104010000000000000001740000010000000000000001650000000000000000";

/// The row of the message f, which session 2.1 sends to t as its third, with the property x.
const F: &str =
    "6|01000000010000000200000001000000000000000300000000000003e800000000000000000104010000000000000001740000010000000000000001660000000000000001000000000000000178050000000000000001";

/// The row of the message b, which session 2.1 of the second opening sends to t as its first, with a delay of half a second.
const B: &str =
    "2|02000000020000000200000001000000000000000100000000000003e8000000000000000000000000000005dc0104010000000000000001740000010000000000000001620000000000000000";

/// The row of the subscription n of the client k.
const N: &str = "2|k|n|0|t||0";

/// The row of the queue q.
const Q: &str = "1||q|0|||0";

const BLANK: Tables = Tables {
    meta: None,
    stations: None,
    messages: None,
    held: None,
    delays: None,
};

const OPENED: Tables = Tables {
    meta: Some(&["1|2|1"]),
    stations: Some(&[]),
    messages: Some(&[]),
    held: Some(&[]),
    delays: Some(&[]),
};

const SUBSCRIBED: Tables = Tables {
    meta: Some(&["1|2|1"]),
    stations: Some(&[N]),
    messages: Some(&[]),
    held: Some(&[]),
    delays: Some(&[]),
};

const SENT: Tables = Tables {
    meta: Some(&["1|2|1"]),
    stations: Some(&[N]),
    messages: Some(&[A]),
    held: Some(&["2|k|n|1|0"]),
    delays: Some(&[]),
};

const RECEIVED: Tables = Tables {
    meta: Some(&["1|2|1"]),
    stations: Some(&[N]),
    messages: Some(&[A]),
    held: Some(&["2|k|n|1|1"]),
    delays: Some(&[]),
};

const COMMITTED: Tables = Tables {
    meta: Some(&["1|2|1"]),
    stations: Some(&[Q, N]),
    messages: Some(&[A, C, D, E]),
    held: Some(&["1||q|4|0", "2|k|n|1|1", "2|k|n|3|0", "2|k|n|5|0"]),
    delays: Some(&["5|1500"]),
};

const ACKNOWLEDGED: Tables = Tables {
    meta: Some(&["1|2|1"]),
    stations: Some(&[Q, N]),
    messages: Some(&[C, D, E]),
    held: Some(&["1||q|4|0", "2|k|n|3|0", "2|k|n|5|0"]),
    delays: Some(&["5|1500"]),
};

const REPLACED: Tables = Tables {
    meta: Some(&["1|2|1"]),
    stations: Some(&[Q, "2|k|n|0|t|x > 0|0"]),
    messages: Some(&[D]),
    held: Some(&["1||q|4|0"]),
    delays: Some(&[]),
};

const SELECTED: Tables = Tables {
    meta: Some(&["1|2|1"]),
    stations: Some(&[Q, "2|k|n|0|t|x > 0|0"]),
    messages: Some(&[D, F]),
    held: Some(&["1||q|4|0", "2|k|n|6|0"]),
    delays: Some(&[]),
};

const UNSUBSCRIBED: Tables = Tables {
    meta: Some(&["1|2|1"]),
    stations: Some(&[Q]),
    messages: Some(&[D]),
    held: Some(&["1||q|4|0"]),
    delays: Some(&[]),
};

/// A subscription comes and a message; then a commit of three, an acknowledgement, another definition, a message for that, and the
/// end of the subscription.
pub(crate) static NEW: Run = Run {
    parts: &[],
    before: BLANK,
    opened: OPENED,
    opening: 1,
    turns: &[
        Turn {
            deed: Deed::Calls(Op::OpenFor(1, "k")),
            told: "ok",
            then: OPENED,
        },
        Turn {
            deed: Deed::Calls(Op::Session((1, 1), Mode::Client)),
            told: "ok",
            then: OPENED,
        },
        Turn {
            deed: Deed::Calls(Op::Named((1, 1), 2, Kind::Durable, "n", None)),
            told: "ok",
            then: SUBSCRIBED,
        },
        Turn {
            deed: Deed::Calls(Op::Start(1)),
            told: "ok",
            then: SUBSCRIBED,
        },
        Turn {
            deed: Deed::Calls(Op::Open(2)),
            told: "ok",
            then: SUBSCRIBED,
        },
        Turn {
            deed: Deed::Calls(Op::Session((2, 1), Mode::Auto)),
            told: "ok",
            then: SUBSCRIBED,
        },
        Turn {
            deed: Deed::Calls(Op::Send(2, "a", None)),
            told: "sent 1",
            then: SENT,
        },
        Turn {
            deed: Deed::SendsLightly(2, "b"),
            told: "sent 2",
            then: SENT,
        },
        Turn {
            deed: Deed::Calls(Op::Receive((1, 1), 2)),
            told: "a#1",
            then: RECEIVED,
        },
        Turn {
            deed: Deed::Calls(Op::Open(3)),
            told: "ok",
            then: RECEIVED,
        },
        Turn {
            deed: Deed::Calls(Op::Session((3, 1), Mode::Transacted)),
            told: "ok",
            then: RECEIVED,
        },
        Turn {
            deed: Deed::Calls(Op::Send(3, "c", None)),
            told: "sent 1",
            then: RECEIVED,
        },
        Turn {
            deed: Deed::Calls(Op::SendTo(3, At::Queue("q"), "d", None)),
            told: "sent 2",
            then: RECEIVED,
        },
        Turn {
            deed: Deed::Calls(Op::SendDelayed(3, At::Topic("t"), "e", 500, None)),
            told: "sent 3",
            then: RECEIVED,
        },
        Turn {
            deed: Deed::Calls(Op::Commit((3, 1))),
            told: "ok",
            then: COMMITTED,
        },
        Turn {
            deed: Deed::Calls(Op::Acknowledge((1, 1))),
            told: "ok",
            then: ACKNOWLEDGED,
        },
        Turn {
            deed: Deed::Calls(Op::CloseConsumer((1, 1), 2)),
            told: "ok",
            then: ACKNOWLEDGED,
        },
        Turn {
            deed: Deed::Calls(Op::Named((1, 1), 3, Kind::Durable, "n", Some("x > 0"))),
            told: "ok",
            then: REPLACED,
        },
        Turn {
            deed: Deed::Calls(Op::Send(2, "f", Some(1))),
            told: "sent 3",
            then: SELECTED,
        },
        Turn {
            deed: Deed::Calls(Op::CloseConsumer((1, 1), 3)),
            told: "ok",
            then: SELECTED,
        },
        Turn {
            deed: Deed::Calls(Op::Unsubscribe((1, 1), "n")),
            told: "ok",
            then: UNSUBSCRIBED,
        },
    ],
};

const BEFORE: Tables = Tables {
    meta: Some(&["1|1|1"]),
    stations: Some(&[N]),
    messages: Some(&[A]),
    held: Some(&["2|k|n|1|1"]),
    delays: None,
};

const CARRIED_OVER: Tables = Tables {
    meta: Some(&["1|2|2"]),
    stations: Some(&[N]),
    messages: Some(&[A]),
    held: Some(&["2|k|n|1|1"]),
    delays: Some(&[]),
};

const RECEIVED_AGAIN: Tables = Tables {
    meta: Some(&["1|2|2"]),
    stations: Some(&[N]),
    messages: Some(&[A]),
    held: Some(&["2|k|n|1|2"]),
    delays: Some(&[]),
};

const SENT_LATE: Tables = Tables {
    meta: Some(&["1|2|2"]),
    stations: Some(&[N]),
    messages: Some(&[A, B]),
    held: Some(&["2|k|n|1|2", "2|k|n|2|0"]),
    delays: Some(&["2|1500"]),
};

const ACKNOWLEDGED_AGAIN: Tables = Tables {
    meta: Some(&["1|2|2"]),
    stations: Some(&[N]),
    messages: Some(&[B]),
    held: Some(&["2|k|n|2|0"]),
    delays: Some(&["2|1500"]),
};

const ENDED: Tables = Tables {
    meta: Some(&["1|2|2"]),
    stations: Some(&[]),
    messages: Some(&[]),
    held: Some(&[]),
    delays: Some(&[]),
};

/// A store of version 1, in which the message a was delivered once: it comes again, a delayed one comes, and all goes.
pub(crate) static CARRIED: Run = Run {
    parts: &[
        Part::Bare,
        Part::Sql(
            "INSERT INTO meta VALUES (1, 1, 1); INSERT INTO station VALUES (2, 'k', 'n', 0, 't', '', 0); INSERT INTO message VALUES (1, x'01000000010000000200000001000000000000000100000000000003e800000000000000000104010000000000000001740000010000000000000001610000000000000000'); INSERT INTO held VALUES (2, 'k', 'n', 1, 1)",
        ),
    ],
    before: BEFORE,
    opened: CARRIED_OVER,
    opening: 2,
    turns: &[
        Turn {
            deed: Deed::Calls(Op::OpenFor(1, "k")),
            told: "ok",
            then: CARRIED_OVER,
        },
        Turn {
            deed: Deed::Calls(Op::Session((1, 1), Mode::Client)),
            told: "ok",
            then: CARRIED_OVER,
        },
        Turn {
            deed: Deed::Calls(Op::Named((1, 1), 2, Kind::Durable, "n", None)),
            told: "ok",
            then: CARRIED_OVER,
        },
        Turn {
            deed: Deed::Calls(Op::Start(1)),
            told: "ok",
            then: CARRIED_OVER,
        },
        Turn {
            deed: Deed::Calls(Op::Receive((1, 1), 2)),
            told: "a#2",
            then: RECEIVED_AGAIN,
        },
        Turn {
            deed: Deed::Calls(Op::Open(2)),
            told: "ok",
            then: RECEIVED_AGAIN,
        },
        Turn {
            deed: Deed::Calls(Op::Session((2, 1), Mode::Auto)),
            told: "ok",
            then: RECEIVED_AGAIN,
        },
        Turn {
            deed: Deed::Calls(Op::SendDelayed(2, At::Topic("t"), "b", 500, None)),
            told: "sent 1",
            then: SENT_LATE,
        },
        Turn {
            deed: Deed::Calls(Op::Acknowledge((1, 1))),
            told: "ok",
            then: ACKNOWLEDGED_AGAIN,
        },
        Turn {
            deed: Deed::Calls(Op::CloseConsumer((1, 1), 2)),
            told: "ok",
            then: ACKNOWLEDGED_AGAIN,
        },
        Turn {
            deed: Deed::Calls(Op::Unsubscribe((1, 1), "n")),
            told: "ok",
            then: ENDED,
        },
    ],
};
