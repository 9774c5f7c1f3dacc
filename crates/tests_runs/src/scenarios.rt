//! The scenarios that are run, and what is printed of them.

/// Has no calls.
pub(crate) const NONE: &str = "{\"calls\": []}";

/// The client k subscribes durably; a message is stored and received, and one is sent that is not stored.
pub(crate) const FIRST: &str = r#"{"calls": [
  {"op": "open", "c": 1, "client": "k"},
  {"op": "open", "c": 2},
  {"op": "session", "s": [1, 1], "mode": "client"},
  {"op": "session", "s": [2, 1], "mode": "auto"},
  {"op": "durable", "s": [1, 1], "k": 2, "topic": "t", "name": "n"},
  {"op": "start", "c": 1},
  {"op": "send", "s": [2, 1], "topic": "t", "now": 1000, "text": "a"},
  {"op": "send", "s": [2, 1], "topic": "t", "now": 1000, "persistent": false, "text": "b"},
  {"op": "receive", "s": [1, 1], "k": 2, "now": 1000}
]}"#;

pub(crate) const FIRST_LINES: &str = "1 ok
2 ok
3 ok
4 ok
5 ok
6 ok
7 sent 1
8 sent 2
9 message ID:1-2.1.1 count=1 redelivered=no priority=4 body=text \"a\"
";

/// The client k subscribes alike, receives twice, and once more after a send.
pub(crate) const SECOND: &str = r#"{"calls": [
  {"op": "open", "c": 1, "client": "k"},
  {"op": "open", "c": 2},
  {"op": "session", "s": [1, 1], "mode": "client"},
  {"op": "session", "s": [2, 1], "mode": "auto"},
  {"op": "durable", "s": [1, 1], "k": 2, "topic": "t", "name": "n"},
  {"op": "start", "c": 1},
  {"op": "receive", "s": [1, 1], "k": 2, "now": 1000},
  {"op": "receive", "s": [1, 1], "k": 2, "now": 1000},
  {"op": "send", "s": [2, 1], "topic": "t", "now": 1000, "text": "c"},
  {"op": "receive", "s": [1, 1], "k": 2, "now": 1000}
]}"#;

pub(crate) const SECOND_LINES: &str = "1 ok
2 ok
3 ok
4 ok
5 ok
6 ok
7 message ID:1-2.1.1 count=2 redelivered=yes priority=4 body=text \"a\"
8 none
9 sent 1
10 message ID:2-2.1.1 count=1 redelivered=no priority=4 body=text \"c\"
";

/// A send, and then the client k receives.
pub(crate) const FULL: &str = r#"{"calls": [
  {"op": "open", "c": 1, "client": "k"},
  {"op": "open", "c": 2},
  {"op": "session", "s": [1, 1], "mode": "auto"},
  {"op": "session", "s": [2, 1], "mode": "auto"},
  {"op": "durable", "s": [1, 1], "k": 2, "topic": "t", "name": "n"},
  {"op": "start", "c": 1},
  {"op": "send", "s": [2, 1], "topic": "t", "now": 1000, "text": "a"},
  {"op": "receive", "s": [1, 1], "k": 2, "now": 1000}
]}"#;

pub(crate) const FULL_LINES: &str = "1 ok
2 ok
3 ok
4 ok
5 ok
6 ok
7 refused Exhausted
8 message ID:1-1.1.1 count=1 redelivered=no priority=4 body=text \"hi\"
";

/// The clients k and m subscribe durably, and their sessions send at once, each to its own topic.
pub(crate) const FORKED: &str = r#"{"calls": [
  {"op": "open", "c": 1, "client": "k"},
  {"op": "open", "c": 2, "client": "m"},
  {"op": "session", "s": [1, 1], "mode": "auto"},
  {"op": "session", "s": [2, 1], "mode": "auto"},
  {"op": "durable", "s": [1, 1], "k": 1, "topic": "t", "name": "n"},
  {"op": "durable", "s": [2, 1], "k": 1, "topic": "u", "name": "n"},
  {"op": "fork"},
  {"op": "send", "s": [1, 1], "topic": "t", "now": 1000, "text": "a"},
  {"op": "send", "s": [2, 1], "topic": "u", "now": 1000, "text": "b"},
  {"op": "join"}
]}"#;

pub(crate) const FORKED_LINES: &str = "1 ok
2 ok
3 ok
4 ok
5 ok
6 ok
7 ok
8 sent 1
9 sent 1
10 ok
";

/// The clients k and m subscribe alike, and their sessions receive at once, and once more.
pub(crate) const JOINED: &str = r#"{"calls": [
  {"op": "open", "c": 1, "client": "k"},
  {"op": "open", "c": 2, "client": "m"},
  {"op": "session", "s": [1, 1], "mode": "auto"},
  {"op": "session", "s": [2, 1], "mode": "auto"},
  {"op": "durable", "s": [1, 1], "k": 1, "topic": "t", "name": "n"},
  {"op": "durable", "s": [2, 1], "k": 1, "topic": "u", "name": "n"},
  {"op": "start", "c": 1},
  {"op": "start", "c": 2},
  {"op": "fork"},
  {"op": "receive", "s": [1, 1], "k": 1, "now": 1000},
  {"op": "receive", "s": [2, 1], "k": 1, "now": 1000},
  {"op": "receive", "s": [2, 1], "k": 1, "now": 1000},
  {"op": "receive", "s": [1, 1], "k": 1, "now": 1000}
]}"#;

pub(crate) const JOINED_LINES: &str = "1 ok
2 ok
3 ok
4 ok
5 ok
6 ok
7 ok
8 ok
9 ok
10 message ID:1-1.1.1 count=1 redelivered=no priority=4 body=text \"a\"
11 message ID:1-2.1.1 count=1 redelivered=no priority=4 body=text \"b\"
12 none
13 none
";
