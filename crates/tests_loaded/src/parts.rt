//! What makes the databases of these tests.

use tests_databases::Part;

/// The tables are of version 2, in opening 1.
pub(crate) const LAST: Part = Part::Sql("INSERT INTO meta VALUES (1, 2, 1)");

/// The client k has the subscription n to the topic t.
pub(crate) const N: Part = Part::Sql("INSERT INTO station VALUES (2, 'k', 'n', 0, 't', '', 0)");

/// The queue q.
pub(crate) const Q: Part = Part::Sql("INSERT INTO station VALUES (1, '', 'q', 0, '', '', 0)");

/// At place 1 the text hi to the topic t, with the long 1 as property x.
pub(crate) const HI: Part = Part::Sql(
    "INSERT INTO message VALUES (1, x'01000000010000000100000001000000000000000100000000000003e80000000000000000010401000000000000000174000001000000000000000268690000000000000001000000000000000178050000000000000001')",
);

/// The same at place 2.
pub(crate) const HI_AGAIN: Part = Part::Sql(
    "INSERT INTO message VALUES (2, x'01000000010000000100000001000000000000000100000000000003e80000000000000000010401000000000000000174000001000000000000000268690000000000000001000000000000000178050000000000000001')",
);

/// The same at the greatest place.
pub(crate) const HI_LAST: Part = Part::Sql(
    "INSERT INTO message VALUES (9223372036854775807, x'01000000010000000100000001000000000000000100000000000003e80000000000000000010401000000000000000174000001000000000000000268690000000000000001000000000000000178050000000000000001')",
);

/// At place 3 the text b to the queue q.
pub(crate) const QUEUED: Part = Part::Sql(
    "INSERT INTO message VALUES (3, x'01000000010000000200000001000000000000000200000000000003e800000000000000000104000000000000000001710000010000000000000001620000000000000000')",
);

/// The same at place 4.
pub(crate) const QUEUED_AGAIN: Part = Part::Sql(
    "INSERT INTO message VALUES (4, x'01000000010000000200000001000000000000000200000000000003e800000000000000000104000000000000000001710000010000000000000001620000000000000000')",
);

/// At place 5 the text c to the topic t, with a delay of half a second.
pub(crate) const LATE: Part = Part::Sql(
    "INSERT INTO message VALUES (5, x'02000000010000000200000001000000000000000300000000000003e8000000000000000000000000000005dc0104010000000000000001740000010000000000000001630000000000000000')",
);

/// The same at place 6.
pub(crate) const LATE_AGAIN: Part = Part::Sql(
    "INSERT INTO message VALUES (6, x'02000000010000000200000001000000000000000300000000000003e8000000000000000000000000000005dc0104010000000000000001740000010000000000000001630000000000000000')",
);

/// The text at place 5 becomes due then.
pub(crate) const DUE: Part = Part::Sql("INSERT INTO delayed VALUES (5, 1500)");

/// The subscription n holds what is at place 1.
pub(crate) const HOLDS_HI: Part = Part::Sql("INSERT INTO held VALUES (2, 'k', 'n', 1, 0)");

/// The subscription n holds what is at place 2.
pub(crate) const HOLDS_HI_AGAIN: Part = Part::Sql("INSERT INTO held VALUES (2, 'k', 'n', 2, 0)");

/// The subscription n holds what is at place 5.
pub(crate) const HOLDS_LATE: Part = Part::Sql("INSERT INTO held VALUES (2, 'k', 'n', 5, 0)");

/// The subscription n holds what is at place 6.
pub(crate) const HOLDS_LATE_AGAIN: Part = Part::Sql("INSERT INTO held VALUES (2, 'k', 'n', 6, 0)");
