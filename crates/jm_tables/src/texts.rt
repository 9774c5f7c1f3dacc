//! The texts that make the tables and their index (ours), in the order in which they are made. The order gives each its place
//! among the trees of a database.

ghost use Rattle.std.specs.Prelude.{◌≡◌, Ok};
ghost use Rattle.sqlite.specs.Compile.{index_defined_by, table_defined_by};
ghost use Rattle.jm_tables.specs.Schema as made;
ghost use Rattle.jm_tables.specs.Made as spec;

/// Makes the table of the version of the schema and the number of the last opening: one row.
pub fn meta() -> &'static str
    ensures text { result.now ≡ spec.meta_text }
    ensures table { table_defined_by result.now ≡ Ok (record made.meta { tree = 0 }) }
{
    "CREATE TABLE meta (id INTEGER PRIMARY KEY CHECK (id = 1), version INTEGER NOT NULL, opening INTEGER NOT NULL) STRICT"
}

/// Makes the table of queues (family 1) and durable subscriptions (family 2; an empty client is none).
pub fn station() -> &'static str
    ensures text { result.now ≡ spec.station_text }
    ensures table { table_defined_by result.now ≡ Ok (record made.station { tree = 0 }) }
{
    "CREATE TABLE station (family INTEGER NOT NULL, client TEXT NOT NULL, name TEXT NOT NULL, shared INTEGER NOT NULL, topic TEXT NOT NULL, selector TEXT NOT NULL, no_local INTEGER NOT NULL, PRIMARY KEY (family, client, name)) STRICT"
}

/// Makes the table of messages: the record of each, by place.
pub fn message() -> &'static str
    ensures text { result.now ≡ spec.message_text }
    ensures table { table_defined_by result.now ≡ Ok (record made.message { tree = 0 }) }
{
    "CREATE TABLE message (place INTEGER PRIMARY KEY, record BLOB NOT NULL) STRICT"
}

/// Makes the table of rows: which queues and durable subscriptions hold a message, and how often it was delivered there.
pub fn held() -> &'static str
    ensures text { result.now ≡ spec.held_text }
    ensures table { table_defined_by result.now ≡ Ok (record made.held { tree = 0 }) }
{
    "CREATE TABLE held (family INTEGER NOT NULL, client TEXT NOT NULL, name TEXT NOT NULL, place INTEGER NOT NULL REFERENCES message(place), deliveries INTEGER NOT NULL CHECK (deliveries >= 0), PRIMARY KEY (family, client, name, place), FOREIGN KEY (family, client, name) REFERENCES station(family, client, name)) STRICT"
}

/// Makes the index of rows by place, without which each message that goes would cost a look at all rows.
pub fn held_by_place() -> &'static str
    ensures text { result.now ≡ spec.held_by_place_text }
    ensures index { index_defined_by made.held result.now ≡ Ok (record made.held_by_place { tree = 0 }) }
{
    "CREATE INDEX held_by_place ON held (place)"
}

/// Makes the table of the moments, in milliseconds, at which delayed messages become due.
pub fn delayed() -> &'static str
    ensures text { result.now ≡ spec.delayed_text }
    ensures table { table_defined_by result.now ≡ Ok (record made.delayed { tree = 0 }) }
{
    "CREATE TABLE delayed (place INTEGER PRIMARY KEY REFERENCES message(place), due INTEGER NOT NULL CHECK (due > 0)) STRICT"
}
