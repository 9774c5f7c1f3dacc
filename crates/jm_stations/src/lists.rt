//! Many lists of rows over one table.

ghost use Rattle.std.specs.Prelude.{◌≡◌, ◌≤◌, ◌<◌, ℕ, [], true, not, nat_eq, All, length, slice_index_or, map, option_map, OnOk};
ghost use Rattle.std.specs.List.{IsDistinct};
ghost use Rattle.jm_dest.specs.Numbers.{long_end};
ghost use Rattle.jm_dest.specs.declared.key.Key.TheVariants.{Queue};
ghost use Rattle.jm_machine.specs.Attached.{ended};
ghost use Rattle.jm_machine.specs.Machine.{are_meant};
ghost use Rattle.jm_pending.specs.Counts.{IsCounted};
ghost use Rattle.jm_lane.specs.Rows.{IsRising, sent};
ghost use Rattle.jm_pending.specs.Rows.{Held};
ghost use Rattle.jm_lane.specs.Holders.{Covers, Follows, KeepsMessages, holders_of};
ghost use Rattle.jm_stations.specs.Backlogs.{changed_at};
ghost use Rattle.jm_stations.specs.Kept as kept;

use jm_dest::{ConsumerId, Key, Moment, SessionId};
use jm_gaps::GapList;
use jm_indexed::KeySet;
use jm_machine::{Attached, Consumers};
use jm_pending::{Held, Row, Table, Taken};
use std::alloc::AllocError;

/// Adds a row to each of the lists with those indexes.
pub(crate) fn offer_each(lists: &mut GapList<Held>, table: &mut Table, row: &Row, indexes: &[usize])
    requires place { row.now.place < long_end }
    requires priority { row.now.priority < 10 }
    requires within { All (λ i. i < length lists.old.items) indexes.now }
    requires once { IsDistinct nat_eq indexes.now }
    requires room { All (λ i. (d : Held) → 0 < (slice_index_or lists.old.items i d).room) indexes.now }
    requires above { All (λ (h : Held). kept.AreBelow row.now.place h.rows) lists.old.items }
    requires there { holders_of table.old row.now.place ≡ 1 }
    ensures lists { kept.IsOffered indexes.now row.now lists.old.items lists.new.items }
    ensures table { kept.FollowsAll table.old table.new (kept.all_rows lists.old.items) (kept.all_rows lists.new.items) }
{
    for index in indexes {
        let held = lists.at_mut(*index);
        held.add(table, Row { ..*row });
    }
}

/// Drops the expired waiting rows of the list with that index.
pub(crate) fn drop_expired(lists: &mut GapList<Held>, table: &mut Table, index: usize, now: Moment)
    requires within { index < length lists.old.items }
    requires covers { (d : Held) → Covers table.old (slice_index_or lists.old.items index d).rows }
    ensures lists { lists.new.items ≡ changed_at index (kept.dropped now) lists.old.items }
    ensures table { (d : Held) → Follows table.old table.new (slice_index_or lists.old.items index d).rows (kept.dropped now (slice_index_or lists.old.items index d)).rows }
    ensures rising { (d : Held) → IsRising (slice_index_or lists.old.items index d).rows }
{
    let held = lists.at_mut(index);
    held.drop_expired(table, now);
}

/// Drops the expired waiting rows of the list with that index, takes the one at that place, and settles it.
pub(crate) fn receive(
    lists: &mut GapList<Held>,
    table: &mut Table,
    index: usize,
    now: Moment,
    place: u64,
) -> Option<Taken>
    requires within { index < length lists.old.items }
    requires covers { (d : Held) → Covers table.old (slice_index_or lists.old.items index d).rows }
    ensures result { (d : Held) → result ≡ kept.taken table.old (kept.left_at place now (slice_index_or lists.old.items index d)) }
    ensures lists { lists.new.items ≡ changed_at index (kept.received_at place now) lists.old.items }
    ensures table { (d : Held) → Follows table.old table.new (slice_index_or lists.old.items index d).rows (kept.received_at place now (slice_index_or lists.old.items index d)).rows }
    ensures rising { (d : Held) → IsRising (slice_index_or lists.old.items index d).rows }
{
    let held = lists.at_mut(index);
    held.receive_at(table, now, place)
}

/// Drops the expired waiting rows of the list with that index, and sends the one at that place to the session through
/// its consumer.
pub(crate) fn deliver(
    lists: &mut GapList<Held>,
    table: &mut Table,
    index: usize,
    now: Moment,
    place: u64,
    session: SessionId,
    consumer: ConsumerId,
) -> Option<Row>
    requires within { index < length lists.old.items }
    requires covers { (d : Held) → Covers table.old (slice_index_or lists.old.items index d).rows }
    ensures result { (d : Held) → result ≡ option_map (sent session consumer) (kept.left_at place now (slice_index_or lists.old.items index d)) }
    ensures lists { lists.new.items ≡ changed_at index (kept.delivered_at place session consumer now) lists.old.items }
    ensures table { (d : Held) → Follows table.old table.new (slice_index_or lists.old.items index d).rows (kept.delivered_at place session consumer now (slice_index_or lists.old.items index d)).rows }
    ensures rising { (d : Held) → IsRising (slice_index_or lists.old.items index d).rows }
{
    let held = lists.at_mut(index);
    held.deliver_at(table, now, place, session, consumer)
}

/// The rows of the list with that index that are out through one of those consumers go.
pub(crate) fn settle_at(
    lists: &mut GapList<Held>,
    table: &mut Table,
    index: usize,
    which: &Consumers,
)
    requires within { index < length lists.old.items }
    requires covers { (d : Held) → Covers table.old (slice_index_or lists.old.items index d).rows }
    ensures lists { lists.new.items ≡ changed_at index (kept.settled_out (are_meant which.now)) lists.old.items }
    ensures table { (d : Held) → Follows table.old table.new (slice_index_or lists.old.items index d).rows (kept.settled_out (are_meant which.now) (slice_index_or lists.old.items index d)).rows }
{
    let held = lists.at_mut(index);
    held.settle(table, which);
}

/// The rows of the list with that index that are out through one of those consumers wait again.
pub(crate) fn give_back_at(lists: &mut GapList<Held>, index: usize, which: &Consumers)
    requires { index < length lists.old.items }
    ensures { lists.new.items ≡ changed_at index (kept.given_back (are_meant which.now)) lists.old.items }
{
    let held = lists.at_mut(index);
    held.give_back(which);
}

/// All rows of the list go, where it ends.
fn clear_where(held: &mut Held, table: &mut Table, ends: bool)
    requires { Covers table.old held.old.rows }
    ensures rows { held.new ≡ kept.cleared ends held.old }
    ensures table { Follows table.old table.new held.old.rows held.new.rows }
{
    if ends {
        held.clear(table);
    }
}

/// All rows go of the lists whose keys end with those consumers.
fn clear_each(
    lists: &mut GapList<Held>,
    table: &mut Table,
    keys: &KeySet<Key>,
    which: &Consumers,
    attached: &Attached,
)
    requires number { length keys.now.keys ≡ length lists.old.items }
    requires counted { IsCounted table.old (kept.all_rows lists.old.items) }
    ensures lists { lists.new.items ≡ kept.cleared_under (ended which.now attached.now) keys.now.keys lists.old.items }
    ensures counted { IsCounted table.new (kept.all_rows lists.new.items) }
    ensures messages { KeepsMessages table.old table.new }
    ensures spare { lists.new.spare ≡ lists.old.spare }
{
    for index in 0..lists.len() {
        let ends = attached.ends(which, keys.key_at(index));
        let held = lists.at_mut(index);
        clear_where(held, table, ends);
    }
}

/// Whether the key with that index does not end with those consumers.
fn stays(keys: &KeySet<Key>, index: usize, which: &Consumers, attached: &Attached) -> bool
    requires { index < length keys.now.keys }
    ensures { result ≡ not (ended which.now attached.now (slice_index_or keys.now.keys index (Queue []))) }
{
    !attached.ends(which, keys.key_at(index))
}

/// The lists whose keys end with those consumers go, the first of them first. Where no key ends no list is moved.
fn keep_each(lists: &mut GapList<Held>, keys: &KeySet<Key>, which: &Consumers, attached: &Attached)
    requires { length keys.now.keys ≡ length lists.old.items }
    ensures lists { lists.new.items ≡ kept.lists_under (λ k. not (ended which.now attached.now k)) keys.now.keys lists.old.items }
    ensures spare { lists.old.spare ≤ lists.new.spare }
{
    let mut at = 0;
    for index in 0..keys.len() {
        if stays(keys, index, which, attached) {
            at += 1;
        } else {
            let _gone = lists.remove(at);
        }
    }
}

/// The lists whose keys end with those consumers go with their rows.
pub(crate) fn close_each(
    lists: &mut GapList<Held>,
    table: &mut Table,
    keys: &KeySet<Key>,
    which: &Consumers,
    attached: &Attached,
)
    requires number { length keys.now.keys ≡ length lists.old.items }
    requires counted { IsCounted table.old (kept.all_rows lists.old.items) }
    ensures lists { lists.new.items ≡ kept.lists_under (λ k. not (ended which.now attached.now k)) keys.now.keys lists.old.items }
    ensures counted { IsCounted table.new (kept.all_rows lists.new.items) }
    ensures messages { KeepsMessages table.old table.new }
    ensures fewer { length lists.new.items ≤ length lists.old.items }
    ensures spare { lists.old.spare ≤ lists.new.spare }
{
    clear_each(lists, table, keys, which, attached);
    keep_each(lists, keys, which, attached);
}

/// Makes room for that many more rows in each of the lists with those indexes.
pub(crate) fn reserve_each(
    lists: &mut GapList<Held>,
    indexes: &[usize],
    additional: usize,
) -> Result<(), AllocError>
    requires within { All (λ i. i < length lists.old.items) indexes.now }
    ensures lists { kept.HasMoreRoom lists.old.items lists.new.items }
    ensures ok { OnOk result (All (λ i. (d : Held) → additional ≤ (slice_index_or lists.new.items i d).room) indexes.now) }
{
    for index in indexes {
        let held = lists.at_mut(*index);
        held.reserve(additional)?;
    }
    Ok(())
}
