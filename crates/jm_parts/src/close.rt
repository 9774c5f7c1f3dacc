//! What acknowledgement and closing do to the subscriptions and to what is held for them and by queues. Nothing here
//! takes memory, or fails.

ghost use Rattle.std.specs.Prelude.{◌≡◌, ◌≤◌, map};
ghost use Rattle.jm_machine.specs.Machine.{at_queues, of_session, settled_rows};
ghost use Rattle.jm_stations.specs.Backlogs.{kept_under, settled};
ghost use Rattle.jm_parts.specs.Closing.{acknowledged, acknowledged_queues, given_back, given_back_queues, is_kept, kept_keys, kept_subscriptions};
ghost use Rattle.jm_queues.specs.Queues.{rows_in};

use jm_base::Mode;
use jm_dest::SessionId;
use jm_machine::{Attached, Consumers};
use jm_queues::queues::Queues;
use jm_stations::Stations;
use jm_sub::Subs;

/// Settles what is out to the session, where the mode lets the client acknowledge; in any other it does nothing.
pub fn make_acknowledge(stations: &mut Stations, queues: &mut Queues, id: &SessionId, mode: Mode)
    ensures keys { stations.new.keys ≡ stations.old.keys }
    ensures list { stations.new.list ≡ acknowledged mode id.now stations.old.list }
    ensures next_place { stations.new.next_place ≡ stations.old.next_place }
    ensures queues { rows_in queues.new ≡ acknowledged_queues mode id.now (rows_in queues.old) }
    ensures queue_place { queues.new.next_place ≡ queues.old.next_place }
{
    match mode {
        Mode::Client => make_settle(stations, queues, id),
        Mode::Auto | Mode::Dups | Mode::Transacted => {}
    }
}

/// Settles what is out to the session. All room stays.
pub fn make_settle(stations: &mut Stations, queues: &mut Queues, id: &SessionId)
    ensures keys { stations.new.keys ≡ stations.old.keys }
    ensures list { stations.new.list ≡ map (settled (of_session id.now)) stations.old.list }
    ensures next_place { stations.new.next_place ≡ stations.old.next_place }
    ensures room { stations.old.message_room ≤ stations.new.message_room }
    ensures queue_keys { queues.new.keys ≡ queues.old.keys }
    ensures queue_list { queues.new.list ≡ map (settled (of_session id.now)) queues.old.list }
    ensures queues { rows_in queues.new ≡ at_queues (settled_rows (of_session id.now)) (rows_in queues.old) }
    ensures queue_place { queues.new.next_place ≡ queues.old.next_place }
    ensures queue_room { queues.old.message_room ≤ queues.new.message_room }
{
    let which = Consumers::OfSession(*id);
    stations.settle(&which);
    queues.settle(&which);
}

/// Lets what is out through the consumers wait again.
pub fn make_give_back(stations: &mut Stations, queues: &mut Queues, which: &Consumers)
    ensures keys { stations.new.keys ≡ stations.old.keys }
    ensures list { stations.new.list ≡ given_back which.now stations.old.list }
    ensures next_place { stations.new.next_place ≡ stations.old.next_place }
    ensures queues { rows_in queues.new ≡ given_back_queues which.now (rows_in queues.old) }
    ensures queue_place { queues.new.next_place ≡ queues.old.next_place }
{
    stations.give_back(which);
    queues.give_back(which);
}

/// Ends the subscriptions that end once these consumers are closed, where the numbers are of the active ones that are
/// left, with all that is held for them. Queues hold what they held.
pub fn make_end(subs: &mut Subs, stations: &mut Stations, which: &Consumers, attached: &Attached)
    ensures subs { subs.new.list ≡ kept_subscriptions (is_kept which.now attached.now) subs.old.list }
    ensures keys { stations.new.keys ≡ kept_keys (is_kept which.now attached.now) stations.old.keys }
    ensures list { stations.new.list ≡
        kept_under (is_kept which.now attached.now) stations.old.keys stations.old.list }
    ensures next_place { stations.new.next_place ≡ stations.old.next_place }
{
    subs.close(which, attached);
    stations.close(which, attached);
}
