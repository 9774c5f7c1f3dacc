ghost use Rattle.std.specs.Prelude.{◌≡◌, ◌+◌, ◌<◌, ◌≤◌, MatchResult};
ghost use Rattle.jm_base.specs.declared.refusal.Refusal.TheVariants.{OutOfRange};
ghost use Rattle.jm_dest.specs.Numbers.{long_end};
ghost use Rattle.jm_header.specs.Headers.{stamped, expiration_of};

use crate::content::{Content, Sender, Settings};
use crate::draft::Draft;
use crate::message::Message;
use jm_base::Refusal;
use jm_dest::{Destination, Moment};

const NUMBER_MAX: u64 = 0x7fff_ffff_ffff_ffff;

/// The moment so many milliseconds later. `OutOfRange` exactly where it is past 9,223,372,036,854,775,807.
fn later(now: Moment, milliseconds: u64) -> Result<Moment, Refusal>
    requires { milliseconds < long_end }
    ensures { MatchResult result
        (λ moment. (moment ≡ now + milliseconds) × (now + milliseconds < long_end))
        (λ refusal. (refusal ≡ OutOfRange) × (long_end ≤ now + milliseconds)) }
{
    let moment = now.get() + milliseconds;
    if moment > NUMBER_MAX {
        return Err(Refusal::OutOfRange);
    }
    Moment::new(moment as i64)
}

/// The expiration of what is sent at that moment. `OutOfRange` exactly where the timestamp and the
/// time to live together are past 9,223,372,036,854,775,807.
fn expiration(time_to_live: u64, now: Moment) -> Result<Moment, Refusal>
    requires { time_to_live < long_end }
    ensures { MatchResult result
        (λ moment. (moment ≡ expiration_of time_to_live now) × (now + time_to_live < long_end))
        (λ refusal. (refusal ≡ OutOfRange) × (long_end ≤ now + time_to_live)) }
{
    let end = later(now, time_to_live)?;
    if time_to_live == 0 {
        return Moment::new(0);
    }
    Ok(end)
}

/// The message that the draft becomes when its session sends it as the send of that number at that
/// moment, from which its delivery delay counts, also where the session is transacted. `OutOfRange` exactly
/// where the number is 0 or past 9,223,372,036,854,775,807, or the timestamp is past it together with the
/// time to live, or with the delivery delay; then the draft is dropped. Takes no memory.
pub fn stamp(
    draft: Draft,
    destination: Destination,
    sender: Sender,
    number: u64,
    now: Moment,
) -> Result<Message, Refusal>
    ensures { result ≡ stamped draft destination sender number now }
{
    let (alloc, settings) = draft.into_settings();
    if number == 0 || number > NUMBER_MAX {
        return Err(Refusal::OutOfRange);
    }
    let expiration = expiration(settings.time_to_live, now)?;
    let delivery_time = later(now, settings.delivery_delay)?;
    let Settings {
        mode,
        priority,
        time_to_live: _,
        delivery_delay: _,
        correlation,
        message_type,
        body,
        properties,
    } = settings;
    Ok(Message::new(
        alloc,
        Content {
            sender,
            number,
            destination,
            mode,
            priority,
            timestamp: now,
            expiration,
            delivery_time,
            correlation,
            message_type,
            body,
            properties,
            is_body_read_only: false,
            are_properties_read_only: false,
        },
    ))
}
