//! What is handed out of a row that a delivery took.

ghost use Rattle.std.specs.Prelude.{◌≡◌, Some};
ghost use Rattle.jm_stations.specs.Backlogs as spec;

use jm_base::Boxed;
use jm_header::Message;
use jm_machine::{Answer, Delivery};
use jm_pending::{Row, Taken};

/// What is handed out of a message that was delivered so often.
fn delivered(mut message: Message, count: u32) -> Answer
    ensures { result ≡ spec.told count (Some message) }
{
    message.protect();
    Answer::Delivered(Delivery { message, count })
}

/// What is handed out of a row that was delivered so often, by the copy of its message, where one is there.
fn told(count: u32, copy: Option<Boxed<Message>>) -> Answer
    ensures { result ≡ spec.told count copy }
{
    let Some(copy) = copy else {
        return Answer::Nothing;
    };
    delivered(copy.into_inner(), count)
}

/// What is handed out of a row that may have been taken: its message, or the copy where the message stays held.
pub(crate) fn handed_out(taken: Option<Taken>, copy: Option<Boxed<Message>>) -> Answer
    ensures { result ≡ spec.handed_over taken copy }
{
    let Some(Taken { row, message }) = taken else {
        return Answer::Nothing;
    };
    let Some(message) = message else {
        return told(row.count, copy);
    };
    delivered(message, row.count)
}

/// What is handed out of a row that went out, where there is one: the copy stands for its message.
pub(crate) fn sent_out(row: Option<Row>, copy: Option<Boxed<Message>>) -> Answer
    ensures { result ≡ spec.handed_copy row copy }
{
    let Some(row) = row else {
        return Answer::Nothing;
    };
    told(row.count, copy)
}
