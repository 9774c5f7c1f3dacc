ghost use Rattle.std.specs.Prelude.{◌≡◌, ◌++◌, codes, decimal, string_bytes, IfOk};
ghost use Rattle.jm_scenario.specs.Lines as spec;

use jm_header::Body;
use jm_machine::{Answer, Delivery, Reply};
use serde_json::Value;
use std::alloc::{AllocError, Global};

/// The text of a body. `AllocError` where a request for memory was refused.
fn body_text(alloc: Global, body: &Body) -> Result<String, AllocError>
    ensures { IfOk result (λ text. string_bytes text ≡ spec.body_text body.now) }
{
    match body {
        Body::None => String::from_str(alloc, "none"),
        Body::Text(text) => {
            let quoted = Value::try_from_str(alloc, text.as_str())?.to_string(alloc)?;
            format!(in alloc; "text {quoted}")
        }
        Body::Bytes(bytes) => {
            let pairs = hex::encode(alloc, bytes.as_bytes())?;
            format!(in alloc; "bytes {pairs}")
        }
    }
}

/// `yes` from the second delivery on.
fn redelivered_text(count: u32) -> &'static str
    ensures { result.now ≡ spec.redelivered_text count }
{
    if count >= 2 { "yes" } else { "no" }
}

/// The message's identifier, the count of its deliveries and its mark. `AllocError` where a request
/// for memory was refused.
fn delivery_head(alloc: Global, delivery: &Delivery) -> Result<String, AllocError>
    ensures { IfOk result (λ text. string_bytes text ≡ spec.delivery_head delivery.now) }
{
    let id = delivery.message.message_id();
    let id = id.as_str();
    let count = delivery.count;
    let redelivered = redelivered_text(count);
    format!(in alloc; "message {id} count={count} redelivered={redelivered}")
}

/// The text of a delivery. `AllocError` where a request for memory was refused.
fn delivery_text(alloc: Global, delivery: &Delivery) -> Result<String, AllocError>
    ensures { IfOk result (λ text. string_bytes text ≡ spec.delivery_text delivery.now) }
{
    let head = delivery_head(alloc, delivery)?;
    let priority = delivery.message.priority();
    let body = body_text(alloc, delivery.message.body())?;
    format!(in alloc; "{head} priority={priority} body={body}")
}

/// The text of a reply. `AllocError` where a request for memory was refused.
fn reply_text(alloc: Global, reply: &Reply) -> Result<String, AllocError>
    ensures { IfOk result (λ text. string_bytes text ≡ spec.reply_text reply.now) }
{
    match reply {
        Ok(Answer::Done) => String::from_str(alloc, "ok"),
        Ok(Answer::Sent(number)) => format!(in alloc; "sent {number}"),
        Ok(Answer::Nothing) => String::from_str(alloc, "none"),
        Ok(Answer::Missed(number)) => format!(in alloc; "missed {number}"),
        Ok(Answer::Delivered(delivery)) => delivery_text(alloc, delivery),
        Err(refusal) => format!(in alloc; "refused {refusal}"),
    }
}

/// The line of the reply to the call of that number. `AllocError` where a request for memory was
/// refused.
pub fn write_reply(alloc: Global, number: usize, reply: &Reply) -> Result<String, AllocError>
    ensures { IfOk result (λ text. string_bytes text ≡ spec.line number reply.now) }
{
    let text = reply_text(alloc, reply)?;
    format!(in alloc; "{number} {text}\n")
}

/// The lines of the replies, in order, numbered from 1. `AllocError` where a request for memory was
/// refused.
pub fn write_replies(alloc: Global, replies: &[Reply]) -> Result<String, AllocError>
    ensures { IfOk result (λ text. string_bytes text ≡ spec.lines replies.now) }
{
    let mut lines = String::new(alloc);
    for (index, reply) in replies.iter().enumerate() {
        let line = write_reply(alloc, index + 1, reply)?;
        lines.push_str(line.as_str())?;
    }
    Ok(lines)
}
