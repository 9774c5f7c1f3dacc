ghost use Rattle.std.specs.Prelude.{◌≡◌, ◌+◌, ◌≤◌, ◌∷◌, ◌++◌, length, drop, decimal};
ghost use Rattle.jm_header.specs.MessageIds as spec;

use crate::content::Sender;
use crate::message::Message;
use itoa::write_digits;
use jm_dest::SessionId;
use std::marker::Model;

/// The longest text: the prefix, three numbers of up to 10 digits and one of up to 20, and between
/// them three separators.
const LENGTH_MAX: usize = 56;

/// The text of a JMSMessageID, in a buffer of its own.
#[derive(Drop)]
pub struct MessageIdText {
    bytes: [u8; LENGTH_MAX],
    start: usize,
}

impl Model for MessageIdText {
    ghost use Rattle.std.specs.Prelude.{List, ℕ, ◌≤◌, drop, IsAscii};
    ghost use Rattle.std.specs.Coded.{coded_list, coded_ℕ};

    ghost Value = { List ℕ };

    ghost coded = { coded_list coded_ℕ };

    ghost view = { λ t. drop t.start t.bytes };

    ghost invariant = { λ t. (t.start ≤ 56) × IsAscii (drop t.start t.bytes) };
}

impl MessageIdText {
    /// The text. Takes no memory.
    pub fn as_str(&self) -> &str
        ensures { result.now ≡ self.now }
    {
        match std::str::from_utf8(&self.bytes[self.start..]) {
            Ok(text) => text,
            Err(_) => "",
        }
    }
}

/// Writes a byte before that place, and returns where it stands.
fn write_byte(byte: u8, bytes: &mut [u8], end: usize) -> usize
    requires { (1 ≤ end) × (end ≤ length bytes.old) }
    ensures start { result + 1 ≡ end }
    ensures written { drop result bytes.new ≡ byte ∷ drop end bytes.old }
{
    let start = end - 1;
    bytes[start] = byte;
    start
}

/// Writes a separator and the number's digits after it, so that they end at that place, and returns
/// where they start.
fn write_part(separator: u8, number: u64, bytes: &mut [u8], end: usize) -> usize
    requires { (length (decimal number) + 1 ≤ end) × (end ≤ length bytes.old) }
    ensures start { result + length (decimal number) + 1 ≡ end }
    ensures written { drop result bytes.new ≡ separator ∷ (decimal number ++ drop end bytes.old) }
{
    let start = write_digits(number, bytes, end);
    write_byte(separator, bytes, start)
}

impl Message {
    /// The text of JMSMessageID (Jakarta Messaging 3.1, section 3.4.3; what follows `ID:` is ours).
    /// Takes no memory.
    #[tactic(auto, using(crate::proofs::Digits::at_most_20, crate::proofs::Digits::at_most_10))]
    pub fn message_id(&self) -> MessageIdText
        ensures { result ≡ spec.message_id self.now }
    {
        let Sender { opening, session } = self.sender();
        let SessionId { connection, number } = session;
        let mut bytes = [0; LENGTH_MAX];
        let end = write_part(b'.', self.number(), &mut bytes, LENGTH_MAX);
        let end = write_part(b'.', u64::from(number.get()), &mut bytes, end);
        let end = write_part(b'-', u64::from(connection.get()), &mut bytes, end);
        let end = write_part(b':', u64::from(opening.get()), &mut bytes, end);
        let end = write_byte(b'D', &mut bytes, end);
        let start = write_byte(b'I', &mut bytes, end);
        MessageIdText { bytes, start }
    }
}
