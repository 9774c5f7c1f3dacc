//! What a delivery hands out of a row.

ghost use Rattle.std.specs.Prelude.{◌≡◌, Some};
ghost use Rattle.jm_machine.specs.Machine as machine;
ghost use Rattle.jm_machine.specs.Rows as spec;

use crate::answer::{Answer, Delivery};
use crate::state::Row;

/// A count of deliveries, one more; from 2,147,483,647 on it stays.
fn raised(count: u32) -> u32
    ensures { result ≡ spec.raised count }
{
    if count < 2_147_483_647 {
        count + 1
    } else {
        count
    }
}

impl Row {
    /// What is handed out of the row: its message, both parts read-only, with its count one more. Takes no
    /// memory.
    pub fn hand_out(self) -> Answer
        ensures { result ≡ machine.delivery (Some self) }
    {
        let mut message = self.message;
        message.protect();
        Answer::Delivered(Delivery {
            message,
            count: raised(self.count),
        })
    }
}
