//! Makes a core of what was stored.

ghost use Rattle.std.specs.Prelude.{◌≡◌, ◌<◌, true, if◌then◌else◌, IfOk, IfErr};
ghost use Rattle.jm_base.specs.declared.refusal.Refusal.TheVariants.{OutOfRange, Memory};
ghost use Rattle.jm_plans.specs.Provider.{may_open, state_of};
ghost use Rattle.jm_parts.specs.Stored as spec;

use crate::state::{CoreState, is_limit};
use jm_base::Refusal;
use jm_dest::Number;
use jm_parts::reopen::{add_subscriptions, load_messages};
use jm_parts::stored::{StoredMessage, StoredSubscription};
use jm_queues::queues::Queues;
use jm_session::Sessions;
use jm_stations::Stations;
use jm_sub::Subs;
use std::alloc::Global;

impl CoreState {
    /// A core that is made of what was stored.
    pub fn reopen(
        alloc: Global,
        opening: u32,
        held_limit: u32,
        subscriptions: Vec<StoredSubscription>,
        messages: Vec<StoredMessage>,
    ) -> Result<CoreState, Refusal>
        requires { spec.MayReopen subscriptions.items messages.items }
        ensures ok { IfOk result (λ core. (state_of core ≡ spec.state_stored opening held_limit subscriptions.items messages.items)
            × (may_open opening held_limit ≡ true)) }
        ensures err { IfErr result (λ refusal. refusal ≡ (if may_open opening held_limit then Memory else OutOfRange)) }
    {
        let opening = Number::new(opening)?;
        if !is_limit(held_limit) {
            return Err(Refusal::OutOfRange);
        }
        let mut subs = Subs::new(alloc);
        let mut stations = Stations::new(alloc);
        let mut queues = Queues::new(alloc);
        add_subscriptions(&mut subs, &mut stations, subscriptions)?;
        load_messages(alloc, &mut stations, &mut queues, messages)?;
        Ok(CoreState {
            alloc,
            opening,
            limit: held_limit,
            sessions: Sessions::new(alloc),
            subs,
            stations,
            queues,
        })
    }
}
