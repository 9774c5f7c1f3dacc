//! Plans of consumers of subscriptions that have names, and of their deletion.

ghost use Rattle.std.specs.Prelude.{◌≡◌, ◌≢◌, IfOk, IfErr, Some};
ghost use Rattle.jm_base.specs.declared.refusal.Refusal.TheVariants.{Memory};
ghost use Rattle.jm_plans.specs.Named.{IsNaming, IsPrepared, held_of, is_had, key_wanted};
ghost use Rattle.jm_parts.specs.Named.{asked_by, had_refusal};
ghost use Rattle.jm_plans.specs.Plans.{PlanFits};
ghost use Rattle.jm_plans.specs.Provider.{state_of};

use crate::plan::Change;
use crate::state::CoreState;
use jm_base::{Boxed, Refusal};
use jm_dest::{ConsumerId, Destination, Key, Name, SessionId, SubscriptionName};
use jm_machine::{Call, Request, Who};
use jm_parts::named::{Wanted, durable_key, is_home, key_of, may_ask, prepare_under};
use jm_session::Source;
use jm_sub::Decision;

/// A key. It is dropped by one call, so that a function with several ways out does not drop a key, variant by variant, on
/// each.
struct HeldKey {
    key: Key,
}

impl Drop for HeldKey {
    fn drop(self) {
        let HeldKey { key: _key } = self;
    }
}

impl HeldKey {
    fn into_key(self) -> Key
        ensures { result ≡ self.key }
    {
        let HeldKey { key } = self;
        key
    }
}

impl CoreState {
    /// Finds why the subscription that the session wants of the topic may not be had, and else decides it, and makes
    /// room for it and for a consumer.
    fn prepare_named(
        &mut self,
        session: &SessionId,
        topic: &Name,
        wanted: &Wanted,
    ) -> Result<(Boxed<Source>, Option<Boxed<(Key, Decision)>>), Refusal>
        ensures same { state_of self.new ≡ state_of self.old }
        ensures ok { IfOk result (λ x. IsPrepared self.new wanted.now.sharing
            (key_wanted (state_of self.new) session.now wanted.now)
            wanted.now.selector.now (asked_by topic.now wanted.now) x.0 x.1) }
        ensures err { IfErr result (λ refusal. refusal ≢ Memory →
            had_refusal wanted.now.selector.now (is_had wanted.now.sharing
            (key_wanted (state_of self.old) session.now wanted.now)
            (asked_by topic.now wanted.now) (state_of self.old)) ≡ Some refusal) }
    {
        let key = key_of(&self.sessions, session, wanted.name, wanted.sharing)?;
        let held = HeldKey { key };
        prepare_under(
            self.alloc,
            &mut self.sessions,
            &mut self.subs,
            &mut self.stations,
            &held.key,
            topic,
            wanted,
        )
    }

    /// Plans a consumer of a subscription that has a name, as that request of the session asks for it.
    pub(crate) fn plan_named(
        &mut self,
        session: &SessionId,
        id: ConsumerId,
        wanted: &Wanted,
    ) -> Result<Change, Refusal>
        ensures { (request : Request) → IsNaming (state_of self.old) session.now id wanted.now request →
            PlanFits self.old (Who.Session session.now) (Call.Ask request) result self.new }
    {
        if !may_ask(&self.sessions, session, id, wanted.sharing) {
            return Err(Refusal::IllegalState);
        }
        let Destination::Topic(topic) = wanted.destination else {
            return Err(Refusal::InvalidDestination);
        };
        let (source, decision) = self.prepare_named(session, topic, wanted)?;
        Ok(Change::CreateConsumer(*session, id, source, decision))
    }

    /// Plans the deletion of the durable subscription that the session means by the name.
    pub(crate) fn plan_unsubscribe(
        &self,
        session: &SessionId,
        name: &SubscriptionName,
    ) -> Result<Change, Refusal>
        ensures { PlanFits self.now (Who.Session session.now) (Call.Ask (Request.Unsubscribe name.now)) result self.now }
    {
        if !self.sessions.is_open(session) {
            return Err(Refusal::IllegalState);
        }
        let key = durable_key(&self.sessions, session, name)?;
        let held = HeldKey { key };
        let is_idle = self.sessions.is_idle(&held.key);
        let is_home = is_home(&self.stations, &held.key);
        self.subs.decide_unsubscribe(&held.key, is_idle, is_home)?;
        Ok(Change::Unsubscribe(held.into_key()))
    }
}
