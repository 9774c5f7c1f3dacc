ghost use Rattle.std.specs.Prelude.{◌≡◌, IfOk, IfErr, IsTrue, if◌then◌else◌};
ghost use Rattle.jm_base.specs.declared.refusal.Refusal.TheVariants.{Memory, BadName};
ghost use Rattle.std.specs.List.{list_all};
ghost use Rattle.jm_dest.specs.Names as spec;

use jm_base::Refusal;
use jm_shared::SharedStr;
use std::alloc::{AllocError, Global};
use std::marker::Model;

/// A name of 1 to 255 bytes of UTF-8, none below 0x20 and none 0x7F (ours).
#[derive(Clone, Debug, PartialEq, Eq, PartialOrd, Ord, Hash)]
pub struct Name {
    text: SharedStr,
}

impl Drop for Name {
    fn drop(self) {
        let Name { text: _text } = self;
    }
}

impl Model for Name {
    ghost use Rattle.std.specs.Prelude.{List, ℕ, IsTrue};
    ghost use Rattle.std.specs.Coded.{coded_list, coded_ℕ};
    ghost use Rattle.jm_dest.specs.Names.{is_name};

    ghost Value = { List ℕ };

    ghost coded = { coded_list coded_ℕ };

    ghost view = { λ n. n.text };

    ghost invariant = { λ n. IsTrue (is_name n.text) };

    ghost inverse = { λ bytes. record { text = bytes } };
}

fn are_name_bytes(bytes: &[u8]) -> bool
    ensures { result ≡ list_all spec.is_name_byte bytes.now }
{
    bytes.iter().all(|byte| *byte >= 0x20 && *byte != 0x7f)
}

fn is_name(text: &str) -> bool
    ensures { result ≡ spec.is_name text.now }
{
    !text.is_empty() && text.len() <= 255 && are_name_bytes(text.as_bytes())
}

impl Name {
    /// The name of that text. `BadName` where the text is empty, longer than 255 bytes, or has a
    /// byte below 0x20 or 0x7F; else `Memory` where a request for memory was refused.
    pub fn new(alloc: Global, text: &str) -> Result<Name, Refusal>
        ensures ok { IfOk result (λ name. (name ≡ text.now) × IsTrue (spec.is_name text.now)) }
        ensures err { IfErr result (λ refusal. refusal ≡ (if spec.is_name text.now then Memory else BadName)) }
    {
        if !is_name(text) {
            return Err(Refusal::BadName);
        }
        Ok(Name {
            text: SharedStr::from_str(alloc, text)?,
        })
    }

    /// The text of the name.
    pub fn as_str(&self) -> &str
        ensures text { result.now ≡ self.now }
        ensures valid { IsTrue (spec.is_name self.now) }
    {
        self.text.as_str()
    }

    /// An equal name, over the same text. Takes no memory; `AllocError` where the text has 9,223,372,036,854,775,807 owners.
    pub fn copy(&self) -> Result<Name, AllocError>
        ensures { IfOk result (λ copy. copy ≡ self.now) }
    {
        self.clone()
    }
}

/// The client identifier of a connection (Jakarta Messaging 3.1, section 6.1.2): a name.
#[derive(Clone, Debug, PartialEq, Eq, PartialOrd, Ord, Hash)]
pub struct ClientId {
    identifier: Name,
}

impl Drop for ClientId {
    fn drop(self) {
        let ClientId {
            identifier: _identifier,
        } = self;
    }
}

impl Model for ClientId {
    ghost use Rattle.std.specs.Prelude.{List, ℕ};
    ghost use Rattle.std.specs.Coded.{coded_list, coded_ℕ};

    ghost Value = { List ℕ };

    ghost coded = { coded_list coded_ℕ };

    ghost view = { λ c. c.identifier };

    ghost inverse = { λ bytes. record { identifier = bytes } };
}

impl ClientId {
    /// The client identifier of that text. `BadName` where the text is no name, else `Memory` where
    /// a request for memory was refused.
    pub fn new(alloc: Global, text: &str) -> Result<ClientId, Refusal>
        ensures ok { IfOk result (λ client. (client ≡ text.now) × IsTrue (spec.is_name text.now)) }
        ensures err { IfErr result (λ refusal. refusal ≡ (if spec.is_name text.now then Memory else BadName)) }
    {
        let identifier = Name::new(alloc, text)?;
        Ok(ClientId { identifier })
    }

    /// The text of the identifier.
    pub fn as_str(&self) -> &str
        ensures { result.now ≡ self.now }
    {
        self.identifier.as_str()
    }

    /// An equal identifier, over the same text. Takes no memory; `AllocError` where the text has 9,223,372,036,854,775,807 owners.
    pub fn copy(&self) -> Result<ClientId, AllocError>
        ensures { IfOk result (λ copy. copy ≡ self.now) }
    {
        self.clone()
    }
}

/// The name of a durable or shared subscription (Jakarta Messaging 3.1, section 4.2): a name.
#[derive(Clone, Debug, PartialEq, Eq, PartialOrd, Ord, Hash)]
pub struct SubscriptionName {
    name: Name,
}

impl Drop for SubscriptionName {
    fn drop(self) {
        let SubscriptionName { name: _name } = self;
    }
}

impl Model for SubscriptionName {
    ghost use Rattle.std.specs.Prelude.{List, ℕ};
    ghost use Rattle.std.specs.Coded.{coded_list, coded_ℕ};

    ghost Value = { List ℕ };

    ghost coded = { coded_list coded_ℕ };

    ghost view = { λ s. s.name };

    ghost inverse = { λ bytes. record { name = bytes } };
}

impl SubscriptionName {
    /// The subscription name of that text. `BadName` where the text is no name, else `Memory` where
    /// a request for memory was refused.
    pub fn new(alloc: Global, text: &str) -> Result<SubscriptionName, Refusal>
        ensures ok { IfOk result (λ name. (name ≡ text.now) × IsTrue (spec.is_name text.now)) }
        ensures err { IfErr result (λ refusal. refusal ≡ (if spec.is_name text.now then Memory else BadName)) }
    {
        let name = Name::new(alloc, text)?;
        Ok(SubscriptionName { name })
    }

    /// The text of the name.
    pub fn as_str(&self) -> &str
        ensures { result.now ≡ self.now }
    {
        self.name.as_str()
    }

    /// An equal name, over the same text. Takes no memory; `AllocError` where the text has 9,223,372,036,854,775,807 owners.
    pub fn copy(&self) -> Result<SubscriptionName, AllocError>
        ensures { IfOk result (λ copy. copy ≡ self.now) }
    {
        self.clone()
    }
}
