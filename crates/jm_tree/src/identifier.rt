ghost use Rattle.std.specs.Prelude.{◌≡◌, nat_eq, IfOk};
ghost use Rattle.std.specs.Cmp.{partial_equiv_from_equiv};
ghost use Rattle.std.specs.Cmp.Lexicographic.{pointwise, nat_list_eq_equiv};
ghost use Rattle.jm_tree.specs.Names as spec;

use jm_base::Str;
use std::alloc::AllocError;
use std::fmt;
use std::marker::Model;

/// A header field that selectors see (Jakarta Messaging 3.1, section 3.8.1.1).
#[derive(Clone, Copy, Debug, PartialEq, Eq)]
pub enum Field {
    /// JMSDeliveryMode.
    DeliveryMode,
    /// JMSPriority.
    Priority,
    /// JMSTimestamp.
    Timestamp,
    /// JMSMessageID.
    MessageId,
    /// JMSCorrelationID.
    CorrelationId,
    /// JMSType.
    Type,
}

/// The header field of that name, if selectors see it.
fn field_of(name: &str) -> Option<Field>
    ensures { result ≡ spec.field_of name.now }
{
    if name == "JMSDeliveryMode" {
        Some(Field::DeliveryMode)
    } else if name == "JMSPriority" {
        Some(Field::Priority)
    } else if name == "JMSTimestamp" {
        Some(Field::Timestamp)
    } else if name == "JMSMessageID" {
        Some(Field::MessageId)
    } else if name == "JMSCorrelationID" {
        Some(Field::CorrelationId)
    } else if name == "JMSType" {
        Some(Field::Type)
    } else {
        None
    }
}

/// An identifier of a selector, beside the header field that it names, which is found once. Contracts see the name.
pub struct Identifier {
    name: Str,
    field: Option<Field>,
}

// (by hand, so that what holds one lets it go by one call)
impl Drop for Identifier {
    fn drop(self) {
        let Identifier {
            name: _name,
            field: _field,
        } = self;
    }
}

impl Model for Identifier {
    ghost use Rattle.std.specs.Prelude.{◌≡◌, List, ℕ};
    ghost use Rattle.std.specs.Coded.{coded_list, coded_ℕ};

    ghost Value = { List ℕ };

    ghost coded = { coded_list coded_ℕ };

    ghost use Rattle.jm_tree.specs.Names.{field_of};

    ghost view = { λ i. i.name };

    ghost invariant = { λ i. i.field ≡ field_of i.name };
}

impl Identifier {
    /// The name, moved in. Takes no memory.
    pub fn new(name: Str) -> Identifier
        ensures { result ≡ name }
    {
        let field = field_of(name.as_str());
        Identifier { name, field }
    }

    /// The name. Takes no memory.
    pub fn as_str(&self) -> &str
        ensures { result.now ≡ self.now }
    {
        self.name.as_str()
    }

    /// The header field of that name, if selectors see it. Takes no memory.
    pub fn field(&self) -> Option<Field>
        ensures { result ≡ spec.field_of self.now }
    {
        self.field
    }

    /// An equal identifier. `AllocError` where a request for memory was refused.
    pub fn copy(&self) -> Result<Identifier, AllocError>
        ensures { IfOk result (λ copy. copy ≡ self.now) }
    {
        Ok(Identifier {
            name: self.name.copy()?,
            field: self.field,
        })
    }
}

impl PartialEq for Identifier {
    ghost eq = { λ a b. pointwise nat_eq a b };

    ghost laws = { partial_equiv_from_equiv nat_list_eq_equiv };

    fn eq(&self, other: &Identifier) -> bool {
        self.name == other.name
    }
}

impl fmt::Debug for Identifier {
    fn fmt<W: fmt::Write>(&self, f: &mut fmt::Formatter<W>) -> fmt::Result {
        fmt::Debug::fmt(&self.name, f)
    }
}
