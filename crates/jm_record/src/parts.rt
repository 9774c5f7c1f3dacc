ghost use Rattle.std.specs.Prelude.{◌≡◌, []};
ghost use Rattle.jm_format.specs.Reading as spec;
ghost use Rattle.jm_record.specs.Faults.{Reads};
ghost use Rattle.jm_record.specs.Heads.{seen_head};

use crate::fault::Fault;
use crate::head::Head;
use crate::reader::Reader;
use jm_dest::{ConnectionId, Destination, Moment, Number, SessionId};
use jm_format::{VERSION, VERSION_DELAYED};
use jm_header::{Body, Content, DeliveryMode, Sender};
use jm_property::{Properties, Property};
use jm_shared::{SharedBytes, SharedStr};
use std::alloc::Global;

/// The last number of a send.
const NUMBER_MAX: u64 = 0x7fff_ffff_ffff_ffff;

/// The least and the most of the tags that a property of that name may have.
fn tags_of(name: &str) -> (u8, u8)
    ensures { result ≡ spec.tags_of name.now }
{
    match name {
        "JMSXGroupID" => (6, 6),
        "JMSXGroupSeq" => (4, 4),
        _ => (1, 6),
    }
}

impl<'a> Reader<'a> {
    /// The session that sent the message.
    #[tactic(auto, unfolding(jm_format::specs::Reading::sender))]
    fn sender(&mut self) -> Result<Sender, Fault>
        ensures { Reads (λ sender. sender) (spec.sender self.old) result self.new }
    {
        let opening = Number::new(self.number()?)?;
        let connection = ConnectionId::new(self.number()?)?;
        let session = SessionId::new(connection, self.number()?)?;
        Ok(Sender { opening, session })
    }

    /// JMSDeliveryMode.
    #[tactic(auto, unfolding(jm_format::specs::Reading::mode))]
    fn mode(&mut self) -> Result<DeliveryMode, Fault>
        ensures { Reads (λ mode. mode) (spec.mode self.old) result self.new }
    {
        let mode = self.byte(0, 1)?;
        match mode {
            0 => Ok(DeliveryMode::NonPersistent),
            _ => Ok(DeliveryMode::Persistent),
        }
    }

    /// A text in memory of its own.
    fn owned_text(&mut self, alloc: Global) -> Result<SharedStr, Fault>
        ensures { Reads (λ text. text) (spec.text self.old) result self.new }
    {
        let text = self.text()?;
        Ok(SharedStr::from_str(alloc, text)?)
    }

    /// A mark and, where it is 1, a text.
    #[tactic(auto, unfolding(jm_format::specs::Reading::optional_text, jm_format::specs::Reading::marked_text))]
    fn optional_text(&mut self, alloc: Global) -> Result<Option<SharedStr>, Fault>
        ensures { Reads (λ text. text) (spec.optional_text self.old) result self.new }
    {
        let mark = self.byte(0, 1)?;
        match mark {
            0 => Ok(None),
            _ => Ok(Some(self.owned_text(alloc)?)),
        }
    }

    /// A tag and the body. The body is copied once.
    #[tactic(auto, unfolding(jm_format::specs::Reading::body, jm_format::specs::Reading::tagged_body))]
    fn body(&mut self, alloc: Global) -> Result<Body, Fault>
        ensures { Reads (λ body. body) (spec.body self.old) result self.new }
    {
        let tag = self.byte(0, 2)?;
        match tag {
            0 => Ok(Body::None),
            1 => Ok(Body::Text(self.owned_text(alloc)?)),
            _ => {
                let bytes = self.block()?;
                Ok(Body::Bytes(SharedBytes::from_slice(alloc, bytes)?))
            }
        }
    }

    /// JMSDestination.
    #[tactic(auto, unfolding(jm_format::specs::Reading::destination))]
    fn destination(&mut self, alloc: Global) -> Result<Destination, Fault>
        ensures { Reads (λ destination. destination) (spec.destination self.old) result self.new }
    {
        let kind = self.byte(0, 1)?;
        match kind {
            0 => Ok(Destination::Queue(self.name(alloc)?)),
            _ => Ok(Destination::Topic(self.name(alloc)?)),
        }
    }

    /// The value of a property of that tag.
    #[tactic(auto, unfolding(jm_format::specs::Reading::value))]
    fn value(&mut self, alloc: Global, tag: u8) -> Result<Property, Fault>
        ensures { Reads (λ value. value) (spec.value tag self.old) result self.new }
    {
        match tag {
            1 => Ok(Property::Bool(self.byte(0, 1)? == 1)),
            2 => Ok(Property::Byte(self.byte(0, 255)?.cast_signed())),
            3 => Ok(Property::Short(self.short()?.cast_signed())),
            4 => Ok(Property::Int(self.int()?.cast_signed())),
            5 => Ok(Property::Long(self.long(0, u64::MAX)?.cast_signed())),
            _ => Ok(Property::Text(self.owned_text(alloc)?)),
        }
    }

    /// A property, which is set after those before it.
    #[tactic(auto, using(jm_reading::proofs::Tables::appended), unfolding(jm_format::specs::Reading::property))]
    fn property(&mut self, alloc: Global, properties: &mut Properties) -> Result<(), Fault>
        ensures { Reads (λ _. properties.new) (spec.one_more properties.old self.old) result self.new }
    {
        let name = self.property_name(properties)?;
        let (least, most) = tags_of(name);
        let tag = self.byte(least, most)?;
        let value = self.value(alloc, tag)?;
        match properties.set(name, value) {
            Ok(()) => Ok(()),
            // The name may have that value, so only memory is refused.
            Err(_) => Err(Fault::Memory),
        }
    }

    /// So many properties.
    fn so_many_properties(&mut self, alloc: Global, count: u64) -> Result<Properties, Fault>
        ensures { Reads (λ properties. properties) (spec.properties_after count [] self.old) result self.new }
    {
        let mut properties = Properties::new(alloc);
        for _ in 0..count {
            self.property(alloc, &mut properties)?;
        }
        Ok(properties)
    }

    /// A count and so many properties.
    #[tactic(auto, unfolding(jm_format::specs::Reading::properties))]
    fn properties(&mut self, alloc: Global) -> Result<Properties, Fault>
        ensures { Reads (λ properties. properties) (spec.properties self.old) result self.new }
    {
        let count = self.long(0, u64::MAX)?;
        self.so_many_properties(alloc, count)
    }

    /// The delivery time in a record of that version, of a message of that timestamp: the timestamp where the version has
    /// none, else a moment after it.
    #[tactic(auto, unfolding(jm_format::specs::Reading::delivery_time))]
    fn delivery_time(&mut self, version: u8, timestamp: Moment) -> Result<Moment, Fault>
        ensures { Reads (λ moment. moment) (spec.delivery_time version timestamp self.old) result self.new }
    {
        if version == VERSION {
            return Ok(timestamp);
        }
        self.moment_after(timestamp)
    }

    /// The version and the fields up to JMSPriority.
    #[tactic(auto, unfolding(jm_format::specs::Reading::head))]
    fn head(&mut self) -> Result<Head, Fault>
        ensures { Reads seen_head (spec.head self.old) result self.new }
    {
        let version = self.byte(VERSION, VERSION_DELAYED)?;
        let sender = self.sender()?;
        let number = self.long(1, NUMBER_MAX)?;
        let timestamp = self.timestamp(version)?;
        let expiration = self.expiration(timestamp)?;
        let delivery_time = self.delivery_time(version, timestamp)?;
        let mode = self.mode()?;
        let priority = self.byte(0, 9)?;
        Ok(Head {
            sender,
            number,
            timestamp,
            expiration,
            delivery_time,
            mode,
            priority,
        })
    }

    /// A message.
    #[tactic(auto, unfolding(jm_format::specs::Reading::message))]
    pub(crate) fn message(&mut self, alloc: Global) -> Result<Content, Fault>
        ensures { Reads (λ message. message) (spec.message self.old) result self.new }
    {
        let head = self.head()?;
        let destination = self.destination(alloc)?;
        let correlation = self.optional_text(alloc)?;
        let message_type = self.optional_text(alloc)?;
        let body = self.body(alloc)?;
        let properties = self.properties(alloc)?;
        Ok(Content {
            sender: head.sender,
            number: head.number,
            destination,
            mode: head.mode,
            priority: head.priority,
            timestamp: head.timestamp,
            expiration: head.expiration,
            delivery_time: head.delivery_time,
            correlation,
            message_type,
            body,
            properties,
            is_body_read_only: false,
            are_properties_read_only: false,
        })
    }

    /// A message and nothing after it.
    #[tactic(auto, unfolding(jm_format::specs::Reading::whole))]
    pub(crate) fn whole(&mut self, alloc: Global) -> Result<Content, Fault>
        ensures { Reads (λ message. message) (spec.whole self.old) result self.new }
    {
        let message = self.message(alloc)?;
        if self.left() > 0 {
            return Err(Fault::Damaged);
        }
        Ok(message)
    }
}
