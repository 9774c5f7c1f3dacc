ghost use Rattle.std.specs.Prelude.{◌≡◌, ◌≢◌, ◌<◌, ◌^◌, Some, None, MatchResult, IfErr, option_copied, option_map, option_and_then, codes, nat_lt};
ghost use Rattle.serde_json.specs.Find.{get, as_array, as_bool, as_str, as_number, as_u64};
ghost use Rattle.serde_json.specs.View.{view};
ghost use Rattle.jm_fields.specs.Fields.{field_name};
ghost use Rattle.jm_fields.specs.Misfits.{misfit as why, misfit_in, misfit_or_missing, misfit_of_array, misfit_of_destination, misfit_of_numbers, misfit_of_session};
ghost use Rattle.jm_fields.specs.Reading.{Reads, ReadsExactly, where_true};
ghost use Rattle.jm_fields.specs.Values as spec;

use crate::field::Field;
use crate::misfit::Misfit;
use jm_base::{Mode, Refusal, Str};
use jm_dest::{
    ClientId, ConnectionId, ConsumerId, Destination, Moment, Name, SessionId, SubscriptionName,
};
use serde_json::Value;
use std::alloc::Global;

/// Why the value does not fit the field: a number that is no whole number of 64 bits is `Floating`.
pub(crate) fn misfit(value: &Value, field: Field) -> Misfit
    ensures { result ≡ why field (view value.now) }
{
    if value.is_f64() {
        Misfit::Floating
    } else {
        Misfit::Shape(field)
    }
}

/// The value of a field that has to stand.
fn required(object: &Value, field: Field) -> Result<&Value, Misfit>
    ensures { MatchResult result (λ value. get (field_name field) (view object.now) ≡ Some (view value.now))
        (λ misfit. (misfit ≡ Misfit.Shape field) × (get (field_name field) (view object.now) ≡ None)) }
{
    match object.get(field.name()) {
        Some(value) => Ok(value),
        None => Err(Misfit::Shape(field)),
    }
}

/// A number of 32 bits, which is not 0.
fn number(value: &Value, field: Field) -> Result<u32, Misfit>
    ensures reads { ReadsExactly result (spec.number (view value.now)) }
    ensures err { IfErr result (λ misfit. misfit ≡ why field (view value.now)) }
{
    match value.as_u64() {
        Some(0) => Err(Misfit::Shape(field)),
        Some(number) if number <= u32::MAX as u64 => Ok(number as u32),
        _ => Err(misfit(value, field)),
    }
}

/// The text of the field.
pub(crate) fn text(value: &Value, field: Field) -> Result<&str, Misfit>
    ensures { MatchResult result (λ text. as_str (view value.now) ≡ Some text.now)
        (λ misfit. (misfit ≡ why field (view value.now)) × (as_str (view value.now) ≡ None)) }
{
    match value.as_str() {
        Some(text) => Ok(text),
        None => Err(misfit(value, field)),
    }
}

/// The connection of that number, in that field.
fn connection_of(value: &Value, field: Field) -> Result<ConnectionId, Misfit>
    ensures reads { ReadsExactly result (spec.number (view value.now)) }
    ensures err { IfErr result (λ misfit. misfit ≡ why field (view value.now)) }
{
    let number = number(value, field)?;
    match ConnectionId::new(number) {
        Ok(id) => Ok(id),
        Err(_) => Err(Misfit::Shape(field)),
    }
}

/// The connection of the field `c`: 1 to 4,294,967,295.
pub fn connection(object: &Value) -> Result<ConnectionId, Misfit>
    ensures reads { ReadsExactly result (spec.required spec.number (codes "c") (view object.now)) }
    ensures err { IfErr result (λ misfit. misfit ≡ misfit_in Field.Connection (view object.now)) }
{
    connection_of(required(object, Field::Connection)?, Field::Connection)
}

/// The session of those two numbers, of its connection and of itself: each 1 to 4,294,967,295.
pub fn session_of(connection: &Value, number_value: &Value) -> Result<SessionId, Misfit>
    ensures reads { ReadsExactly result (spec.session_of_numbers (spec.number (view connection.now)) (spec.number (view number_value.now))) }
    ensures err { IfErr result (λ misfit. misfit ≡ misfit_of_numbers (view connection.now) (view number_value.now)) }
{
    let connection = connection_of(connection, Field::Session)?;
    let number = number(number_value, Field::Session)?;
    match SessionId::new(connection, number) {
        Ok(id) => Ok(id),
        Err(_) => Err(Misfit::Shape(Field::Session)),
    }
}

/// The session of that array.
fn session_in(value: &Value) -> Result<SessionId, Misfit>
    ensures reads { ReadsExactly result (spec.session (view value.now)) }
    ensures err { IfErr result (λ misfit. misfit ≡ misfit_of_array (view value.now) (as_array (view value.now))) }
{
    let Some(numbers) = value.as_array() else {
        return Err(misfit(value, Field::Session));
    };
    let numbers = numbers.as_slice();
    if numbers.len() != 2 {
        return Err(Misfit::Shape(Field::Session));
    }
    session_of(&numbers[0], &numbers[1])
}

/// The session of the field `s`: its connection, and its number there.
pub fn session(object: &Value) -> Result<SessionId, Misfit>
    ensures reads { ReadsExactly result (spec.required spec.session (codes "s") (view object.now)) }
    ensures err { IfErr result (λ misfit. misfit ≡ misfit_of_session (get (codes "s") (view object.now))) }
{
    session_in(required(object, Field::Session)?)
}

/// The consumer of that number: 1 to 4,294,967,295.
pub fn consumer_of(value: &Value) -> Result<ConsumerId, Misfit>
    ensures reads { ReadsExactly result (spec.number (view value.now)) }
    ensures err { IfErr result (λ misfit. misfit ≡ why Field.Consumer (view value.now)) }
{
    let number = number(value, Field::Consumer)?;
    match ConsumerId::new(number) {
        Ok(id) => Ok(id),
        Err(_) => Err(Misfit::Shape(Field::Consumer)),
    }
}

/// The consumer of the field `k`: 1 to 4,294,967,295.
pub fn consumer(object: &Value) -> Result<ConsumerId, Misfit>
    ensures reads { ReadsExactly result (spec.required spec.number (codes "k") (view object.now)) }
    ensures err { IfErr result (λ misfit. misfit ≡ misfit_in Field.Consumer (view object.now)) }
{
    consumer_of(required(object, Field::Consumer)?)
}

/// The session's mode of that name.
fn mode_named(name: &str) -> Result<Mode, Misfit>
    ensures reads { ReadsExactly result (spec.mode_named name.now) }
    ensures err { IfErr result (λ misfit. misfit ≡ Misfit.Shape Field.Mode) }
{
    match name {
        "auto" => Ok(Mode::Auto),
        "client" => Ok(Mode::Client),
        "dups" => Ok(Mode::Dups),
        "transacted" => Ok(Mode::Transacted),
        _ => Err(Misfit::Shape(Field::Mode)),
    }
}

/// The session's mode of the field `mode`: `auto`, `client`, `dups` or `transacted`.
pub fn mode(object: &Value) -> Result<Mode, Misfit>
    ensures reads { ReadsExactly result (spec.required spec.mode (codes "mode") (view object.now)) }
    ensures err { IfErr result (λ misfit. misfit ≡ misfit_in Field.Mode (view object.now)) }
{
    let value = required(object, Field::Mode)?;
    mode_named(text(value, Field::Mode)?)
}

/// The name of that text, in that field. `Memory` where a request for memory was refused.
fn name_of(alloc: Global, value: &Value, field: Field) -> Result<Name, Misfit>
    ensures reads { Reads result (spec.name (view value.now)) }
    ensures err { IfErr result (λ misfit. misfit ≢ Misfit.Memory → misfit ≡ why field (view value.now)) }
{
    match Name::new(alloc, text(value, field)?) {
        Ok(name) => Ok(name),
        Err(Refusal::Memory) => Err(Misfit::Memory),
        Err(_) => Err(Misfit::Shape(field)),
    }
}

/// The moment of that value.
fn moment_of(value: &Value, field: Field) -> Result<Moment, Misfit>
    ensures reads { ReadsExactly result (spec.moment (view value.now)) }
    ensures err { IfErr result (λ misfit. misfit ≡ why field (view value.now)) }
{
    let Some(milliseconds) = value.as_i64() else {
        return Err(misfit(value, field));
    };
    match Moment::new(milliseconds) {
        Ok(moment) => Ok(moment),
        Err(_) => Err(Misfit::Shape(field)),
    }
}

/// The moment of the field `now`, in milliseconds: 0 to 2^63-1.
pub fn now(object: &Value) -> Result<Moment, Misfit>
    ensures reads { ReadsExactly result (spec.required spec.moment (codes "now") (view object.now)) }
    ensures err { IfErr result (λ misfit. misfit ≡ misfit_in Field.Now (view object.now)) }
{
    moment_of(required(object, Field::Now)?, Field::Now)
}

/// The truth value of that field, which has to stand.
pub fn mark(object: &Value, field: Field) -> Result<bool, Misfit>
    ensures reads { ReadsExactly result (spec.required as_bool (field_name field) (view object.now)) }
    ensures err { IfErr result (λ misfit. misfit ≡ misfit_in field (view object.now)) }
{
    let value = required(object, field)?;
    match value.as_bool() {
        Some(truth) => Ok(truth),
        None => Err(misfit(value, field)),
    }
}

/// The value of a field that may be absent.
pub(crate) fn optional(object: &Value, field: Field) -> Option<&Value>
    ensures { option_map (λ value. view value.now) result ≡ get (field_name field) (view object.now) }
{
    object.get(field.name())
}

/// The destination of the field `queue` or `topic`. An object with both has none, as one without them; that is told at
/// `queue`. `Memory` where a request for memory was refused.
pub fn destination(alloc: Global, object: &Value) -> Result<Destination, Misfit>
    ensures reads { Reads result (spec.destination (view object.now)) }
    ensures err { IfErr result (λ misfit. misfit ≢ Misfit.Memory → misfit ≡ misfit_of_destination (get (codes "queue") (view object.now)) (get (codes "topic") (view object.now))) }
{
    match (
        optional(object, Field::Queue),
        optional(object, Field::Topic),
    ) {
        (Some(queue), None) => Ok(Destination::Queue(name_of(alloc, queue, Field::Queue)?)),
        (None, Some(topic)) => Ok(Destination::Topic(name_of(alloc, topic, Field::Topic)?)),
        (None, None) | (Some(_), Some(_)) => Err(Misfit::Shape(Field::Queue)),
    }
}

/// The client identifier of that value. `Memory` where a request for memory was refused.
fn client_of(alloc: Global, value: &Value) -> Result<ClientId, Misfit>
    ensures reads { Reads result (spec.name (view value.now)) }
    ensures err { IfErr result (λ misfit. misfit ≢ Misfit.Memory → misfit ≡ why Field.Client (view value.now)) }
{
    match ClientId::new(alloc, text(value, Field::Client)?) {
        Ok(client) => Ok(client),
        Err(Refusal::Memory) => Err(Misfit::Memory),
        Err(_) => Err(Misfit::Shape(Field::Client)),
    }
}

/// The client identifier of the field `client`, 1 to 255 bytes, where it stands. `Memory` where a request for memory was refused.
pub fn client(alloc: Global, object: &Value) -> Result<Option<ClientId>, Misfit>
    ensures reads { Reads result (spec.optional spec.name (codes "client") (view object.now)) }
    ensures err { IfErr result (λ misfit. misfit ≢ Misfit.Memory → misfit ≡ misfit_in Field.Client (view object.now)) }
{
    match optional(object, Field::Client) {
        Some(value) => Ok(Some(client_of(alloc, value)?)),
        None => Ok(None),
    }
}

/// The subscription's name of that value. `Memory` where a request for memory was refused.
fn subscription_of(alloc: Global, value: &Value) -> Result<SubscriptionName, Misfit>
    ensures reads { Reads result (spec.name (view value.now)) }
    ensures err { IfErr result (λ misfit. misfit ≢ Misfit.Memory → misfit ≡ why Field.Name (view value.now)) }
{
    match SubscriptionName::new(alloc, text(value, Field::Name)?) {
        Ok(name) => Ok(name),
        Err(Refusal::Memory) => Err(Misfit::Memory),
        Err(_) => Err(Misfit::Shape(Field::Name)),
    }
}

/// The subscription's name of the field `name`: 1 to 255 bytes. `Memory` where a request for memory was refused.
pub fn subscription(alloc: Global, object: &Value) -> Result<SubscriptionName, Misfit>
    ensures reads { Reads result (spec.required spec.name (codes "name") (view object.now)) }
    ensures err { IfErr result (λ misfit. misfit ≢ Misfit.Memory → misfit ≡ misfit_in Field.Name (view object.now)) }
{
    subscription_of(alloc, required(object, Field::Name)?)
}

/// The truth value of the field `noLocal`, and false where it does not stand.
pub fn no_local(object: &Value) -> Result<bool, Misfit>
    ensures reads { ReadsExactly result (spec.no_local (view object.now)) }
    ensures err { IfErr result (λ misfit. misfit ≡ misfit_in Field.NoLocal (view object.now)) }
{
    let Some(value) = optional(object, Field::NoLocal) else {
        return Ok(false);
    };
    match value.as_bool() {
        Some(truth) => Ok(truth),
        None => Err(misfit(value, Field::NoLocal)),
    }
}

/// The text of a field that may be absent.
pub(crate) fn optional_text(object: &Value, field: Field) -> Result<Option<&str>, Misfit>
    ensures { MatchResult result (λ found. spec.optional as_str (field_name field) (view object.now) ≡ Some (option_copied found)) (λ misfit. (misfit ≡ misfit_in field (view object.now))
        × (spec.optional as_str (field_name field) (view object.now) ≡ None)) }
{
    match optional(object, field) {
        Some(value) => Ok(Some(text(value, field)?)),
        None => Ok(None),
    }
}

/// The text of the field `selector`, where it stands. `Memory` where a request for memory was refused.
pub fn selector(alloc: Global, object: &Value) -> Result<Option<Str>, Misfit>
    ensures reads { Reads result (spec.optional as_str (codes "selector") (view object.now)) }
    ensures err { IfErr result (λ misfit. misfit ≢ Misfit.Memory → misfit ≡ misfit_in Field.Selector (view object.now)) }
{
    match optional_text(object, Field::Selector)? {
        Some(text) => Ok(Some(Str::new(String::from_str(alloc, text)?))),
        None => Ok(None),
    }
}

/// A limit of held rows: 1 to 1,000,000.
fn limit(value: &Value) -> Result<u32, Misfit>
    ensures reads { ReadsExactly result (spec.limit (view value.now)) }
    ensures err { IfErr result (λ misfit. misfit ≡ why Field.Held (view value.now)) }
{
    match value.as_u64() {
        Some(number) if 1 <= number && number <= 1_000_000 => Ok(number as u32),
        _ => Err(misfit(value, Field::Held)),
    }
}

/// The limit of held rows of that field `held`, where it stands: 1 to 1,000,000.
pub fn held(value: &Option<Value>) -> Result<Option<u32>, Misfit>
    ensures reads { ReadsExactly result (spec.absent_or spec.limit (option_map view value.now)) }
    ensures err { IfErr result (λ misfit. misfit ≡ misfit_or_missing Field.Held (option_map view value.now)) }
{
    match value {
        Some(value) => Ok(Some(limit(value)?)),
        None => Ok(None),
    }
}
