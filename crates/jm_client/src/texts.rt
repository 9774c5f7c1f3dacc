//! Texts that a client hands in.

ghost use Rattle.std.specs.Prelude.{◌≡◌, IfOk, IfErr, if◌then◌else◌};
ghost use Rattle.std.specs.Option.{option_copied};
ghost use Rattle.jm_base.specs.declared.refusal.Refusal.TheVariants.{BadName, Memory};
ghost use Rattle.jm_client.specs.Told.{is_named};
ghost use Rattle.jm_dest.specs.Names.{is_name};

use jm_base::{Refusal, Str};
use jm_dest::{ClientId, SubscriptionName};
use std::alloc::{AllocError, Global};

/// A copy of the text, where there is one. `AllocError` where a request for memory was refused.
pub(crate) fn copied_text(alloc: Global, text: Option<&str>) -> Result<Option<Str>, AllocError>
    ensures { IfOk result (λ copy. copy ≡ option_copied text.entry) }
{
    match text {
        None => Ok(None),
        Some(text) => Ok(Some(Str::new(String::from_str(alloc, text)?))),
    }
}

/// The subscription name of the text. `BadName` where the text is no name, else `Memory` where a request for memory was refused.
pub(crate) fn subscription_named(alloc: Global, text: &str) -> Result<SubscriptionName, Refusal>
    ensures ok { IfOk result (λ name. name ≡ text.now) }
    ensures err { IfErr result (λ refusal. refusal ≡ (if is_name text.now then Memory else BadName)) }
{
    SubscriptionName::new(alloc, text)
}

/// The client identifier of the text, where there is one. `BadName` where the text is no name, else `Memory` where a request
/// for memory was refused.
pub(crate) fn client_named(alloc: Global, text: Option<&str>) -> Result<Option<ClientId>, Refusal>
    ensures ok { IfOk result (λ client. client ≡ option_copied text.entry) }
    ensures err { IfErr result (λ refusal. refusal ≡ (if is_named (option_copied text.entry) then Memory else BadName)) }
{
    match text {
        None => Ok(None),
        Some(text) => Ok(Some(ClientId::new(alloc, text)?)),
    }
}
