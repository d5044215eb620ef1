//! The first ask that the host refused.

ghost use Rattle.std.specs.Prelude.{◌≡◌};
ghost use Rattle.std.specs.Option.{option_or};
ghost use Rattle.key_session.specs.Refusing.{code_on};

use channel_pump::state::Event;

/// The code of the first ask that the host refused, after one more event.
pub(crate) fn first_refusal(refusal: Option<u8>, is_awaited: bool, event: Event) -> Option<u8>
    ensures first { result ≡ option_or refusal (code_on is_awaited event) }
{
    if refusal.is_some() {
        return refusal;
    }
    match event {
        Event::Sorry(code) => { if is_awaited { Some(code) } else { None } }
        Event::Part | Event::Welcome | Event::Rows(_) | Event::Done | Event::Invalid { .. } => None,
    }
}
