//! The requests among the parameters of a RE-CONFIG (RFC 6525, 3.1).

ghost use Rattle.std.specs.Prelude.{◌≡◌, ◌∷◌, ℕ, false, MatchOption, IfSome};
ghost use Rattle.sctp_reconfig.specs.Meanings.{parameter_meaning};
ghost use Rattle.sctp_reconfig.specs.Reading.{ListAtMost};
ghost use Rattle.sctp_recv.specs.inner.Requesting.{DoesNothing, ActAs, DoNothing};

use sctp_reconfig::{Parameter, Parameters};

/// Whether a parameter is a request.
fn is_request(parameter: &Parameter<'_>) -> bool
    ensures { result ≡ false → DoesNothing (parameter_meaning parameter.now) }
{
    matches!(
        parameter,
        Parameter::Reset(_) | Parameter::OtherRequest { number: _ }
    )
}

/// The first request, if there is one: the parameters after it are left.
pub(crate) fn first_request<'a>(parameters: &mut Parameters<'a>) -> Option<Parameter<'a>>
    ensures acts { MatchOption result (DoNothing parameters.old) (λ p. ActAs parameters.old (parameter_meaning p ∷ parameters.new)) }
    ensures lists { (n : ℕ) → ListAtMost n parameters.old → IfSome result (λ p. ListAtMost n (parameter_meaning p ∷ parameters.new)) }
{
    while let Some(parameter) = parameters.next() {
        if is_request(&parameter) {
            return Some(parameter);
        }
    }
    None
}
