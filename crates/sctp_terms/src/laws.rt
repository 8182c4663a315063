//! Law: which configurations have no fault.

ghost use Rattle.std.specs.Prelude.{◌≡◌, ◌<◌, ◌^◌, None};
ghost use Rattle.sctp_model.specs.end.EndView.{Configuration};
ghost use Rattle.sctp_model.specs.end.Configured.{IsConfiguration, HasBoundedOptions, configuration_fault};

/// A configuration with ports of 16 bits has no fault if and only if it and its options are within their limits.
pub fn faultless_is_configured()
    ensures within { (c : Configuration) → c.own_port < 2 ^ 16 → c.peer_port < 2 ^ 16 → configuration_fault c ≡ None → IsConfiguration c × HasBoundedOptions c }
    ensures faultless { (c : Configuration) → IsConfiguration c → HasBoundedOptions c → configuration_fault c ≡ None }
{}
