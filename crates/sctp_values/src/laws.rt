//! Law: the constants of this crate are the limits of the definitions.

ghost use Rattle.sctp_values.specs.SameLimits.{AreTheLimits};

/// Each constant of this crate is the limit of that name in the definitions.
pub fn limits_are_the_definitions()
    ensures { AreTheLimits }
{}
