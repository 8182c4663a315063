//! The configuration that C passes in, and numbers that are reserved.

ghost use Rattle.std.specs.Prelude.{◌≡◌, ◌+◌, ◌==◌, ◌&&◌, Some, false, MatchResult};
ghost use Rattle.sctp_model.specs.end.Configured.{configuration_fault};
ghost use Rattle.sctp_model.specs.numbers.Limits.{LEAST_WAIT};
ghost use Rattle.sctp_terms.specs.Meanings.{config_fault_meaning, config_code};
ghost use Rattle.sctp_c.specs.Asked.{asked_by, is_zeroed, has_control, has_fast, has_reset, are_flags, is_free, least_of};

use crate::codes::{BAD_CONFIG, CONGESTION_CONTROL, FAST_RETRANSMIT, STREAM_RESET};
use crate::crossing::SctpConfig;
use sctp_endpoint::{Config, ConfigFault};

/// Whether reserved numbers are all 0.
pub(crate) fn is_zeroed(reserved: &[u32; 4]) -> bool
    ensures { result ≡ is_zeroed reserved.now }
{
    let [first, second, third, fourth] = *reserved;
    first == 0 && second == 0 && third == 0 && fourth == 0
}

/// Whether flags have congestion control (RFC 9260, 7.2).
fn has_control(flags: u32) -> bool
    ensures { result ≡ has_control flags }
{
    flags & CONGESTION_CONTROL != 0
}

/// Whether flags have fast retransmit (RFC 9260, 7.2.4), which congestion control brings.
fn has_fast(flags: u32) -> bool
    ensures { result ≡ has_fast flags }
{
    has_control(flags) || flags & FAST_RETRANSMIT != 0
}

/// Whether flags have stream reset (RFC 6525).
fn has_reset(flags: u32) -> bool
    ensures { result ≡ has_reset flags }
{
    flags & STREAM_RESET != 0
}

/// Whether each flag has a meaning.
fn are_flags(flags: u32) -> bool
    ensures { result ≡ are_flags flags }
{
    flags <= FAST_RETRANSMIT + CONGESTION_CONTROL + STREAM_RESET
}

/// Whether each flag of a configuration has a meaning, and its reserved numbers are 0.
pub(crate) fn is_free(asked: &SctpConfig) -> bool
    ensures { result ≡ is_free asked.now }
{
    let [first, second] = asked.reserved;
    are_flags(asked.flags) && (first == 0 && second == 0)
}

/// The configuration of these numbers.
///
/// # Errors
/// The first fault, in the order of the header.
pub(crate) fn config_of(asked: &SctpConfig) -> Result<Config, ConfigFault>
    ensures { MatchResult result (λ config. config ≡ asked_by asked.now)
        (λ fault. configuration_fault (asked_by asked.now) ≡ Some (config_fault_meaning fault)) }
{
    let config = Config::new(
        asked.own_port,
        asked.peer_port,
        asked.packet_limit,
        asked.fragment,
        asked.buffer,
        asked.outbound,
        asked.inbound,
    )?;
    let config = extended(config, asked.interleave, asked.partial);
    let config = closing(config, asked.delay, asked.standard_closing);
    let config = paced(config, asked.flags);
    let config = resetting(config, asked.flags);
    Ok(waiting(config, asked.rto_min))
}

/// The configuration that offers these extensions too.
fn extended(config: Config, interleave: bool, partial: bool) -> Config
    requires interleave { config.interleave ≡ false }
    requires partial { config.partial ≡ false }
    ensures { result ≡ record config { interleave = interleave; partial = partial } }
{
    match (interleave, partial) {
        (false, false) => config,
        (false, true) => config.with_partial(),
        (true, false) => config.with_interleave(),
        (true, true) => config.with_interleave().with_partial(),
    }
}

/// The configuration that delays its SACKs so, and that closes so.
fn closing(config: Config, delay: bool, standard_closing: bool) -> Config
    requires delay { config.delay ≡ false }
    requires closing { config.standard_closing ≡ false }
    ensures { result ≡ record config { delay = delay; standard_closing = standard_closing } }
{
    match (delay, standard_closing) {
        (false, false) => config,
        (false, true) => config.with_standard_closing(),
        (true, false) => config.with_delay(),
        (true, true) => config.with_delay().with_standard_closing(),
    }
}

/// The configuration that has what these flags ask for.
fn paced(config: Config, flags: u32) -> Config
    requires fast { config.fast_retransmit ≡ false }
    requires control { config.congestion_control ≡ false }
    ensures { result ≡ record config { fast_retransmit = has_fast flags; congestion_control = has_control flags } }
{
    if has_control(flags) {
        return config.with_congestion_control();
    }
    if has_fast(flags) {
        config.with_fast_retransmit()
    } else {
        config
    }
}

/// The configuration that asks for stream reset if these flags do.
fn resetting(config: Config, flags: u32) -> Config
    requires { config.reset ≡ false }
    ensures { result ≡ record config { reset = has_reset flags } }
{
    if has_reset(flags) {
        config.with_reset()
    } else {
        config
    }
}

/// The configuration with this RTO.Min in milliseconds; 0 leaves it at 1,000.
fn waiting(config: Config, rto_min: u32) -> Config
    requires { config.least_wait ≡ LEAST_WAIT }
    ensures { result ≡ record config { least_wait = least_of rto_min } }
{
    match rto_min {
        0 => config,
        milliseconds => config.with_rto_min(milliseconds),
    }
}

/// The result for what is wrong with a configuration.
pub(crate) fn config_answer(fault: ConfigFault) -> u32
    ensures { result ≡ BAD_CONFIG + config_code (config_fault_meaning fault) }
{
    BAD_CONFIG + u32::from(fault.code())
}
