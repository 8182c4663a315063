//! Bytes that are kept until they go out in a chunk. Each type carries the fact that they fit one, so that building the chunk can't fail for it.

ghost use Rattle.std.specs.Prelude.{◌≡◌, ◌<◌, ◌+◌, ◌^◌, true, length, IfOk};
ghost use Rattle.sctp_model.specs.wire.Typed.{are_typed, AreAsWritten};

use sctp_opening::put_ack_report;
use sctp_terms::Config;
use sctp_values::NoMemory;
use sctp_wire::Parameters;
use std::alloc::Global;

/// The value of a HEARTBEAT, which the HEARTBEAT ACK returns (RFC 9260, 8.3).
#[derive(Drop)]
pub(crate) struct HeartbeatInfo {
    pub(crate) bytes: Vec<u8>,
    ghost small: { 4 + length bytes.items < 2 ^ 16 },
}

/// The cookie that a caller sends back (RFC 9260, 5.1, C).
#[derive(Drop)]
pub(crate) struct EchoedCookie {
    pub(crate) bytes: Vec<u8>,
    ghost small: { 4 + length bytes.items < 2 ^ 16 },
}

/// The causes that the next ERROR reports to the peer, as they are written there (RFC 9260, 3.3.10).
#[derive(Drop)]
pub(crate) struct WaitingCauses {
    pub(crate) bytes: Vec<u8>,
    ghost typed: { are_typed bytes.items ≡ true },
    ghost written: { AreAsWritten bytes.items },
    ghost small: { 4 + length bytes.items < 2 ^ 16 },
}

impl HeartbeatInfo {
    ghost use Rattle.std.specs.Prelude.{◌≡◌, ◌<◌, ◌+◌, ◌^◌, length, IfOk};

    /// A copy of the value.
    ///
    /// # Errors
    /// `NoMemory` if an allocation was refused.
    pub(crate) fn copied(alloc: Global, info: &[u8]) -> Result<HeartbeatInfo, NoMemory>
        requires { 4 + length info.now < 2 ^ 16 }
        ensures { IfOk result (λ h. h.bytes.items ≡ info.now) }
    {
        Ok(HeartbeatInfo {
            bytes: copy_of(alloc, info)?,
        })
    }
}

impl EchoedCookie {
    ghost use Rattle.std.specs.Prelude.{◌≡◌, ◌<◌, ◌+◌, ◌^◌, length, IfOk};

    /// A copy of the cookie.
    ///
    /// # Errors
    /// `NoMemory` if an allocation was refused.
    pub(crate) fn copied(alloc: Global, cookie: &[u8]) -> Result<EchoedCookie, NoMemory>
        requires { 4 + length cookie.now < 2 ^ 16 }
        ensures { IfOk result (λ c. c.bytes.items ≡ cookie.now) }
    {
        Ok(EchoedCookie {
            bytes: copy_of(alloc, cookie)?,
        })
    }
}

impl WaitingCauses {
    ghost use Rattle.std.specs.Prelude.{◌≡◌, [], IfOk};
    ghost use Rattle.sctp_model.specs.wire.Chunk.{InitMeaning};
    ghost use Rattle.sctp_model.specs.wire.Typed.{WritesTyped};
    ghost use Rattle.sctp_model.specs.end.EndView.{EndView};
    ghost use Rattle.sctp_model.specs.end.Opening.{ack_causes};

    /// No causes.
    #[tactic(auto, unfolding(sctp_model::specs::wire::Typed::typed_of))]
    pub(crate) fn none(alloc: Global) -> WaitingCauses
        ensures { result.bytes.items ≡ [] }
    {
        WaitingCauses {
            bytes: Vec::new(alloc),
        }
    }

    /// These causes, and after them one that reports the unrecognized parameters of an INIT ACK, if the ERROR with it fits a packet
    /// (RFC 9260, 3.3.10.8).
    ///
    /// # Errors
    /// `NoMemory` if an allocation was refused.
    pub(crate) fn with_ack_report(
        &self,
        alloc: Global,
        config: &Config,
        parameters: &Parameters<'_>,
    ) -> Result<WaitingCauses, NoMemory>
        ensures { (e : EndView) (m : InitMeaning) → e.configuration ≡ config.now → m.parameters ≡ parameters.now
            → WritesTyped self.now.bytes.items e.due.causes → IfOk result (λ w. WritesTyped w.bytes.items (ack_causes e m)) }
    {
        let mut bytes = copy_of(alloc, &self.bytes)?;
        put_ack_report(alloc, config, parameters, &mut bytes)?;
        Ok(WaitingCauses { bytes })
    }
}

/// A copy of these bytes.
fn copy_of(alloc: Global, bytes: &[u8]) -> Result<Vec<u8>, NoMemory>
    ensures { IfOk result (λ copy. copy.items ≡ bytes.now) }
{
    let mut copy = Vec::new(alloc);
    copy.extend_from_slice(bytes).map_err(|_| NoMemory)?;
    Ok(copy)
}
