//! How long messages are retransmitted on a channel of each type (RFC 8832, 5.1).

ghost use Rattle.std.specs.Prelude.{◌≡◌};
ghost use Rattle.sctp_channels.specs.Calling.{until_by, limit_by};

use crate::stream::ChannelType;

/// The end of the lifetime of a message that is sent at this time, on a channel of this type.
pub(crate) fn until_by(kind: ChannelType, parameter: u32, now: u64) -> Option<u64>
    ensures { result ≡ until_by kind parameter now }
{
    match kind {
        ChannelType::Timed | ChannelType::TimedUnordered => {
            Some(now.saturating_add(u64::from(parameter)))
        }
        ChannelType::Reliable
        | ChannelType::ReliableUnordered
        | ChannelType::Rexmit
        | ChannelType::RexmitUnordered => None,
    }
}

/// How often a message may be retransmitted on a channel of this type.
pub(crate) fn limit_by(kind: ChannelType, parameter: u32) -> Option<u16>
    ensures { result ≡ limit_by kind parameter }
{
    match kind {
        ChannelType::Rexmit | ChannelType::RexmitUnordered => {
            Some(u16::try_from(parameter).unwrap_or(u16::MAX))
        }
        ChannelType::Reliable
        | ChannelType::ReliableUnordered
        | ChannelType::Timed
        | ChannelType::TimedUnordered => None,
    }
}
