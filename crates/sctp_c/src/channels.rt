//! Data channels for C: the calls of the header `sctp_channels.h`, each over one `sctp_channels::Channels` (RFC 8831, RFC 8832).
//!
//! A handle, `SctpChannels`, is what `SctpEndpoint` is for an endpoint. Beside the channels it keeps the event that didn't fit its buffer, which is the
//! next one again. Contracts are those of the channels, for every state of the association and of the streams that they stand for (`HoldsChannels`).

mod buffered;
mod calls;
mod codes;
mod crossing;
mod early;
mod events;
mod handle;
mod held;
mod making;
mod opening;
mod packets;
mod sending;
mod slot;
mod status;
mod telling;
