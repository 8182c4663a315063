//! Data channels (RFC 8831) and their establishment (RFC 8832) over an endpoint.
//!
//! [`Channels`] owns its `Endpoint` and keeps 24 bytes for each stream, and 8 more once a low threshold was set. It has no queue of its own: what is sent
//! is queued by the endpoint, what was received waits there, and a label is returned with the event that says it. A call looks at the streams between the
//! lowest and the highest on which there may be something to do, and at no others; what is closed or low is looked for once after each change. Each call
//! makes calls of the endpoint, which its contract lists: `specs/Streams` says what is kept, `specs/Coming` what a message does to its stream,
//! `specs/Calling` and `specs/Settling` which calls are made, `specs/Buffered` how much is buffered, `specs/Events` what is reported next. A channel is
//! closed by the reset of its stream in both directions (RFC 8831, 6.7): whatever the peer sent before it reset the stream is reported before
//! `Event::Closed`, and what it sends after that waits until then.
//! A further reset is kept until then, too. Where the peer resets a stream without a channel that was reported, or begins what opens none, this side's half is
//! reset, and nothing is reported once both are.
//!
//! | promise | contract |
//! |---|---|
//! | new channels represent the endpoint as it is, and no channel | [`Channels::new`]: `fresh_table` |
//! | a channel is opened on the stream asked for, or on the lowest that is free of this side's, by one OPEN; or it is refused for the first reason that applies, and nothing changed | [`Channels::open`]: `Opens`, `open_choice` |
//! | a negotiated channel is open at once, and nothing is sent for it | [`Channels::open_negotiated`]: `OpensNegotiated` |
//! | a message is sent by one call, with the identifier, the user data, the order and the limits of its content and its channel, after the ACK if that is due | [`Channels::send`]: `Sends`, `content_call` |
//! | the buffered amount is that of the endpoint's queued messages of user data on the stream | [`Channels::buffered_amount`]: `buffered` |
//! | a low threshold is set, and reported once each time that the amount was above it and isn't any more | [`Channels::set_buffered_amount_low_threshold`]: `SetsThreshold`; [`Channels::send`]: `with_look`; [`Channels::next_event`]: `is_low` |
//! | a channel is closed by the reset of this side's half | [`Channels::close`]: `Closes` |
//! | the next event is a function of the endpoint's state and the streams; after an allocation failure nothing changed | [`Channels::next_event`]: `next_told` |
//! | the next event, if it is a message for which a buffer has space, is copied to that buffer; else nothing changed | [`Channels::next_message_into`]: `Writes` |
//! | a packet is handled as the endpoint handles it, and each reset of the peer is noted; a stream that is closed without a channel that was reported is free | [`Channels::handle_packet`]: `Hears`, `noted_and_swept` |
//! | what is due is passed to the endpoint before its next packet | [`Channels::poll_transmit`]: `Transmit`, `settled_all` |
//! | calls that are passed on are the endpoint's, and the streams stay as they are | [`Channels::connect`], [`Channels::on_moment`], [`Channels::abandon`], [`Channels::shutdown`], [`Channels::abort`] |
//! | each call says what is counted, as those of the endpoint do: a packet that is received, sent or aborts, and nothing else | clause `counts` of each |
//! | buffers handed back, and memory given back, change nothing | [`Channels::recycle`], [`Channels::recycle_tickets`], [`Channels::give_back`], [`Channels::trim`] |
//! | the longest message to announce to the peer is a quarter of the receive buffer | [`Channels::max_message_size`] |
//!
//! Over runs of two endpoints (`sctp_outcomes`), whose calls tables of channels make (`specs/Driven`), these laws are proved; each is a function without a body:
//!
//! | law | contract |
//! |---|---|
//! | on each stream the contents that are reported are those of messages that were taken, each of one, in their order; messages are matched one to one with those that the peer's user sent, text with text and with the same bytes, the ordered ones in order; and whenever a channel is reported closed while the association lives, the peer's user had reset the stream, what was taken until then was accepted before that, and what is delivered later after it | [`channels_are_faithful`] |
//! | any two contents that are reported of a stream, without a report between that a channel of it is closed, are of two messages between which the peer's user had no reset of the stream accepted, where each reset was noted whenever a packet arrived, as calls do | [`channels_are_one`] |
//! | a content that is reported is in the message that waited first on its stream, and that is taken | [`contents_are_taken`] |
//! | the place of a reset in the stream is noted, and stays until the channel is reported closed | [`resets_are_noted`] |
//! | the place of a further reset is noted, too, and stays; once the channel is reported closed, it is that of the stream's next channel | [`second_resets_are_kept`] |
//! | a channel is reported closed once all before the place was taken, and nothing after it | [`closed_at_the_place`] |
//! | once all resets are noted, as after each packet, none is left to be reported | [`resets_are_all_noted`] |
//! | each call makes events that are steps of the world and drive the table, and what it sends is in the bag of its endpoint; calls at both endpoints, one after the other from the start, are a run of which the first two laws speak | [`user_calls_are_made`], [`events_are_made`], [`packets_are_made`], [`passed_calls_are_made`], [`calls_are_driven`] |
//! | where the peer's user sends what channels send, without tables: what is reported was sent, and resets part it | [`channels_say_what_was_sent`], [`next_channels_are_new`] |
//!
//! Not promised: that the peer answers, that labels and text are UTF-8, anything of DTLS and ICE. A body may answer `NoMemory` although there was some.
#![tactic(auto)]

mod ahead;
mod buffered;
mod channels;
mod closing;
mod coming;
mod event;
mod events;
mod fault;
mod freeing;
mod laws;
mod limits;
mod making;
mod opening;
mod packets;
mod passed;
mod reading;
mod said;
mod sending;
mod span;
mod spans;
mod stream;
mod streams;
mod table;
mod threshold;

pub use channels::Channels;
pub use event::{Event, Ignored, Parameters, Refusal};
pub use fault::{CloseFault, OpenFault, SendFault, ThresholdFault};
pub use laws::{
    channels_are_faithful, channels_are_one, channels_say_what_was_sent, closed_at_the_place,
    contents_are_taken, next_channels_are_new, resets_are_all_noted, resets_are_noted,
    second_resets_are_kept,
};
pub use making::{
    calls_are_driven, events_are_made, packets_are_made, passed_calls_are_made, user_calls_are_made,
};
pub use reading::Written;
pub use sctp_dcep::{Content, ControlFault, Opening, Reliability};
pub use table::DtlsRole;
