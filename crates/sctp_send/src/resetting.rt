//! Resets of outgoing streams: asked for by the user, requested of the peer, and done once it has performed them (RFC 6525, 5.1).
//!
//! A stream whose reset was asked for takes no further message. It is ready once nothing of it waits in the queue, is in part, or is outstanding. A
//! request names the lowest 256 streams that are ready, the first of them twice if it would say the same as the last one, and one request waits at a time.

pub mod answering;
pub mod naming;
pub mod restarting;
pub mod still;
pub mod table;

ghost use Rattle.std.specs.Prelude.{◌≡◌, ◌&&◌, true, nat_lt, if◌then◌else◌, IfOk, OnOk, OnErr, MatchOption, None};
ghost use Rattle.sctp_model.specs.sender.Outgoing.{is_resetting};
ghost use Rattle.sctp_model.specs.sender.Resetting.{resetting, may_ask, asked};
ghost use Rattle.sctp_model.specs.sender.SenderView.{SenderView};
ghost use Rattle.sctp_send.specs.ResetAnswers.{IsRequest, WasMade, resetting_streams};
ghost use Rattle.sctp_send.specs.SenderStands.{StandsFor};

use crate::kept::request::Request;
use crate::resetting::naming::named_after;
use crate::resetting::still::{any_still, last_out_on, still_of};
use crate::sender::Sender;
use sctp_framing::Framing;
use sctp_serial::tsn_of;
use sctp_values::NoMemory;

/// What a request to reset streams says, each time that it is sent (Outgoing SSN Reset Request; RFC 6525, 4.1).
#[derive(Clone, Copy, Debug)]
pub struct ResetRequest<'a> {
    /// Its sequence number.
    pub number: u32,
    /// The last TSN that was assigned when it was made.
    pub last: u32,
    /// Its streams, by rising number: 1 to 256, of which the first may come twice.
    pub streams: &'a [u16],
}

/// The request that was made before the one that `ask` made, if there was one: `take_back_request` gives it its place again.
#[derive(Drop)]
pub struct EarlierRequest {
    pub(crate) request: Option<Request>,
}

impl EarlierRequest {
    /// There was none.
    pub fn none() -> EarlierRequest {
        EarlierRequest { request: None }
    }
}

#[tactic(auto, unfolding(crate::specs::SenderStands::StandsFor))]
impl<F: Framing> Sender<F> {
    /// Whether the reset of a stream was asked for and has no answer yet. Meanwhile the stream takes no messages. False if there is no such stream.
    pub fn is_resetting(&self, stream: u16) -> bool
        ensures { (v : SenderView) → StandsFor F.format self.now v → result ≡ (nat_lt stream v.streams && is_resetting (v.resets.sending stream)) }
    {
        if stream >= self.told.streams {
            return false;
        }
        self.told.resets.is_resetting(stream)
    }

    /// How many of the streams below 1,024 wait for their reset: its answer costs no walk.
    pub fn resetting_streams(&self) -> usize
        ensures { (v : SenderView) → StandsFor F.format self.now v → result ≡ resetting_streams v }
    {
        self.told.resets.resetting().len()
    }

    /// Whether a request to reset streams may be made now: none waits for its response, a stream is ready, and fewer than 2^31 - 1 sequence numbers
    /// were used (RFC 6525, 5.1.1).
    #[inline(always)]
    pub fn may_ask(&self) -> bool
        ensures { (v : SenderView) → StandsFor F.format self.now v → result ≡ may_ask v }
    {
        if !self.told.resets.is_free() {
            return false;
        }
        let resets = &self.told.resets;
        any_still(
            &self.parts,
            self.told.cum,
            resets.hints(),
            resets.resetting(),
        )
    }

    /// The request that waits for its response, if one does (RFC 6525, 4.1).
    pub fn request(&self) -> Option<ResetRequest<'_>>
        ensures { (v : SenderView) → StandsFor F.format self.now v
            → MatchOption result (v.resets.pending ≡ None) (λ request. IsRequest v request.number request.last request.streams.now) }
    {
        match self.told.resets.pending() {
            Some(request) => Some(ResetRequest {
                number: tsn_of(self.told.initial, u64::from(self.told.resets.made())),
                last: tsn_of(self.told.initial, request.last),
                streams: &request.streams,
            }),
            None => None,
        }
    }

    /// Asks for the reset of a stream: it takes no further message until that is done. What was accepted before is still sent. It changes nothing
    /// if the stream is being reset already, and may be asked for again if the peer refused (RFC 6525, 5.1). The first call allocates.
    ///
    /// # Errors
    /// `NoMemory` if an allocation fails; the sender's view is then as before.
    pub fn reset(&mut self, stream: u16) -> Result<(), NoMemory>
        ensures step { (v : SenderView) → StandsFor F.format self.old v → OnOk result (StandsFor F.format self.new (resetting v stream)) }
        ensures memory { (v : SenderView) → StandsFor F.format self.old v → OnErr result (StandsFor F.format self.new v) }
    {
        let streams = self.told.streams;
        self.told.resets.make(self.told.alloc, streams)?;
        self.told.resets.shut(stream);
        let last = last_out_on(&self.parts.outstanding, stream);
        let index = self.told.cum.wrapping_add(last as u64).wrapping_add(1);
        self.told.resets.note(stream, index);
        Ok(())
    }

    /// Makes a request to reset the streams that are ready, if it may be made (`may_ask`); else it changes nothing (RFC 6525, 5.1.2). If it said the same as
    /// the last one, but for its number, it names its first stream twice (5.2.7). Returns the last one.
    ///
    /// # Errors
    /// `NoMemory` if an allocation fails; the sender's view is then as before.
    pub fn ask(&mut self) -> Result<EarlierRequest, NoMemory>
        ensures step { (v : SenderView) → StandsFor F.format self.old v → OnOk result (StandsFor F.format self.new (if may_ask v then asked v else v)) }
        ensures before { (v : SenderView) → StandsFor F.format self.old v → may_ask v ≡ true → IfOk result (λ before. WasMade before v) }
        ensures memory { (v : SenderView) → StandsFor F.format self.old v → OnErr result (StandsFor F.format self.new v) }
    {
        if !self.told.resets.is_free() {
            return Ok(EarlierRequest::none());
        }
        let streams = still_of(
            self.told.alloc,
            &self.parts,
            self.told.cum,
            self.told.resets.hints(),
            self.told.resets.resetting(),
        )?;
        if streams.is_empty() {
            return Ok(EarlierRequest::none());
        }
        let last = self
            .told
            .cum
            .wrapping_add(self.parts.outstanding.len() as u64);
        let named = named_after(&self.told.resets, self.told.initial, last, streams)?;
        let request = self.told.resets.ask(last, named);
        Ok(EarlierRequest { request })
    }

    /// Takes back the request that `ask` made, where the packet that would have carried it isn't built; `before` is what `ask` returned. It takes no memory.
    pub fn take_back_request(&mut self, before: EarlierRequest)
        ensures { (v : SenderView) → StandsFor F.format self.old (asked v) → may_ask v ≡ true → WasMade before v → StandsFor F.format self.new v }
    {
        self.told.resets.take_back(before.request);
    }
}
