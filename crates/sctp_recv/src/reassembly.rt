//! How many bytes are held of messages that can't be delivered yet (RFC 9260, 3.3.4 and 6.9).

ghost use Rattle.std.specs.Prelude.{◌≡◌, ℕ, ◌<◌, ◌^◌, List};
ghost use Rattle.sctp_model.specs.messages.Pieces.{Piece};
ghost use Rattle.sctp_model.specs.receiver.ReceiverView.{ReceiverView, size_of_pieces};
ghost use Rattle.sctp_recv.specs.Filed.{IsFiledOn, AreFiled};
ghost use Rattle.sctp_recv.specs.StandsFor.{StandsFor};
ghost use Rattle.sctp_recv.specs.inner.Giving.{sized};
ghost use Rattle.sctp_recv.specs.inner.Reassembly.{bytes_on};

use crate::receiver::Receiver;
use crate::stream::Stream;
use sctp_framing::Framing;

#[tactic(auto, unfolding(crate::specs::StandsFor::StandsFor))]
impl<F: Framing> Receiver<F> {
    /// Of `held_bytes`, those that `take` can't return yet: the user data of messages of which a fragment is missing, and of ordered messages
    /// that wait for an earlier one. If no message waits for `take` it is all that is held, in a few steps; else each stream is looked at.
    pub fn reassembly_bytes(&self) -> u32
        ensures { (v : ReceiverView) → StandsFor F.format self.now v → result ≡ size_of_pieces v.kept }
    {
        match self.readable(0) {
            Some(_) => kept_on_all(&self.streams),
            None => self.held,
        }
    }
}

/// The bytes of the DATA chunks that are kept on a stream.
fn kept_on<F: Framing>(stream: &Stream<F>) -> u32
    ensures { (s : ℕ) (kept : List Piece) → IsFiledOn F.format kept s stream.now → result ≡ sized (bytes_on kept s) }
{
    match &stream.inbound {
        Some(inbound) => inbound.kept_bytes(),
        None => 0,
    }
}

/// The bytes of the DATA chunks that are kept on all streams.
fn kept_on_all<F: Framing>(streams: &Vec<Stream<F>>) -> u32
    ensures { (kept : List Piece) → AreFiled F.format kept streams.now.items → size_of_pieces kept < 2 ^ 32 → result ≡ size_of_pieces kept }
{
    let mut total: u32 = 0;
    for at in 0..streams.len() {
        total = total.saturating_add(kept_on(&streams[at]));
    }
    total
}
