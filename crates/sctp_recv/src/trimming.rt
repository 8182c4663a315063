//! Memory that a burst took is given back when the user asks: of messages that waited, of chunks that were kept, of runs, of messages that were returned.

ghost use Rattle.std.specs.Prelude.{◌≡◌, map};
ghost use Rattle.sctp_model.specs.receiver.ReceiverView.{ReceiverView};
ghost use Rattle.sctp_chains.specs.Cells.{Kept};
ghost use Rattle.sctp_recv.specs.Fields.{stream_of};
ghost use Rattle.sctp_recv.specs.Filed.{SameLanes, AreFiled};
ghost use Rattle.sctp_recv.specs.StandsFor.{StandsFor};

use crate::receiver::Receiver;
use crate::stream::Stream;
use sctp_framing::Framing;

/// Gives back the memory of a stream that isn't used.
fn trim_stream<F: Framing>(stream: &mut Stream<F>)
    ensures same { stream_of stream.new ≡ stream_of stream.old }
    ensures chunks { SameLanes F.format stream.old stream.new }
{
    match &mut stream.inbound {
        Some(inbound) => {
            inbound.waiting.shrink_to(0);
            inbound.ordered.trim();
            inbound.unordered.trim();
        }
        None => {}
    }
}

/// Gives back the memory of all streams that isn't used.
fn trim_all<F: Framing>(streams: &mut Vec<Stream<F>>)
    ensures same { map stream_of streams.new.items ≡ map stream_of streams.old.items }
    ensures filed { (kept : Kept) → AreFiled F.format kept streams.old.items → AreFiled F.format kept streams.new.items }
{
    for at in 0..streams.len() {
        trim_stream(&mut streams[at]);
    }
}

#[tactic(auto, unfolding(crate::specs::StandsFor::StandsFor))]
impl<F: Framing> Receiver<F> {
    /// Gives memory back that isn't used: of messages that were taken, of streams and kinds of which no chunk is kept, of runs if there are none, of
    /// messages that were returned, but of as many as wait. It looks at each stream. It allocates smaller blocks in place of larger ones; one that can't be
    /// allocated leaves the larger one.
    pub fn trim(&mut self)
        ensures { (v : ReceiverView) → StandsFor F.format self.old v → StandsFor F.format self.new v }
    {
        trim_all(&mut self.streams);
        self.seen.trim();
        self.spare.trim();
    }
}
