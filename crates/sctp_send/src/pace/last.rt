//! The highest index that was sent. One that CUM passed isn't kept, so that the highest of those is (`before`): the entry at CUM may be an end mark, which
//! is never sent, or a fragment that was acknowledged unsent.

ghost use Rattle.std.specs.Prelude.{◌≡◌, ℕ, ◌+◌, ◌-◌, ◌≤◌, map, length};
ghost use Rattle.sctp_model.specs.sender.SenderView.{SenderView};
ghost use Rattle.sctp_model.specs.sender.Words.{last_that};
ghost use Rattle.sctp_send.specs.OutstandingFields.{item_meaning};
ghost use Rattle.sctp_send.specs.SenderStands.{StandsFor};
ghost use Rattle.sctp_send.specs.inner.Weighing.{is_item_sent, passes_here};

use crate::kept::entry::{Entry, Standing};
use crate::kept::outstanding::Outstanding;
use crate::sender::Sender;
use sctp_framing::Framing;

#[tactic(auto, unfolding(crate::specs::SenderStands::StandsFor))]
impl<F: Framing> Sender<F> {
    /// The highest index that was sent, of those up to so many beyond CUM; 0 if there is none. It looks at one entry, where the last of these was sent.
    #[inline(always)]
    pub(crate) fn last_sent_within(&self, beyond: usize) -> u64
        requires { beyond ≤ length self.now.items }
        ensures { (v : SenderView) → StandsFor F.format self.now v → result ≡ last_that v.sent (v.cum + beyond) }
    {
        if beyond == 0 {
            return self.told.before;
        }
        if is_out(self.parts.outstanding.get(beyond - 1)) {
            return self.told.cum.wrapping_add(beyond as u64);
        }
        self.last_sent_before(beyond)
    }

    /// `last_sent_within` by a walk. It costs the entries after the one that it finds, which were never sent. It is not inlined, so that the tests before
    /// it are small.
    #[inline(never)]
    fn last_sent_before(&self, beyond: usize) -> u64
        requires { beyond ≤ length self.now.items }
        ensures { (v : SenderView) → StandsFor F.format self.now v → result ≡ last_that v.sent (v.cum + beyond) }
    {
        let offset = last_out(&self.parts.outstanding, beyond);
        if offset == 0 {
            return self.told.before;
        }
        self.told.cum.wrapping_add(offset as u64)
    }
}

/// The last offset up to one, both counted from 1, of an entry that was sent; 0 if there is none.
fn last_out(outstanding: &Outstanding, to: usize) -> usize
    requires { to ≤ length outstanding.now.items }
    ensures { (size : ℕ) → result ≡ last_that (λ j. passes_here is_item_sent (map (item_meaning size) outstanding.now.items) (j - 1)) to }
{
    for back in 0..to {
        let at = to - back;
        if is_out(outstanding.get(at - 1)) {
            return at;
        }
    }
    0
}

/// An entry was sent.
fn is_out(entry: &Entry) -> bool
    ensures { (size : ℕ) → result ≡ is_item_sent (item_meaning size entry.now) }
{
    entry.standing != Standing::Unsent
}
