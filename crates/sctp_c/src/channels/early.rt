//! Whether the association below channels is there yet (RFC 9260, 4).

ghost use Rattle.std.specs.Prelude.{◌≡◌, option_map};
ghost use Rattle.sctp_model.specs.end.EndView.{EndView};
ghost use Rattle.sctp_terms.specs.Meanings.{end_meaning, state_meaning};
ghost use Rattle.sctp_channels.specs.Streams.{Table};
ghost use Rattle.sctp_channels.specs.ChannelsStand.{ChannelsStand};
ghost use Rattle.sctp_c.specs.channels.Early.{is_early_in, is_early, is_unjoined_in, is_unjoined};

use crate::channels::held::Held;
use sctp_endpoint::{End, State};

/// Whether an endpoint in this state, which ended so, had no association yet.
fn is_unjoined_in(state: State, ended: Option<End>) -> bool
    ensures { result ≡ is_unjoined_in (state_meaning state) (option_map end_meaning ended) }
{
    match state {
        State::Closed => ended.is_none(),
        State::Listen => true,
        State::CookieWait => true,
        _ => false,
    }
}

/// Whether an endpoint in this state, which ended so, had no association that was established.
fn is_early_in(state: State, ended: Option<End>) -> bool
    ensures { result ≡ is_early_in (state_meaning state) (option_map end_meaning ended) }
{
    match state {
        State::CookieEchoed => true,
        _ => is_unjoined_in(state, ended),
    }
}

/// Whether there was no association below the channels yet.
pub(crate) fn is_unjoined(held: &Held) -> bool
    ensures { (v : EndView) (x : Table) → ChannelsStand held.now.channels v x → result ≡ is_unjoined v.phase }
{
    let end = held.channels.endpoint();
    is_unjoined_in(end.state(), end.ended())
}

/// Whether the association below the channels wasn't established yet.
pub(crate) fn is_early(held: &Held) -> bool
    ensures { (v : EndView) (x : Table) → ChannelsStand held.now.channels v x → result ≡ is_early v.phase }
{
    let end = held.channels.endpoint();
    is_early_in(end.state(), end.ended())
}
