//! The names of the two endpoints, `A` and `B`.

ghost use Rattle.std.specs.Prelude.{◌≡◌, MatchOption};
ghost use Rattle.sctp_model.specs.world.World as world;
ghost use Rattle.sctp_events.specs.Events.{side_meaning};
ghost use Rattle.sctp_script.specs.OutcomeText.{side_word};

use sctp_events::Side;

/// The endpoint that a word names.
pub(crate) fn read_side(word: &[u8]) -> Option<Side>
    ensures { MatchOption result ((x : world.Side) → word.now ≡ side_word x → ⊥) (λ side. word.now ≡ side_word (side_meaning side)) }
{
    match word {
        b"A" => Some(Side::A),
        b"B" => Some(Side::B),
        _ => None,
    }
}

/// The name of an endpoint.
pub(crate) fn side_name(side: Side) -> &'static [u8]
    ensures { result.now ≡ side_word (side_meaning side) }
{
    match side {
        Side::A => b"A",
        Side::B => b"B",
    }
}
