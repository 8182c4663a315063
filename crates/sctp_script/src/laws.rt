//! Laws of the script's grammar, which hold for every line.

ghost use Rattle.std.specs.Prelude.{◌≡◌, ℕ, Bool, true, false, List};
ghost use Rattle.sctp_model.specs.end.EndView.{Configuration};
ghost use Rattle.sctp_events.specs.Events.{Wanted};
ghost use Rattle.sctp_script.specs.CanBe.{CanBe};
ghost use Rattle.sctp_events.specs.Alike.{turned_round};
ghost use Rattle.sctp_script.specs.Configuration.{IsOfPair, AreOfPair};
ghost use Rattle.sctp_script.specs.Grammar.{Pairs, Acts, Says, SaysOneThing};
ghost use Rattle.sctp_script.specs.Places.{Place, Behind, Plain, Configures, is_paired, SaysAt, SaysOneThingAt};

use sctp_text::words_say_one_value;

// law
/// Each line says exactly one thing.
pub fn one_meaning()
    ensures { (paired : Bool) (line : List ℕ) → SaysOneThing paired line }
{
    words_say_one_value();
}

// law
/// At its place in a script each line says exactly one thing.
pub fn one_meaning_at()
    ensures { (place : Place) (line : List ℕ) → SaysOneThingAt place line }
{
    words_say_one_value();
}

// law
/// What the `pair` line and lines of options after it say of both endpoints is right: the pair's ports, and configurations without a fault.
pub fn configurations_are_right()
    ensures pair { (place : Place) (line : List ℕ) (c : Configuration) → SaysAt place line (Plain (Pairs c)) → AreOfPair c (turned_round c) }
    ensures options { (line : List ℕ) (with_options : Bool) (a b c d : Configuration) → AreOfPair a b
        → SaysAt (Behind with_options a b) line (Configures c d) → AreOfPair c d }
{}

// law
/// A line makes a pair only if none was made before it, and its configuration is without a fault.
pub fn the_pair_comes_first()
    ensures first { (paired : Bool) (line : List ℕ) (c : Configuration) → Says paired line (Pairs c) → paired ≡ false }
    ensures right { (paired : Bool) (line : List ℕ) (c : Configuration) → Says paired line (Pairs c) → IsOfPair c }
{}

// law
/// A line asks for an event only after a `pair` line.
pub fn events_follow_the_pair()
    ensures { (paired : Bool) (line : List ℕ) (wanted : Wanted) → Says paired line (Acts wanted) → paired ≡ true }
{}

// law
/// What a line asks for is possible: tags aren't 0, times have 64 bits, and the bytes of a third party are bytes.
pub fn events_can_happen()
    ensures { (paired : Bool) (line : List ℕ) (wanted : Wanted) → Says paired line (Acts wanted) → CanBe wanted }
{}

// law
/// At its place too a line asks for an event only after a `pair` line, and what it asks for is possible.
pub fn events_at_their_place()
    ensures follow { (place : Place) (line : List ℕ) (wanted : Wanted) → SaysAt place line (Plain (Acts wanted)) → is_paired place ≡ true }
    ensures can_be { (place : Place) (line : List ℕ) (wanted : Wanted) → SaysAt place line (Plain (Acts wanted)) → CanBe wanted }
{}
