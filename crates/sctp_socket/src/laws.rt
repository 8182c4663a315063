//! Laws: the contracts of functions that do nothing.

ghost use Rattle.sctp_socket.specs.Opposite.{BarredAreIgnored, CallersTake, OlderAreIgnored, OneCallWins, TagsServeOnce};
ghost use Rattle.sctp_socket.specs.Peers.{HostsAreTheirBytes, HostsStay, TextsAreApart};
ghost use Rattle.sctp_socket.specs.Product.{EachIsAlone};
ghost use Rattle.sctp_socket.specs.Routing.{AcksReachCallers, ApartWithout, EchoesAreOwn, InitsReachNoEnd};
ghost use Rattle.sctp_socket.specs.Turns.{EachTurnComes};
ghost use Rattle.sctp_socket.specs.Unkept.{InitsOpenNothing};
ghost use Rattle.sctp_socket.specs.Unmoved.{InitsAreDropped, ListenersAreAnew};

/// If two sockets call each other, one of the two calls wins at both, and no verification tag serves two associations.
// law
pub fn calls_meet()
    ensures one { OneCallWins }
    ensures caller { CallersTake }
    ensures older { OlderAreIgnored }
    ensures barred { BarredAreIgnored }
    ensures tags { TagsServeOnce }
{}

/// Hosts with other bytes are other hosts, and peers at other hosts or ports have other texts, of which their keys are derived; and no association moves to another host unless
/// the layer below proves its packets.
// law
pub fn peers_are_apart()
    ensures hosts { HostsAreTheirBytes }
    ensures texts { TextsAreApart }
    ensures stay { HostsStay }
{}

/// What each endpoint of a socket does is what it does alone.
// law
pub fn each_is_alone()
    ensures { EachIsAlone }
{}

/// Each one's turn comes.
// law
pub fn each_turn_comes()
    ensures { EachTurnComes }
{}

/// A listener is a value: one that is made for a packet is the one that was kept; an INIT need not be passed to an endpoint with an association; and no listener keeps anything
/// of one.
// law
pub fn listeners_are_values()
    ensures anew { ListenersAreAnew }
    ensures inits { InitsAreDropped }
    ensures unkept { InitsOpenNothing }
{}

/// Of packets that begin with INIT none reaches an association's endpoint; of those with COOKIE ECHO those with its own cookie alone; and an INIT ACK if it waits for one. An endpoint without
/// an association gets none.
// law
pub fn routes_are_narrow()
    ensures inits { InitsReachNoEnd }
    ensures echoes { EchoesAreOwn }
    ensures acks { AcksReachCallers }
    ensures apart { ApartWithout }
{}
