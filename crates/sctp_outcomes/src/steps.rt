//! The steps of an endpoint alone: they are functions.

ghost use Rattle.sctp_outcomes.specs.OneEnd.{ActIsOne, BuildIsOne};
ghost use Rattle.sctp_outcomes.specs.SetUp.{ChunksLeaveTheConfiguration, CutPacketsLeaveTheConfiguration, PacketsLeaveTheConfiguration};
ghost use Rattle.sctp_outcomes.specs.Untouched.{DropsChangeNothing, StraysChangeNothing};

/// Whatever an endpoint's state, and whoever its peer: each packet that reads leaves one endpoint and has one verdict (RFC 9260, 4). So a body that drops
/// every packet does what no row says.
pub fn each_packet_has_one_verdict()
    ensures { ActIsOne }
{}

/// And an endpoint that is asked for a packet builds one, or none, and no other (RFC 9260, 6.10). So a body that never builds does what no row says.
pub fn each_end_has_one_next_packet()
    ensures { BuildIsOne }
{}

/// A packet that arrives at an endpoint without an association, and has no cookie that opens, changes nothing but the time; nor does one that is dropped,
/// in whatever state and whatever for: its bytes, its ports, its tag, a cookie, the state (RFC 9260, 5.1 and 8.4). Before a COOKIE ECHO is no other chunk
/// in a packet that reads, so none acted that is dropped for it.
pub fn packets_leave_no_trace()
    ensures strays { StraysChangeNothing }
    ensures drops { DropsChangeNothing }
{}

/// Whatever arrives at an endpoint, chunk by chunk or as a packet, whole or cut short, it stays set up as it is: so its packet limit stays, and its ports.
pub fn ends_stay_as_they_are_set_up()
    ensures chunks { ChunksLeaveTheConfiguration }
    ensures packets { PacketsLeaveTheConfiguration }
    ensures cut { CutPacketsLeaveTheConfiguration }
{}
