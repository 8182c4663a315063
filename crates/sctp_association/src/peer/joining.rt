//! How an endpoint enters an association: a listener by the cookie that returns to it, a caller by the INIT ACK that it accepts, two endpoints without
//! packets (RFC 9260, 5.1). Sender and receiver are created first, which alone may allocate; then the state changes.

ghost use Rattle.std.specs.Prelude.{◌≡◌, ℕ, List, ◌<◌, ◌+◌, ◌^◌, length, IfOk, OnOk, OnErr};
ghost use Rattle.sctp_model.specs.messages.Framing.{header_of};
ghost use Rattle.sctp_model.specs.sender.SenderView.{fresh_sender};
ghost use Rattle.sctp_model.specs.receiver.ReceiverView.{fresh_receiver};
ghost use Rattle.sctp_model.specs.end.EndView.{EndView, format_for, send_limits};
ghost use Rattle.sctp_model.specs.end.EndView as model;
ghost use Rattle.sctp_model.specs.end.Clock.{timers_in};
ghost use Rattle.sctp_model.specs.end.Opening.{pace_for, begun, echoing, opened};
ghost use Rattle.sctp_wire.specs.ChunkTree.{init_meaning};
ghost use Rattle.sctp_cookie.specs.CookieTree.{content_meaning};
ghost use Rattle.sctp_congestion.specs.PaceStands.{PacesStand};
ghost use Rattle.sctp_association.specs.TimersMean.{timers_meaning};
ghost use Rattle.sctp_association.specs.TrafficStands.{TrafficStands};
ghost use Rattle.sctp_association.specs.MachineStands.{MachineStands};

use crate::machine::Machine;
use crate::state::carried::EchoedCookie;
use crate::state::closing::turn_timers;
use crate::state::due::Due;
use crate::state::life::{Association, Life, Progress, Role};
use crate::state::stage::{Stage, Tags};
use crate::time::timer::Alarm;
use crate::time::timers::Timers;
use crate::traffic::{Sizes, Traffic};
use sctp_congestion::{Pacing, RoundTrip};
use sctp_cookie::CookieContent;
use sctp_framing::{DataFraming, Framing, IDataFraming};
use sctp_opening::Terms;
use sctp_terms::{Config, Draw};
use sctp_values::FIRST_WAIT;
use sctp_wire::{Init, NoMemory};
use std::alloc::Global;
use std::mem::replace;

/// The bytes of a packet's common header (RFC 9260, 3.1).
const HEADER: u16 = 12;

#[tactic(auto, unfolding(crate::specs::MachineStands::MachineStands))]
impl Machine {
    /// An endpoint that is established from the start, with a peer of the same configuration and these random values.
    ///
    /// # Errors
    /// `NoMemory` if an allocation was refused.
    pub fn paired(alloc: Global, config: Config, own: Draw, peer: Draw) -> Result<Machine, NoMemory>
        ensures { IfOk result (λ m. MachineStands m (opened config own peer)) }
    {
        // By the clause of `limit` its options are plain.
        let _limit = config.limit();
        let terms = Terms::alike(&config, own, peer);
        let traffic = begun_for(alloc, &config, terms, config.buffer())?;
        let pace = pace_for(alloc, &config, terms.interleave, config.buffer());
        let tags = Tags {
            own: own.tag(),
            peer: peer.tag(),
        };
        Ok(Machine {
            alloc,
            config,
            role: Role::Paired,
            moment: 0,
            due: Due::nothing(alloc),
            timers: Timers::unused(),
            delayed: None,
            life: Life::Joined(Association {
                tags,
                terms,
                progress: Progress::Open(Stage::Established),
                traffic,
            }),
            pace,
            room: Vec::new(alloc),
        })
    }

    /// The listener enters the association on the terms of a cookie that it read; a COOKIE ACK is due (RFC 9260, 5.1, D).
    ///
    /// # Errors
    /// `NoMemory` if an allocation was refused; nothing changed then.
    pub fn begin(&mut self, content: &CookieContent) -> Result<(), NoMemory>
        ensures step { (v : EndView) → MachineStands self.old v → OnOk result (MachineStands self.new (begun (content_meaning content.now) v)) }
        ensures refused { (v : EndView) → MachineStands self.old v → OnErr result (MachineStands self.new v) }
    {
        let terms = Terms::of_cookie(content);
        let body = &content.body;
        let traffic = begun_for(self.alloc, &self.config, terms, body.caller_rwnd)?;
        let tags = Tags {
            own: body.listener_tag,
            peer: body.caller_tag,
        };
        let joined = Association {
            tags,
            terms,
            progress: Progress::Open(Stage::Established),
            traffic,
        };
        drop(replace(&mut self.life, Life::Joined(joined)));
        self.pace = pace_for(self.alloc, &self.config, terms.interleave, body.caller_rwnd);
        self.due.begin();
        turn_timers(&mut self.timers, Stage::Established);
        self.measure(Some(RoundTrip::between(body.made, self.moment)), FIRST_WAIT);
        Ok(())
    }

    /// The caller with these random values enters the association on the terms of the INIT ACK that it accepts; a COOKIE ECHO with this cookie is due
    /// (RFC 9260, 5.1, C).
    ///
    /// # Errors
    /// `NoMemory` if an allocation was refused; nothing changed then.
    pub fn echo(&mut self, draw: Draw, offer: &Init<'_>, cookie: &[u8]) -> Result<(), NoMemory>
        requires { 4 + length cookie.now < 2 ^ 16 }
        ensures step { (v : EndView) → MachineStands self.old v → OnOk result (MachineStands self.new (echoing v draw (init_meaning offer.now) cookie.now)) }
        ensures refused { (v : EndView) → MachineStands self.old v → OnErr result (MachineStands self.new v) }
    {
        let terms = Terms::of_init_ack(&self.config, draw, offer);
        let echoed = EchoedCookie::copied(self.alloc, cookie)?;
        let reported = self
            .due
            .causes
            .with_ack_report(self.alloc, &self.config, &offer.parameters)?;
        let traffic = begun_for(self.alloc, &self.config, terms, offer.rwnd)?;
        let tags = Tags {
            own: draw.tag(),
            peer: offer.tag,
        };
        let joined = Association {
            tags,
            terms,
            progress: Progress::Echoing(echoed),
            traffic,
        };
        drop(replace(&mut self.life, Life::Joined(joined)));
        self.pace = pace_for(self.alloc, &self.config, terms.interleave, offer.rwnd);
        self.due.echo(reported);
        echo_timers(&mut self.timers);
        Ok(())
    }
}

/// Sender and receiver of an endpoint of this configuration, on these terms. `peer_rwnd` is the window that the peer advertised, in bytes.
fn begun_for(
    alloc: Global,
    config: &Config,
    terms: Terms,
    peer_rwnd: u32,
) -> Result<Traffic, NoMemory>
    ensures { IfOk result (λ t. TrafficStands t (format_for terms.interleave)
        (fresh_sender terms.own_tsn terms.outbound config.now.fragment peer_rwnd terms.partial (send_limits config.now))
        (fresh_receiver terms.peer_tsn terms.inbound config.now.buffer config.now.reserve)) }
{
    // By the clause of `limit` its options are plain.
    let _limit = config.limit();
    let sizes = Sizes {
        fragment: config.fragment(),
        buffer: config.buffer(),
    };
    Traffic::begun(alloc, terms, sizes, peer_rwnd)
}

/// The pace of a new association of this configuration, in this format, if it asks for fast retransmit (RFC 9260, 6.3.1 and 7.2). `peer_rwnd` is the window that the
/// peer advertised, in bytes.
fn pace_for(alloc: Global, config: &Config, interleave: bool, peer_rwnd: u32) -> Option<Pacing>
    ensures { PacesStand (format_for interleave) 0 result (pace_for config.now (header_of (format_for interleave)) peer_rwnd) }
{
    if !config.fast_retransmit() {
        return None;
    }
    let pmdcs = config.limit() - HEADER;
    Some(Pacing::fresh(
        alloc,
        config.congestion_control(),
        header_of(interleave),
        pmdcs,
        peer_rwnd,
    ))
}

/// The bytes of a chunk with user data before its data: of an I-DATA, or of a DATA (RFC 9260, 3.3.1; RFC 8260, 2.1).
fn header_of(interleave: bool) -> u16
    ensures { result ≡ header_of (format_for interleave) }
{
    if interleave {
        IDataFraming::header() as u16
    } else {
        DataFraming::header() as u16
    }
}

/// The timers of a caller that echoes its cookie.
fn echo_timers(timers: &mut Timers)
    ensures { (t : model.Tags) (xs : List ℕ) → timers_meaning timers.new ≡ timers_in (model.Echoing t xs) (timers_meaning timers.old) }
{
    timers.stop(Alarm::Init);
    timers.stop(Alarm::Fragments);
    timers.stop(Alarm::Shutdown);
    timers.stop(Alarm::ShutdownAck);
    timers.stop(Alarm::Reset);
}
