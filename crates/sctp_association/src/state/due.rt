//! The chunks that are due: what goes into the next packets (RFC 9260, 6.10), the one place where a chunk is scheduled for later. It doesn't know
//! states or timers.

ghost use Rattle.std.specs.Prelude.{ℕ, List, ◌≡◌, ◌||◌, ◌&&◌, ◌+◌, ◌≤◌, ◌∷◌, [], nat_le, true, false, if◌then◌else◌, length, option_map, Some, None, vec_len, vec_capacity, IsOk, OnOk, OnErr};
ghost use Rattle.sctp_model.specs.wire.Typed.{Typed, WritesTyped};
ghost use Rattle.sctp_model.specs.end.EndView as model;
ghost use Rattle.sctp_model.specs.end.EndView.{EndView, nothing_due};
ghost use Rattle.sctp_model.specs.end.Clock.{due_in};
ghost use Rattle.sctp_model.specs.end.Closing.{is_shutdown_sent};
ghost use Rattle.sctp_model.specs.end.Reports.{item, causes_with};
ghost use Rattle.sctp_association.specs.StageMeans.{stage_meaning};
ghost use Rattle.sctp_association.specs.DueStands.{DueStands};

use crate::state::carried::{HeartbeatInfo, WaitingCauses};
use crate::state::stage::Stage;
use std::alloc::Global;

/// The chunks that are due, in the order in which a packet is filled.
#[derive(Drop)]
pub(crate) struct Due {
    pub(crate) init: bool,
    pub(crate) cookie_echo: bool,
    pub(crate) cookie_ack: bool,
    /// The value of the latest HEARTBEAT that isn't answered yet.
    pub(crate) heartbeat: Option<HeartbeatInfo>,
    /// The causes that the next ERROR reports.
    pub(crate) causes: WaitingCauses,
    pub(crate) sack: bool,
    pub(crate) forward: bool,
    /// A request to reset streams.
    pub(crate) request: bool,
    pub(crate) shutdown: bool,
    pub(crate) shutdown_ack: bool,
}

impl Due {
    /// Nothing is due.
    pub(crate) fn nothing(alloc: Global) -> Due
        ensures { DueStands result nothing_due }
    {
        Due {
            init: false,
            cookie_echo: false,
            cookie_ack: false,
            heartbeat: None,
            causes: WaitingCauses::none(alloc),
            sack: false,
            forward: false,
            request: false,
            shutdown: false,
            shutdown_ack: false,
        }
    }

    /// Nothing is due any more.
    pub(crate) fn clear(&mut self, alloc: Global)
        ensures { DueStands self.new nothing_due }
    {
        *self = Due::nothing(alloc);
    }

    /// The association enters this stage: chunks that only another state sends are no longer due (RFC 9260, 4).
    pub(crate) fn turn(&mut self, stage: Stage)
        ensures { (d : model.Due) (t : model.Tags) → DueStands self.old d → DueStands self.new (due_in (model.Open t (stage_meaning stage)) d) }
    {
        self.init = false;
        self.cookie_echo = false;
        self.request = self.request && stage.is_established();
        self.shutdown = self.shutdown && stage.is_shutdown_sent();
        self.shutdown_ack = self.shutdown_ack && stage.is_shutdown_ack_sent();
    }

    /// The association begins at the listener: a COOKIE ACK is due (RFC 9260, 5.1, D).
    pub(crate) fn begin(&mut self)
        ensures { (d : model.Due) (t : model.Tags) → DueStands self.old d → DueStands self.new (record (due_in (model.Open t model.Established) d) { cookie_ack = true }) }
    {
        self.turn(Stage::Established);
        self.acknowledge_cookie();
    }

    /// The association begins at the caller: a COOKIE ECHO is due, and these causes after it (RFC 9260, 5.1, C).
    pub(crate) fn echo(&mut self, causes: WaitingCauses)
        ensures { (d : model.Due) (t : model.Tags) (xs : List ℕ) (ys : List Typed) → DueStands self.old d → WritesTyped causes.bytes.items ys
            → DueStands self.new (record (due_in (model.Echoing t xs) d) { cookie_echo = true; causes = ys }) }
    {
        self.init = false;
        self.cookie_echo = true;
        self.causes = causes;
        self.request = false;
        self.shutdown = false;
        self.shutdown_ack = false;
    }

    /// The endpoint calls: an INIT is due, and nothing that only another state sends (RFC 9260, 5.1, A).
    pub(crate) fn call(&mut self)
        ensures { (d : model.Due) (x : model.Draw) → DueStands self.old d → DueStands self.new (record (due_in (model.Calling x) d) { init = true }) }
    {
        self.init = true;
        self.cookie_echo = false;
        self.request = false;
        self.shutdown = false;
        self.shutdown_ack = false;
    }

    /// The INIT is due again (RFC 9260, 5.1, A).
    #[inline(always)]
    pub(crate) fn repeat_init(&mut self)
        ensures { (d : model.Due) → DueStands self.old d → DueStands self.new (record d { init = true }) }
    {
        self.init = true;
    }

    /// The COOKIE ECHO is due again (RFC 9260, 5.1, C).
    #[inline(always)]
    pub(crate) fn repeat_echo(&mut self)
        ensures { (d : model.Due) → DueStands self.old d → DueStands self.new (record d { cookie_echo = true }) }
    {
        self.cookie_echo = true;
    }

    /// A COOKIE ACK is due (RFC 9260, 5.1, D and 5.2.4).
    #[inline(always)]
    pub(crate) fn acknowledge_cookie(&mut self)
        ensures { (d : model.Due) → DueStands self.old d → DueStands self.new (record d { cookie_ack = true }) }
    {
        self.cookie_ack = true;
    }

    /// A HEARTBEAT ACK with this value is due; an older one that is still due is replaced (RFC 9260, 8.3).
    #[inline(always)]
    pub(crate) fn bring_back(&mut self, info: HeartbeatInfo)
        ensures { (d : model.Due) (xs : List ℕ) → DueStands self.old d → info.bytes.items ≡ xs → DueStands self.new (record d { heartbeat = Some xs }) }
    {
        self.heartbeat = Some(info);
    }

    /// Sets whether a SACK is due (RFC 9260, 6.2).
    #[inline(always)]
    pub(crate) fn owe_sack(&mut self, is_due: bool)
        ensures { (d : model.Due) → DueStands self.old d → DueStands self.new (record d { sack = is_due }) }
    {
        self.sack = is_due;
    }

    /// Sets whether a FORWARD-TSN is due (RFC 3758, 3.5).
    #[inline(always)]
    pub(crate) fn owe_forward(&mut self, is_due: bool)
        ensures { (d : model.Due) → DueStands self.old d → DueStands self.new (record d { forward = is_due }) }
    {
        self.forward = is_due;
    }

    /// Sets whether a request to reset streams is due (RFC 6525, 5.1).
    #[inline(always)]
    pub(crate) fn owe_request(&mut self, is_due: bool)
        ensures { (d : model.Due) → DueStands self.old d → DueStands self.new (record d { request = is_due }) }
    {
        self.request = is_due;
    }

    /// A SHUTDOWN is due (RFC 9260, 9.2).
    #[inline(always)]
    pub(crate) fn owe_shutdown(&mut self)
        ensures { (d : model.Due) → DueStands self.old d → DueStands self.new (record d { shutdown = true }) }
    {
        self.shutdown = true;
    }

    /// A SHUTDOWN ACK is due (RFC 9260, 9.2).
    #[inline(always)]
    pub(crate) fn owe_shutdown_ack(&mut self)
        ensures { (d : model.Due) → DueStands self.old d → DueStands self.new (record d { shutdown_ack = true }) }
    {
        self.shutdown_ack = true;
    }

    /// A FORWARD-TSN is due if the Advanced Peer Ack Point moved (RFC 3758, 3.5).
    pub(crate) fn skip(&mut self, moved: bool)
        ensures { (d : model.Due) → DueStands self.old d → DueStands self.new (record d { forward = d.forward || moved }) }
    {
        self.forward = self.forward || moved;
    }

    /// A FORWARD-TSN is no longer due unless the Advanced Peer Ack Point is past the cumulative TSN Ack Point (RFC 3758, 3.5).
    pub(crate) fn settle(&mut self, past: bool)
        ensures { (d : model.Due) → DueStands self.old d → DueStands self.new (record d { forward = d.forward && past }) }
    {
        self.forward = self.forward && past;
    }

    /// Received data is to be acknowledged in this stage: a SACK is due, and in SHUTDOWN-SENT the SHUTDOWN again (RFC 9260, 6.2 and 9.2).
    pub(crate) fn acknowledge(&mut self, stage: Stage)
        ensures { (d : model.Due) → DueStands self.old d → DueStands self.new (record d { sack = true; shutdown = d.shutdown || is_shutdown_sent (stage_meaning stage) }) }
    {
        self.sack = true;
        self.shutdown = self.shutdown || stage.is_shutdown_sent();
    }
}
