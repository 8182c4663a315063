//! `Machine`: the state of one endpoint, and how it is created. It reads no packet: `sctp_endpoint` reads them and calls it for each chunk.

ghost use Rattle.std.specs.Prelude.{◌≡◌, Bool, false, MatchOption};
ghost use Rattle.sctp_model.specs.end.Sealing.{Sealing};
ghost use Rattle.sctp_model.specs.end.EndView as model;
ghost use Rattle.sctp_model.specs.end.EndView.{EndView, fresh_end};
ghost use Rattle.sctp_model.specs.end.Closing.{hears};
ghost use Rattle.sctp_cookie.specs.Seals.{IsUnder};
ghost use Rattle.sctp_association.specs.StageMeans.{stage_meaning, tags_meaning};
ghost use Rattle.sctp_association.specs.MachineStands.{RoleStands, MachineStands};
ghost use Rattle.sctp_association.specs.PhaseMeans.{phase_unjoined};

use crate::state::due::Due;
use crate::state::life::{Life, Opened, Role, Unjoined};
use crate::time::timers::Timers;
use sctp_congestion::Pacing;
use sctp_cookie::Key;
use sctp_terms::Config;
use std::alloc::Global;

/// One endpoint of an association: its configuration and role, the latest time that it was given in milliseconds, the chunks that its next
/// packets owe, its timers, a delayed SACK, the state of its association, and its pace; beside that a buffer for its next packet.
#[derive(Drop)]
pub struct Machine {
    pub(crate) alloc: Global,
    pub(crate) config: Config,
    pub(crate) role: Role,
    pub(crate) moment: u64,
    pub(crate) due: Due,
    pub(crate) timers: Timers,
    /// The time at which a delayed SACK is due, while one is delayed (RFC 9260, 6.2).
    pub(crate) delayed: Option<u64>,
    pub(crate) life: Life,
    /// What it measures round trips and paces its user data by, once there is an association; None if it isn't set up for fast retransmit.
    pub(crate) pace: Option<Pacing>,
    /// The buffer that is kept for the next packet, of one that was handed back; empty if none was.
    pub(crate) room: Vec<u8>,
}

#[tactic(auto, unfolding(crate::specs::MachineStands::MachineStands))]
impl Machine {
    /// A caller in CLOSED: it may send an INIT.
    pub fn caller(alloc: Global, config: Config) -> Machine
        ensures { MachineStands result (fresh_end config model.Caller model.Idle) }
    {
        Machine::fresh(alloc, config, Role::Caller, Unjoined::Idle)
    }

    /// A listener, which seals its cookies with this key (RFC 9260, 5.1.3).
    pub fn listener(alloc: Global, config: Config, key: Key) -> Machine
        ensures { (s : Sealing) → IsUnder key s → MachineStands result (fresh_end config (model.Listener s) model.Listening) }
    {
        Machine::fresh(alloc, config, Role::Listener(key), Unjoined::Listening)
    }

    /// A new endpoint of this role.
    fn fresh(alloc: Global, config: Config, role: Role, stands: Unjoined) -> Machine
        ensures { (r : model.Role) → RoleStands role r → MachineStands result (fresh_end config r (phase_unjoined stands)) }
    {
        // By the clause of `limit` its options are plain.
        let _limit = config.limit();
        Machine {
            alloc,
            config,
            role,
            moment: 0,
            due: Due::nothing(alloc),
            timers: Timers::unused(),
            delayed: None,
            life: Life::Unjoined(stands),
            pace: None,
            room: Vec::new(alloc),
        }
    }

    /// The tags and the stage of the association, while it is open.
    pub fn opened(&self) -> Option<Opened>
        ensures { (v : EndView) → MachineStands self.now v
            → MatchOption result ((says : model.Stage → Bool) → hears says v.phase ≡ false)
            (λ o. v.phase ≡ model.Open (tags_meaning o.tags) (stage_meaning o.stage)) }
    {
        match &self.life {
            Life::Unjoined(_) => None,
            Life::Joined(association) => association.opened(),
        }
    }
}
