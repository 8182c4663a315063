//! What is known of an endpoint, read at once.

ghost use Rattle.sctp_end.specs.declared.call.Call.TheVariants as call;
ghost use Rattle.sctp_end.specs.SessionStands.{Performed};

use crate::reply::Reply;
use crate::session::Session;
use crate::status::Status;

impl Session {
    /// `status`
    pub(crate) fn status(&self) -> Reply
        ensures { Performed self.now call.Status result self.now }
    {
        Reply::Status(Status {
            state: self.endpoint.state(),
            ended: self.endpoint.ended(),
            next: self.endpoint.next_moment(),
            agreed: self.endpoint.agreed(),
            outstanding: self.endpoint.outstanding(),
            queued: self.endpoint.queued(),
            queued_bytes: self.endpoint.queued_bytes(),
            held: self.endpoint.held_bytes(),
            window: self.endpoint.peer_window(),
            readable: self.endpoint.readable(0),
        })
    }

    /// `path`
    pub(crate) fn path(&self) -> Reply
        ensures { Performed self.now call.Path result self.now }
    {
        Reply::Path {
            flight: self.endpoint.in_flight(),
            path: self.endpoint.path(),
        }
    }
}
