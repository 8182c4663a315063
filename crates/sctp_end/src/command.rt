//! The commands, by the first word of a line.

ghost use Rattle.std.specs.Prelude.{◌≡◌, MatchOption};
ghost use Rattle.sctp_end.specs.Commands.{name_of, arguments_of};

/// A command. `docs/FORMATS.md` has each with its words.
#[derive(Clone, Copy)]
pub enum Command {
    Connect,
    Draw,
    At,
    Packet,
    Build,
    Send,
    Abandon,
    Acknowledged,
    Abandoned,
    Take,
    Reset,
    Resets,
    Shutdown,
    Abort,
    Next,
    State,
    Held,
    Reassembly,
    Status,
    Path,
    Counts,
}

impl Command {
    /// The command with this name.
    pub fn named(word: &[u8]) -> Option<Command>
        ensures { MatchOption result ((c : Command) → word.now ≡ name_of c → ⊥) (λ c. word.now ≡ name_of c) }
    {
        match word {
            b"connect" => Some(Command::Connect),
            b"draw" => Some(Command::Draw),
            b"at" => Some(Command::At),
            b"packet" => Some(Command::Packet),
            b"build" => Some(Command::Build),
            b"send" => Some(Command::Send),
            b"abandon" => Some(Command::Abandon),
            b"acknowledged" => Some(Command::Acknowledged),
            b"abandoned" => Some(Command::Abandoned),
            b"take" => Some(Command::Take),
            b"reset" => Some(Command::Reset),
            b"resets" => Some(Command::Resets),
            b"shutdown" => Some(Command::Shutdown),
            b"abort" => Some(Command::Abort),
            b"next" => Some(Command::Next),
            b"state" => Some(Command::State),
            b"held" => Some(Command::Held),
            b"reassembly" => Some(Command::Reassembly),
            b"status" => Some(Command::Status),
            b"path" => Some(Command::Path),
            b"counts" => Some(Command::Counts),
            _ => None,
        }
    }

    /// The number of words after the command's name.
    pub fn arguments(self) -> usize
        ensures { result ≡ arguments_of self }
    {
        match self {
            Command::Send => 5,
            Command::Connect | Command::Draw => 2,
            Command::At
            | Command::Packet
            | Command::Abandon
            | Command::Acknowledged
            | Command::Abandoned
            | Command::Take
            | Command::Reset
            | Command::Abort => 1,
            Command::Build
            | Command::Resets
            | Command::Shutdown
            | Command::Next
            | Command::State
            | Command::Held
            | Command::Reassembly
            | Command::Status
            | Command::Path
            | Command::Counts => 0,
        }
    }
}
