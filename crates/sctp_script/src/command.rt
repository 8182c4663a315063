//! The commands of a script, by name and number of words.

ghost use Rattle.std.specs.Prelude.{◌≡◌, ◌≢◌, MatchOption};
ghost use Rattle.sctp_script.specs.Commands.{name_of, arguments_of, form_of, is_pair};

/// A command of a script. Each of the two forms of `pair` is a command.
#[derive(Clone, Copy)]
pub enum Command {
    /// `pair` with five words after it.
    Pair,
    /// `pair` with five words and `delay` after it.
    DelayedPair,
    Open,
    At,
    Draw,
    Connect,
    Build,
    Deliver,
    Foreign,
    Send,
    Abandon,
    Take,
    Shutdown,
    Abort,
}

impl Command {
    /// The command with this name; for `pair` the shorter form.
    pub fn named(word: &[u8]) -> Option<Command>
        ensures { MatchOption result ((c : Command) → word.now ≡ name_of c → ⊥) (λ c. word.now ≡ name_of c) }
    {
        match word {
            b"pair" => Some(Command::Pair),
            b"open" => Some(Command::Open),
            b"at" => Some(Command::At),
            b"draw" => Some(Command::Draw),
            b"connect" => Some(Command::Connect),
            b"build" => Some(Command::Build),
            b"deliver" => Some(Command::Deliver),
            b"foreign" => Some(Command::Foreign),
            b"send" => Some(Command::Send),
            b"abandon" => Some(Command::Abandon),
            b"take" => Some(Command::Take),
            b"shutdown" => Some(Command::Shutdown),
            b"abort" => Some(Command::Abort),
            _ => None,
        }
    }

    /// The command with the same name that takes `count` words. None if there is none.
    pub fn with_arguments(self, count: usize) -> Option<Command>
        ensures { MatchOption result
            ((c : Command) → name_of c ≡ name_of self → count ≢ arguments_of c)
            (λ c. (name_of c ≡ name_of self) × (count ≡ arguments_of c)) }
    {
        let form = self.form(count);
        if count == form.arguments() {
            Some(form)
        } else {
            None
        }
    }

    /// The form of this command for `count` words.
    fn form(self, count: usize) -> Command
        ensures { result ≡ form_of self count }
    {
        match self {
            Command::Pair | Command::DelayedPair if count == 6 => Command::DelayedPair,
            Command::Pair | Command::DelayedPair => Command::Pair,
            command => command,
        }
    }

    /// The number of words after the command's name.
    pub fn arguments(self) -> usize
        ensures { result ≡ arguments_of self }
    {
        match self {
            Command::Open => 0,
            Command::At | Command::Build | Command::Shutdown => 1,
            Command::Draw
            | Command::Connect
            | Command::Deliver
            | Command::Foreign
            | Command::Abandon
            | Command::Take
            | Command::Abort => 2,
            Command::Pair => 5,
            Command::DelayedPair | Command::Send => 6,
        }
    }

    /// Whether it is `pair`, in either form.
    pub fn is_pair(self) -> bool
        ensures { result ≡ is_pair self }
    {
        matches!(self, Command::Pair | Command::DelayedPair)
    }
}
