//! Why a configuration is refused.

ghost use Rattle.std.specs.Prelude.{◌≡◌};
ghost use Rattle.sctp_terms.specs.Meanings.{config_fault_meaning, config_code};

use thiserror::Error;

/// What is wrong with a configuration; of several faults the one with the smallest code is returned.
#[derive(Clone, Copy, Debug, PartialEq, Eq, Error)]
pub enum ConfigFault {
    /// 1: a port is 0.
    #[error("a port is 0")]
    Port,
    /// 2: the packet limit isn't within 576 to 1,500 bytes.
    #[error("the packet limit is out of range")]
    PacketLimit,
    /// 3: the fragment size isn't within 4 to 1,400 bytes, or headers of 32 bytes and a fragment, padded to a multiple of 4, exceed the packet limit.
    #[error("the fragment is out of range")]
    Fragment,
    /// 4: the receive buffer isn't within 65,536 to 16,777,216 bytes.
    #[error("the buffer is out of range")]
    Buffer,
    /// 5: a number of streams isn't within 1 to 1,024.
    #[error("the number of streams is out of range")]
    Streams,
}

impl ConfigFault {
    /// The code of this fault, 1 to 5.
    pub fn code(self) -> u8
        ensures { result ≡ config_code (config_fault_meaning self) }
    {
        match self {
            ConfigFault::Port => 1,
            ConfigFault::PacketLimit => 2,
            ConfigFault::Fragment => 3,
            ConfigFault::Buffer => 4,
            ConfigFault::Streams => 5,
        }
    }
}
