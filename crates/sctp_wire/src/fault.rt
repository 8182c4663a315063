//! Why bytes aren't a list of chunks.

ghost use Rattle.std.specs.Prelude.{◌≡◌, ◌+◌, ◌<◌, ◌^◌};
ghost use Rattle.sctp_wire.specs.FaultTree.{moved, offset_of, fault_at};

use thiserror::Error;

/// Why bytes aren't a list of chunks: the first check that fails, in this order at each chunk, with the offset
/// of that chunk's first byte.
#[derive(Clone, Copy, Debug, PartialEq, Eq, Error)]
pub enum WireFault {
    /// Fewer bytes are left than a header takes, or than the length field says.
    #[error("the chunk at byte {offset} is cut off")]
    Cut { offset: usize },
    /// The length field is below 4, the header's own length.
    #[error("the chunk at byte {offset} has a length below 4")]
    LengthTooSmall { offset: usize },
    /// The padding to a multiple of 4 is missing.
    #[error("the chunk at byte {offset} lacks its padding")]
    PaddingMissing { offset: usize },
    /// The value doesn't have the layout of the chunk's type.
    #[error("the chunk at byte {offset} isn't of its type's layout")]
    ChunkBody { offset: usize },
    /// The parameters or causes of the chunk aren't a list of whole items.
    #[error("the parameters or causes of the chunk at byte {offset} aren't a list")]
    ParameterLength { offset: usize },
    /// All chunks are right by themselves, and this is the first one that is bundled though its type must be alone in a packet, or that
    /// follows another though its type must be first.
    #[error("the chunk at byte {offset} isn't alone or first")]
    NotAlone { offset: usize },
}

/// What is wrong with one chunk, by itself.
#[derive(Clone, Copy)]
pub(crate) enum Reason {
    IsCut,
    HasShortLength,
    LacksPadding,
    HasOtherBody,
    HasNoList,
}

impl Reason {
    /// This fault of the chunk that begins at `offset`.
    pub(crate) fn at(self, offset: usize) -> WireFault
        ensures { result ≡ fault_at self offset }
    {
        match self {
            Reason::IsCut => WireFault::Cut { offset },
            Reason::HasShortLength => WireFault::LengthTooSmall { offset },
            Reason::LacksPadding => WireFault::PaddingMissing { offset },
            Reason::HasOtherBody => WireFault::ChunkBody { offset },
            Reason::HasNoList => WireFault::ParameterLength { offset },
        }
    }
}

impl WireFault {
    /// This fault with `distance` added to its offset, if that many bytes precede those that were parsed.
    pub fn moved_by(self, distance: usize) -> WireFault
        requires { offset_of self + distance < 2 ^ 64 }
        ensures { result ≡ moved distance self }
    {
        match self {
            WireFault::Cut { offset } => WireFault::Cut {
                offset: offset + distance,
            },
            WireFault::LengthTooSmall { offset } => WireFault::LengthTooSmall {
                offset: offset + distance,
            },
            WireFault::PaddingMissing { offset } => WireFault::PaddingMissing {
                offset: offset + distance,
            },
            WireFault::ChunkBody { offset } => WireFault::ChunkBody {
                offset: offset + distance,
            },
            WireFault::ParameterLength { offset } => WireFault::ParameterLength {
                offset: offset + distance,
            },
            WireFault::NotAlone { offset } => WireFault::NotAlone {
                offset: offset + distance,
            },
        }
    }
}
