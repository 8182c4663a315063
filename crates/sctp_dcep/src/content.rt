//! What an application sends on a data channel (RFC 8831, 6.6 and 8).

ghost use Rattle.std.specs.Prelude.{◌≡◌, option_map};
ghost use Rattle.sctp_dcep.specs.Content.{id_of, carried, content_of};
ghost use Rattle.sctp_dcep.specs.Meanings.{content_meaning};

/// The payload protocol identifier of the messages of DCEP (RFC 8831, 8).
pub const DCEP: u32 = 50;

/// That of text.
const STRING: u32 = 51;
/// That of binary data.
const BINARY: u32 = 53;
/// That of text without a byte.
const STRING_EMPTY: u32 = 56;
/// That of binary data without a byte.
const BINARY_EMPTY: u32 = 57;

/// What an application sends on a data channel: any number of bytes, none too (RFC 8831, 6.6).
#[derive(Clone, Copy, Debug, PartialEq, Eq)]
pub enum Content<'a> {
    /// Text, which should be UTF-8.
    Text(&'a [u8]),
    /// Binary data.
    Binary(&'a [u8]),
}

impl<'a> Content<'a> {
    /// The payload protocol identifier that it is sent with (RFC 8831, 6.6 and 8): 51, 53, 56 or 57.
    pub fn payload_id(&self) -> u32
        ensures { result ≡ id_of (content_meaning self.now).text (content_meaning self.now).bytes }
    {
        match self {
            Content::Text(bytes) => {
                if bytes.is_empty() {
                    STRING_EMPTY
                } else {
                    STRING
                }
            }
            Content::Binary(bytes) => {
                if bytes.is_empty() {
                    BINARY_EMPTY
                } else {
                    BINARY
                }
            }
        }
    }

    /// The user data that it is sent as: its bytes, or one zero if there is none, since no message of the association is empty (RFC 8831, 6.6).
    pub fn user_data(&self) -> &'a [u8]
        ensures { result.now ≡ carried (content_meaning self.now).bytes }
    {
        let bytes = match self {
            Content::Text(bytes) => *bytes,
            Content::Binary(bytes) => *bytes,
        };
        if bytes.is_empty() { &[0] } else { bytes }
    }
}

/// What a message with this payload protocol identifier and this user data says. Of an empty text or of empty binary data the user data is ignored. None
/// exactly with an identifier of none of these, as those of partial messages, 52 and 54, which are deprecated (RFC 8831, 6.6 and 8).
pub fn read_content(payload_id: u32, user_data: &[u8]) -> Option<Content<'_>>
    ensures { option_map content_meaning result ≡ content_of payload_id user_data.now }
{
    match payload_id {
        STRING => Some(Content::Text(user_data)),
        BINARY => Some(Content::Binary(user_data)),
        STRING_EMPTY => Some(Content::Text(&[])),
        BINARY_EMPTY => Some(Content::Binary(&[])),
        _ => None,
    }
}
