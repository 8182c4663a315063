//! A file for each chunk: its layout, which values fit it, how it is read and written. INIT and INIT ACK have one layout, and so have HEARTBEAT
//! and HEARTBEAT ACK; what DATA and I-DATA share is in `piece`, what FORWARD-TSN and I-FORWARD-TSN share in `forward`.

pub mod abort;
pub mod cookie_ack;
pub mod cookie_echo;
pub mod error;
pub mod flags;
pub mod forward;
pub mod forward_tsn;
pub mod heartbeat;
pub mod i_data;
pub mod i_forward_tsn;
pub mod init;
pub mod other;
pub mod piece;
pub mod sack;
pub mod shutdown;
pub mod shutdown_ack;
pub mod shutdown_complete;
pub mod user_data;
