//! What a sender keeps: the entries above CUM, the queue, the streams, the fates of tickets; and what is counted of them, so that no call goes over
//! all of them. No clause of the crate names a count: a part gives its items, and its counts are functions of them, which its invariant holds.
//!
//! | part | what it keeps | what it counts |
//! |---|---|---|
//! | `Outstanding` (`IsInOrder`, `IsCounted`) | an entry for each index above CUM, by its offset from CUM + 1; for each entry after the first ones, as many as rise by ticket, a pair (ticket, index), by rising ticket (`ByTicket`, `Pairs` of sctp_sequence), so that a binary search among entries and one among pairs find a message's entries, whose offsets are side by side, and whose pairs are | the offsets before which nothing waits for retransmission, and before which nothing is unsent; the bytes of data in flight, and those of their chunks (exact, since at most 32,767 entries of 65,535 bytes are); the entries that were sent and are still wanted; the abandoned entries in front, so that the point is a sum |
//! | `Fates` (`AreFates`) | of the first tickets, which are over, a block for each 4,096: one fate if all ended alike, else one each; of the tickets after them one fate each | how many tickets are over, how often one was abandoned |
//! | `Queue` (`IsQueueOf`) | the messages without a TSN; under I-DATA a seat (stream, ticket) for each (`Pairs` of sctp_sequence); both in deques, where removing one shifts the shorter side | the TSNs that they may take, and their bytes; of each stream those of user data (`AreUserBytes`) |
//! | `Streams` (`IsStreamsOf`, `IsCountedOf`) | the numbers of each stream, and its message in part (a track); under I-DATA the tickets of the messages in part, by stream and by ticket (`TwoWayMap` of sctp_sequence). Under DATA no message is ever in part, and nothing is listed | how many messages are in part; the TSNs that they may take |
//! | `Dues` (`PagedNumbers` of sctp_sequence) | of each ticket a time before which its message is not late; 8 bytes a ticket from the first message with a lifetime on, and before it only how many tickets there are | the least time of 64 tickets in a row, and the least of all |
//!
//! Words: a *place* is where a message is in the queue, counted from 0; a *rank* is how many are before one in an ordered list; an *offset* is where
//! an entry is, counted from CUM + 1; the *content* of an index is a fragment or an end mark; an entry's *pair*, if it has one, is its ticket and
//! index, a *seat* a message's stream and ticket, a *track* one stream's numbers and its message in part; a *stretch* is 64 entries in a row, and a
//! *slot* is where what is known of them is kept; a *shell* is the memory of a message that is gone, without its bytes; a *wish* is what is to be
//! sent next.
//!
//! A message's bytes are freed when CUM passes its last index. Its shell, the memory without the bytes, is kept, 64 of them at most, for messages to
//! come; no view knows of them. An order by tickets costs nothing as long as tickets rise with indexes, as they do unless streams take turns.

pub mod blocks;
pub mod by_message;
pub mod by_ticket;
pub mod counts;
pub mod dues;
pub mod entry;
pub mod fates;
pub mod giving_back;
pub mod going_out;
pub mod growing;
pub mod heads;
pub mod last_forward;
pub mod looking;
pub mod message;
pub mod outstanding;
pub mod pieces;
pub mod queue;
pub mod request;
pub mod resets;
pub mod run_room;
pub mod searching;
pub mod seats;
pub mod shells;
pub mod streams;
pub mod stretches;
pub mod taking;
pub mod track;
pub mod user_data;
pub mod waiting;
pub mod wishes;
