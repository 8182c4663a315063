//! The machine of an endpoint and the world of two endpoints are functions: whatever may happen has one outcome, and no other. The headline in an
//! application's words, laws of stream reset, what is noted of an endpoint, and what a receiver and a sender do by relations, computed. No function
//! here does anything: each carries a theorem as its contract.
//!
//! The world of two endpoints (`sctp_model/specs/world`) is a relation, with a row for each way that an event can go. This crate shows that it is a
//! function as long as memory is there: in each world of each run an event has an outcome, and no other, also if third parties know a tag or have a
//! cookie that opens, since what a script writes is owed for every script. So no statement over runs is empty (`docs/THEOREM.md`, "How it is proved",
//! 6). No function has a body; `tests/lemmas.sh sctp_outcomes` prints what each file of lemmas proves.
//!
//! | statement | contract |
//! |---|---|
//! | in every world of every run, each event that may happen has an outcome other than an allocation failure, and leaves a world. What may happen (`CanHappen`): any event whose random values are such, whose time has 64 bits, and whose third party's packet, if it reads, has its chunks where they may be | `every_event_has_an_outcome`: `EventsHaveOutcomes` |
//! | no event has two: outcome and world are one | `every_event_has_one_outcome`: `OutcomesAreOne` |
//! | of one endpoint, whatever its peer does: each packet that reads leaves one state and has one verdict. Asked is only what packets can have made of its receiver (`IsReal`), and what a packet leaves is real again | `each_packet_has_one_verdict`: `ActIsOne` |
//! | an endpoint that is asked for a packet builds one, or none, and no other | `each_end_has_one_next_packet`: `BuildIsOne` |
//! | in every world both receivers have delivered all that they may, and no place is filled twice; each has its configured buffer and holds no more | `both_receivers_are_at_rest`, `no_receiver_passes_its_buffer`: `BuffersHold` |
//! | in every world, also of runs that meet no assumption, each sender is one that its calls reach, so that all laws of `sctp_safety` about senders apply, and its plan is orderly as far as its fragments may hold a byte; if the assumptions are met both are, open or not | `both_senders_are_in_order`, clauses `each`, `both` |
//! | a packet at an endpoint without an association that has no cookie that opens changes nothing but the time, whatever it is answered; nor does one that is dropped, for its bytes, ports, tag, cookie or the state. In a packet that reads no chunk is before a COOKIE ECHO | `packets_leave_no_trace`, clauses `strays`, `drops` |
//! | whatever arrives, whole or cut, an endpoint stays set up as it is, with its packet limit | `ends_stay_as_they_are_set_up` |
//!
//! Totality is by computation: a witness is a term for the outcome and the world. It isn't a program (`docs/DECISIONS.md`). Two facts carry it, since
//! nothing else in the world changes a receiver: above some TSN a receiver recorded nothing, so it has a cumulative TSN, a SACK and a step for each
//! chunk; and it keeps each chunk in a place of its own, so each of these is one.
//!
//! ## In a user's words
//!
//! `specs/Users` states the headline by events, answers and the readers of an endpoint, in one record, `IsFaithful`, about one stream in one
//! direction (`Exchange`). It speaks of no plan and no TSN; SAFE and CLOSING of `sctp_model/specs/world` are beneath it. In every run that meets the
//! three assumptions, at any time, on each stream in each direction (`users_take_what_was_sent`):
//!
//! | field | says |
//! |---|---|
//! | `matches`, `all`, `each`, `once` | each message that was taken or waits for `take` is matched with one that the peer's user passed to `send` and that was accepted: on this stream, ordered or unordered as it was sent, with its payload protocol identifier and its bytes; none with two |
//! | `in_order` | ordered ones are in the order of their tickets |
//! | `overtaken` | an ordered message that was sent before a delivered one was delivered, or was given up: by `abandon`, which answered so; past its lifetime, by the sender's clock; or with a limit of retransmissions, if partial reliability was agreed on |
//! | `ticket_of`, `acknowledged` | a message that `acknowledged` reports was delivered, or the peer holds all its bytes: chunks of its stream and kind, of rising TSN, each with this message's ticket and no other |
//! | `completed` | once either endpoint has completed the association, each accepted message was delivered or given up: none is left in a queue |
//!
//! That an ordered message is given up only after a fragment went out again as often as its limit says is in SAFE: no event shows it. The proof: over
//! a run, logs have what events and answers show (`proofs/users/Noted`, `Accepted`, `Runs`); each delivered message is matched (`Matched`); kept
//! chunks are the message's bytes (`Held`); and where each accepted message is, by `each_message_is_placed` of `sctp_safety` (`Promised`).
//!
//! AGED in the same words: it asks just that each packet is delivered before either endpoint has assigned 2^31 - 65,536 more TSNs than when it was
//! built, as the number of TSNs that an endpoint has assigned only grows (`aged_asks_no_more`, clauses `more`, `less`, `grows`). A run in which each
//! endpoint assigns fewer than 2^31 TSNs needs it not at all (`short_runs_are_faithful`).
//!
//! ## Clocks
//!
//! Each endpoint has a clock of its own; nothing compares the two (`specs/Clocks`).
//!
//! | statement | contract |
//! |---|---|
//! | in every run without an event of one clock alone both clocks show the same time; each run is a run, to the same world, in which an event that notifies both of the time is four events of one clock alone | `one_clock_is_a_case_of_two`, clauses `same`, `each` |
//! | there is a run in which the clocks differ: B hands in what arrived at the time of its clock, 5, and asks what is due then; A's data timer expires at 7,000 by A's clock | `a_message_arrives_by_two_clocks` |
//!
//! ## Stream reset
//!
//! | statement | contract |
//! |---|---|
//! | in every world, also of runs that meet no assumption, a request of an established endpoint that waits for its answer is due, or its timer runs | `no_request_is_forgotten` |
//! | if streams are ready, no request waits and a number is left, the next packet asks for these streams, with the next number and the last TSN assigned; if it is full without that, the request is due still | `ready_streams_are_asked_for` |
//! | the count that is reported of a reset of the peer's (`WasReset`) was noted when a request in a packet that arrived was performed at this endpoint, in its turn and naming the stream, and is how many messages had been delivered then, less those taken since; it is never more than wait | `reported_counts_were_so`, clauses `counts`, `waiting` |
//! | in every run that meets the three assumptions, on each stream in each direction, the messages that an application took, and those that wait, are matched with messages that its peer's user sent, each with one of its own and ordered ones in order, so that each reset of the stream that was reported to it (`WasReset`) parts them: what is delivered after that reset was sent after the peer's user had reset the stream; what was delivered before it was sent before, if some of that waited, or if the application takes messages only with all resets reported (`TakesToldOnly`) | `resets_part_messages`: `ResetsPartMessages` |
//! | in every run that meets the three assumptions, no more resets of a stream are reported to an application than its peer's user asked for, by calls that were accepted; and there is such a run in which a stream is reset twice, with nothing sent between, and both resets are reported | `resets_are_reported_once`, clauses `once`, `twice` |
//! | in every run that meets the three assumptions, in which an application has asked for the peer's resets of a stream whenever a packet arrives (`HearsToldOnly`), of those that its peer's user began all were reported but one that is to be reported, and one that isn't done; if it takes messages only with all resets reported, too, wherever a reset of its peer's user lies between two messages that are delivered, one is reported, or is to be, whose place does; and there is such a run in which one does | `resets_are_all_reported`, clauses `counts`, `places`, `between` |
//!
//! ## What is noted of an endpoint
//!
//! Its user may note the tickets given, the tickets numbered, in the order of their first TSNs, and the messages taken from each stream. Of every
//! sound endpoint (`IsSound`: bare before an association, with its configured buffer, each TSN of a message that has its number) it is said what each
//! call leaves of these. Endpoints are made sound, and each call leaves a sound one. Nothing is assumed of third parties or of random values.
//!
//! | statement | contract |
//! |---|---|
//! | nothing is noted of a new endpoint, or one opened without packets | `new_ends_have_no_logs` |
//! | a packet, whole or cut, and a time give no ticket, number no message and take none | `what_comes_keeps_logs` |
//! | nor do connect, shutdown, abort and abandon; send gives one ticket exactly if it returns one; take takes the message that it returns, from its stream alone | `calls_note_their_own` |
//! | a packet that is built numbers the messages newly numbered, whose tickets are after all before them, and gives and takes nothing; if there is none to build nothing is noted | `packets_note_their_numbers`, `no_packet_notes_nothing` |
//! | it begins a message for each 20 bytes after its header at most, if the endpoint's sender is one that its calls reach while the association is open (`IsFilling`) | `packets_begin_few_messages` |
//! | in every run, of an endpoint whose fragments may hold a byte, the tickets that a packet returns are of messages that had no number before and have one now, and none was returned before; what was returned stays, in its order | `tickets_are_told_once`, clauses `builds`, `runs` |
//!
//! ## Four runs
//!
//! Lists of events of the two endpoints alone, each step computed from the definitions, so that a reader sees them compute (`specs/Examples`,
//! `specs/Script`).
//!
//! | run | contract |
//! |---|---|
//! | two endpoints open by packets; A sends "Hi", B's user takes it, its SACK returns; A shuts down, and both complete (21 events, nine packets) | `a_message_arrives` |
//! | under DATA: a message's packet is lost, A's user abandons it and sends another; one packet has the FORWARD-TSN and the other message, which is delivered as number 1 | `a_message_is_passed_over` |
//! | under I-DATA: the first of two fragments arrives; A's user abandons the message, which takes index 2 for its end mark; the I-FORWARD-TSN arrives, and B drops the fragment | `a_message_in_part_is_ended` |
//! | a script of 30 events in which each delivered packet is delivered twice, with each outcome, to the length of each packet | `the_script_runs` |
//!
//! ## The definitions, computed
//!
//! Where a definition is a relation, a reader can't compute its result. A receiver's steps are therefore computed by functions over the view
//! (`specs/receiver`), and proved to be what the relation says and nothing else; so are those of a sender whose function is a list of tests
//! (`specs/sender`).
//!
//! | what is computed | contract |
//! |---|---|
//! | `wholes`, `whole_number`, `whole_with`: every complete message among kept chunks, in both formats, of honest and dishonest chunks; that of a number, or with a chunk, or that there is none | `wholes_are_computed` |
//! | `due_from`: what may be delivered on a stream from any number on | `what_is_due_is_computed` |
//! | `cumulative`, `all_runs`: the cumulative TSN, the maximal runs above it; a view has one SACK | `the_cumulative_index_is_computed`, `runs_are_computed` |
//! | `piece_step`, `forward_step`: **from every view with a cumulative TSN each chunk and each FORWARD-TSN has an answer and a view after it**, and no other, if kept chunks are apart and were recorded | `pieces_are_computed`, `forwards_are_computed` |
//! | `next_wish`, `assigned`, `turn_of`: the next chunk to send, what takes the next TSN, and whose turn it is, as `docs/PROTOCOL.md`, "Sending", says; and no other | `next_wishes_are_computed` |
//! | `cut`: joined the fragments are the message, all but the last have the full size, the last a byte at least; there is no other way | `messages_are_cut` |
//! | `refusal`: a message is refused for a reason exactly if it holds and none before it, and accepted exactly if none holds | `refusals_are_told` |
//! | `sack_fault`, `sack_after`, `shutdown_fault`, `shutdown_after`: a fault exactly if the SACK has it, and then nothing changes; else exactly what the SACK, or SHUTDOWN, acknowledges | `sacks_are_taken`, `shutdowns_are_taken` |
//!
//! Assumed is only that the TSN has 32 bits, and of `cut` and `refusal` that the size isn't 0. Examples written by hand beside them
//! (`sctp_model/proofs/sender`, `sctp_model/proofs/receiver`) go over the wraps, windows to the last byte, faults and their order, end marks,
//! abandoning before and after arrival, and what a FORWARD-TSN drops in either format.
//!
//! Not computed: whether a plan is orderly, five conditions over all streams and numbers (that each that moves reach is, is a theorem of
//! `sctp_safety`); `drained`, what goes into a packet, the point, the FORWARD-TSN and what is reported by ticket, of which `sctp_safety` says that
//! they are what the relations say, and one each.
//!
//! That a row's guard is needed shows in the proofs: two rows that overlap would make `every_event_has_one_outcome` false, a case without a row
//! `every_event_has_an_outcome`.
#![tactic(auto)]

mod clocks;
mod examples;
mod headline;
mod kept;
mod outcomes;
mod parting;
mod receiver_steps;
mod resetting;
mod sender_calls;
mod steps;
mod views;

pub use clocks::{a_message_arrives_by_two_clocks, one_clock_is_a_case_of_two};
pub use examples::{
    a_message_arrives, a_message_in_part_is_ended, a_message_is_passed_over, the_script_runs,
};
pub use headline::{aged_asks_no_more, short_runs_are_faithful, users_take_what_was_sent};
pub use kept::{
    calls_note_their_own, new_ends_have_no_logs, no_packet_notes_nothing,
    packets_begin_few_messages, packets_note_their_numbers, tickets_are_told_once,
    what_comes_keeps_logs,
};
pub use outcomes::{every_event_has_an_outcome, every_event_has_one_outcome};
pub use parting::{resets_are_all_reported, resets_are_reported_once, resets_part_messages};
pub use receiver_steps::{
    forwards_are_computed, pieces_are_computed, runs_are_computed,
    the_cumulative_index_is_computed, what_is_due_is_computed, wholes_are_computed,
};
pub use resetting::{
    no_request_is_forgotten, ready_streams_are_asked_for, reported_counts_were_so,
};
pub use sender_calls::{
    messages_are_cut, next_wishes_are_computed, refusals_are_told, sacks_are_taken,
    shutdowns_are_taken,
};
pub use steps::{
    each_end_has_one_next_packet, each_packet_has_one_verdict, ends_stay_as_they_are_set_up,
    packets_leave_no_trace,
};
pub use views::{
    both_receivers_are_at_rest, both_senders_are_in_order, no_end_gets_a_pace_unasked,
    no_end_is_held_for_ever, no_end_resets_unasked, no_receiver_passes_its_buffer,
};
