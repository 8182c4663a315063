//! Logs of the messages that a user has taken: for each stream the numbers of the ordered ones, and how many unordered ones.

ghost use Rattle.std.specs.Prelude.{◌≡◌, ℕ, ◌<◌, ◌≤◌, List, [], ◌∷◌, ◌++◌, length, IfOk, OnOk};
ghost use Rattle.sctp_model.specs.numbers.Lists.{at};
ghost use Rattle.sctp_model.specs.receiver.ReceiverView.{Handed};
ghost use Rattle.sctp_recv.specs.HandedOf.{handed_of};
ghost use Rattle.sctp_pair.specs.Taken.{IsStreamLog, AreLogged, HasRoom, HasRoomAt};

use sctp_recv::Message;
use sctp_values::NoMemory;
use std::alloc::Global;

/// The log of one stream: the numbers of the ordered messages, in their order, and how many unordered ones.
#[derive(Drop)]
pub(crate) struct StreamLog {
    pub(crate) numbers: Vec<u64>,
    pub(crate) unordered: u64,
}

impl StreamLog {
    /// An empty log. It allocates nothing.
    pub(crate) fn new(alloc: Global) -> StreamLog
        ensures { IsStreamLog result [] }
    {
        StreamLog {
            numbers: Vec::new(alloc),
            unordered: 0,
        }
    }

    /// A copy of this log.
    ///
    /// # Errors
    /// An allocation failed.
    pub(crate) fn copy(&self, alloc: Global) -> Result<StreamLog, NoMemory>
        ensures { (hs : List Handed) → IsStreamLog self.now hs → IfOk result (λ copy. IsStreamLog copy hs) }
    {
        let numbers = Vec::from_slice(alloc, &self.numbers).map_err(|_| NoMemory)?;
        Ok(StreamLog {
            numbers,
            unordered: self.unordered,
        })
    }

    /// Reserves space for one more message. There is none if the count of unordered messages would need more than 64 bits.
    ///
    /// # Errors
    /// An allocation failed; nothing has changed.
    pub(crate) fn make_room(&mut self) -> Result<(), NoMemory>
        ensures same { (hs : List Handed) → IsStreamLog self.old hs → IsStreamLog self.new hs }
        ensures room { OnOk result (HasRoom self.new) }
    {
        if self.unordered == u64::MAX {
            return Err(NoMemory);
        }
        self.numbers.reserve(1).map_err(|_| NoMemory)
    }

    /// Adds a message, for which space is reserved.
    pub(crate) fn note(&mut self, message: &Message)
        requires { HasRoom self.old }
        ensures { (hs : List Handed) → IsStreamLog self.old hs → IsStreamLog self.new (hs ++ handed_of message.now ∷ []) }
    {
        if !message.ordered {
            self.unordered += 1;
            return;
        }
        if let Some(number) = message.number {
            self.numbers.push_reserved(number);
        }
    }
}

/// Reserves space for one more message in the log of a stream.
///
/// # Errors
/// An allocation failed; nothing has changed.
pub(crate) fn make_room_at(
    alloc: Global,
    logs: &mut Vec<StreamLog>,
    stream: u16,
) -> Result<(), NoMemory>
    ensures same { (taken : ℕ → List Handed) → AreLogged logs.old.items taken → AreLogged logs.new.items taken }
    ensures room { OnOk result (HasRoomAt logs.new.items stream) }
{
    grow(alloc, logs, usize::from(stream) + 1)?;
    let log = &mut logs[usize::from(stream)];
    log.make_room()
}

/// Makes logs until there are `count`, one for each stream from 0 on. The cost is that of the logs made.
///
/// # Errors
/// An allocation failed; what the logs say is unchanged.
fn grow(alloc: Global, logs: &mut Vec<StreamLog>, count: usize) -> Result<(), NoMemory>
    ensures same { (taken : ℕ → List Handed) → AreLogged logs.old.items taken → AreLogged logs.new.items taken }
    ensures within { OnOk result (count ≤ length logs.new.items) }
{
    for _next in logs.len()..count {
        logs.push(StreamLog::new(alloc)).map_err(|_| NoMemory)?;
    }
    Ok(())
}

/// An empty log for each of `streams` streams, so that no later call has to make one.
///
/// # Errors
/// An allocation failed.
pub(crate) fn fresh_logs(alloc: Global, streams: u16) -> Result<Vec<StreamLog>, NoMemory>
    ensures { IfOk result (λ logs. AreLogged logs.items (λ s. [])) }
{
    let mut logs = Vec::new(alloc);
    logs.reserve(usize::from(streams)).map_err(|_| NoMemory)?;
    grow(alloc, &mut logs, usize::from(streams))?;
    Ok(logs)
}

/// Empties the logs. It allocates nothing: they keep their space.
pub(crate) fn wipe(alloc: Global, logs: &mut Vec<StreamLog>)
    ensures { AreLogged logs.new.items (λ s. []) }
{
    let count = logs.len();
    logs.clear();
    let _made = grow(alloc, logs, count);
}

/// Logs that a message was taken from a stream; space for it is reserved.
pub(crate) fn note_at(logs: &mut Vec<StreamLog>, stream: u16, message: &Message)
    requires { HasRoomAt logs.old.items stream }
    ensures { (taken : ℕ → List Handed) → AreLogged logs.old.items taken
        → AreLogged logs.new.items (at taken stream (taken stream ++ handed_of message.now ∷ [])) }
{
    let log = &mut logs[usize::from(stream)];
    log.note(message);
}

/// A copy of the log of a stream.
///
/// # Errors
/// An allocation failed.
pub(crate) fn log_of(alloc: Global, logs: &[StreamLog], stream: u16) -> Result<StreamLog, NoMemory>
    ensures { (taken : ℕ → List Handed) → AreLogged logs.now taken → IfOk result (λ log. IsStreamLog log (taken stream)) }
{
    match logs.get(usize::from(stream)) {
        None => Ok(StreamLog::new(alloc)),
        Some(log) => log.copy(alloc),
    }
}
