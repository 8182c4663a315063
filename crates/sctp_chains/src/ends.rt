//! Removing a chain from the list: at either end of it no other is moved. A list that is empty then gives its memory back.

ghost use Rattle.std.specs.Prelude.{◌≡◌, ◌<◌, ◌↔◌, length, slice_index_or, IfNone, IfSome, IsSome, OnSome};
ghost use Rattle.std.specs.List.{remove};

use crate::chain::Chain;
use sctp_sequence::Sequence;

/// Removes the chain at a position. If it was the last one, memory is given back.
#[inline(always)]
pub(crate) fn remove_at(chains: &mut Sequence<Chain>, at: usize) -> Option<Chain>
    ensures value { IfSome result (λ c. c ≡ slice_index_or chains.old.items at c) }
    ensures items { OnSome result (chains.new.items ≡ remove chains.old.items at) }
    ensures unchanged { IfNone result (chains.new.items ≡ chains.old.items) }
    ensures variant { IsSome result ↔ (at < length chains.old.items) }
{
    let chain = take_out(chains, at);
    chains.give_back();
    chain
}

/// Removes the chain at a position, and keeps all memory.
#[inline(always)]
fn take_out(chains: &mut Sequence<Chain>, at: usize) -> Option<Chain>
    ensures value { IfSome result (λ c. c ≡ slice_index_or chains.old.items at c) }
    ensures items { OnSome result (chains.new.items ≡ remove chains.old.items at) }
    ensures unchanged { IfNone result (chains.new.items ≡ chains.old.items) }
    ensures variant { IsSome result ↔ (at < length chains.old.items) }
{
    if at == 0 {
        return chains.pop_front();
    }
    chains.remove(at)
}
