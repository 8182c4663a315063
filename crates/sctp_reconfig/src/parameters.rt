//! The parameters of a RE-CONFIG that was received, one after another (RFC 6525, 3.1).

ghost use Rattle.std.specs.Prelude.{◌≡◌, ◌≤◌, ℕ, map, MatchOption, Some, None};
ghost use Rattle.std.specs.Iterator.{YieldsFirstBy, item_count};
ghost use Rattle.sctp_reconfig.specs.Meanings.{parameter_meaning};
ghost use Rattle.sctp_model.specs.wire.Typed.{typed_in};
ghost use Rattle.sctp_reconfig.specs.Reading.{parameter_read, parameters_of, ListsAtMost, ListAtMost};

use crate::parameter::{Parameter, read_parameter};
use sctp_wire::{TypedItems, TypedIter, is_typed_list};
use std::marker::Model;

/// An iterator over the parameters of a RE-CONFIG.
#[derive(Drop)]
pub struct Parameters<'a> {
    rest: TypedIter<'a>,
    /// None of those left lists more streams.
    most: usize,
}

impl<'a> Model for Parameters<'a> {
    ghost use Rattle.std.specs.Prelude.{List, map};
    ghost use Rattle.sctp_reconfig.specs.Reading.{ParameterMeaning, parameter_read, ListAtMost};

    ghost Value = { List ParameterMeaning };

    ghost view = { λ s. map parameter_read s.rest };

    ghost invariant = { λ s. ListAtMost s.most (map parameter_read s.rest) };
}

impl<'a> Parameters<'a> {
    /// The number of streams that the longest request to reset streams lists, or more: none of the parameters that are left lists more.
    pub fn most_streams(&self) -> usize
        ensures { ListAtMost result self.now }
    {
        self.most
    }
}

impl<'a> Iterator for Parameters<'a> {
    type Item = Parameter<'a>;

    ghost next_gives = { YieldsFirstBy parameter_meaning (λ s. s) };

    ghost remaining = { item_count (λ s. s) };

    fn next(&mut self) -> Option<Parameter<'a>> {
        match self.rest.next() {
            Some(item) => Some(read_parameter(item.kind, item.value)),
            None => None,
        }
    }
}

/// The parameters in the value of a chunk of type [`RECONFIG`](crate::RECONFIG), in order; None exactly if the value isn't a list of
/// parameters (RFC 6525, 3.1; RFC 9260, 3.2.1). It allocates no memory.
pub fn read_parameters(value: &[u8]) -> Option<Parameters<'_>>
    ensures { MatchOption result (parameters_of value.now ≡ None) (λ items. parameters_of value.now ≡ Some items) }
{
    if !is_typed_list(value) {
        return None;
    }
    let items = TypedItems::new(value);
    Some(Parameters {
        most: most_listed(&items),
        rest: items.iter(),
    })
}

/// The number of streams that the longest request lists.
fn most_listed(items: &TypedItems<'_>) -> usize
    ensures { ListAtMost result (map parameter_read (typed_in items.now)) }
{
    let mut most = 0;
    for item in items.iter() {
        most = listed(&read_parameter(item.kind, item.value)).max(most);
    }
    most
}

/// The number of streams that a parameter lists.
fn listed(parameter: &Parameter<'_>) -> usize
    ensures { (n : ℕ) → result ≤ n → ListsAtMost n (parameter_meaning parameter.now) }
{
    match parameter {
        Parameter::Reset(request) => request.streams.len(),
        _ => 0,
    }
}
