//! The parameters of an INIT or an INIT ACK: which are used, and which are reported as unrecognized (RFC 9260, 3.2.1).

ghost use Rattle.std.specs.Prelude.{◌≡◌, ◌≤◌, true, MatchOption, OnOk, Some, None};
ghost use Rattle.sctp_model.specs.wire.Typed.{typed_in, typed_bytes};
ghost use Rattle.sctp_model.specs.wire.Unknown.{is_known_parameter, is_passed_over, parameters_reported};
ghost use Rattle.sctp_model.specs.end.Options.{value_of, reports_of};
ghost use Rattle.sctp_model.specs.end.Reports.{item};
ghost use Rattle.sctp_opening.specs.inner.Asked.{stops, is_reported};
ghost use Rattle.sctp_opening.specs.inner.Fitting.{IsList, all_within, told_within};

use crate::lists::put_within;
use sctp_wire::codes::{
    ADDRESS_TYPES, COOKIE_PRESERVATIVE, FORWARD_TSN_SUPPORTED, HOST_NAME, IPV4_ADDRESS,
    IPV6_ADDRESS, STATE_COOKIE, SUPPORTED_EXTENSIONS, UNRECOGNIZED_PARAMETER, ZERO_CHECKSUM,
};
use sctp_wire::{NoMemory, Parameters, put_parameter, unknown_parameter};
use std::alloc::Global;

/// The value of the first parameter of a known type, unless an unrecognized one before it stops processing.
#[tactic(auto, using(crate::proofs::FirstLemmas::firsts))]
pub(crate) fn value_of<'a>(kind: u16, parameters: &Parameters<'a>) -> Option<&'a [u8]>
    requires { is_known_parameter kind ≡ true }
    ensures { MatchOption result (value_of kind parameters.now ≡ None) (λ value. value_of kind parameters.now ≡ Some value.now) }
{
    for parameter in parameters.iter() {
        if parameter.kind == kind {
            return Some(parameter.value);
        }
        if stops(parameter.kind) {
            return None;
        }
    }
    None
}

/// Appends an Unrecognized Parameter, which holds the whole parameter, for each one that is to be reported, as long as the list has at most `most`
/// bytes with it (RFC 9260, 3.2.2).
pub(crate) fn put_reports(
    alloc: Global,
    parameters: &Parameters<'_>,
    most: usize,
    list: &mut Vec<u8>,
) -> Result<(), NoMemory>
    requires { most ≤ 1500 }
    ensures bytes { OnOk result (list.new.items ≡ all_within most list.old.items (reports_of (parameters_reported (typed_in parameters.now)))) }
    ensures list { IsList list.old.items → OnOk result (IsList list.new.items) }
{
    for parameter in parameters.iter() {
        put_report(alloc, parameter.kind, parameter.value, most, list)?;
        if stops(parameter.kind) {
            return Ok(());
        }
    }
    Ok(())
}

/// Appends each parameter that is to be reported, as long as the list has at most `most` bytes with it: the value of the Unrecognized Parameters
/// cause (RFC 9260, 3.3.10.8).
pub(crate) fn put_unrecognized(
    parameters: &Parameters<'_>,
    most: usize,
    list: &mut Vec<u8>,
) -> Result<(), NoMemory>
    requires { most ≤ 1500 }
    ensures bytes { OnOk result (list.new.items ≡ all_within most list.old.items (parameters_reported (typed_in parameters.now))) }
    ensures list { IsList list.old.items → OnOk result (IsList list.new.items) }
{
    for parameter in parameters.iter() {
        put_whole(parameter.kind, parameter.value, most, list)?;
        if stops(parameter.kind) {
            return Ok(());
        }
    }
    Ok(())
}

/// Appends the report of one parameter if its type asks for one and the list then has at most `most` bytes.
fn put_report(
    alloc: Global,
    kind: u16,
    value: &[u8],
    most: usize,
    list: &mut Vec<u8>,
) -> Result<(), NoMemory>
    requires { most ≤ 1500 }
    ensures bytes { OnOk result (list.new.items ≡ told_within most list.old.items kind (item UNRECOGNIZED_PARAMETER (typed_bytes (item kind value.now)))) }
    ensures list { IsList list.old.items → OnOk result (IsList list.new.items) }
{
    if !is_reported(kind) {
        return Ok(());
    }
    if value.len() > most {
        return Ok(());
    }
    let mut whole = Vec::new(alloc);
    put_parameter(kind, value, &mut whole)?;
    put_within(UNRECOGNIZED_PARAMETER, &whole, most, list)
}

/// Appends one parameter itself if its type asks for a report and the list then has at most `most` bytes.
fn put_whole(kind: u16, value: &[u8], most: usize, list: &mut Vec<u8>) -> Result<(), NoMemory>
    requires { most ≤ 1500 }
    ensures bytes { OnOk result (list.new.items ≡ told_within most list.old.items kind (item kind value.now)) }
    ensures list { IsList list.old.items → OnOk result (IsList list.new.items) }
{
    if !is_reported(kind) {
        return Ok(());
    }
    put_within(kind, value, most, list)
}

/// Whether a parameter of this type is used.
fn is_known(kind: u16) -> bool
    ensures { result ≡ is_known_parameter kind }
{
    matches!(
        kind,
        STATE_COOKIE
            | UNRECOGNIZED_PARAMETER
            | ZERO_CHECKSUM
            | SUPPORTED_EXTENSIONS
            | FORWARD_TSN_SUPPORTED
    )
}

/// Whether a parameter of this type is ignored without a report (RFC 9260, 3.3.2.1).
fn is_passed_over(kind: u16) -> bool
    ensures { result ≡ is_passed_over kind }
{
    matches!(
        kind,
        IPV4_ADDRESS | IPV6_ADDRESS | COOKIE_PRESERVATIVE | HOST_NAME | ADDRESS_TYPES
    )
}

/// Whether processing stops at a parameter of this type.
fn stops(kind: u16) -> bool
    ensures { result ≡ stops kind }
{
    !is_known(kind) && !is_passed_over(kind) && unknown_parameter(kind).stop
}

/// Whether a parameter of this type is reported as unrecognized.
fn is_reported(kind: u16) -> bool
    ensures { result ≡ is_reported kind }
{
    !is_known(kind) && !is_passed_over(kind) && unknown_parameter(kind).report
}
