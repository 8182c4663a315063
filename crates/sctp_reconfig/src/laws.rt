//! Laws: theorems about all bytes and parameters, as the contracts of functions that do nothing.

ghost use Rattle.std.specs.Prelude.{◌≡◌, ℕ, ◌<◌, ◌^◌, List, [], map, Some, unwrap_or};
ghost use Rattle.sctp_model.specs.wire.Typed.{Typed, WritesTyped, typed_in};
ghost use Rattle.sctp_model.specs.wire.Reconfig.{ResetMeaning, ResetResult, result_code, reset_item, response_item};
ghost use Rattle.sctp_model.specs.end.EndView.{EndView};
ghost use Rattle.sctp_model.specs.end.Reconfiguring.{parameters_heard};
ghost use Rattle.sctp_reconfig.specs.Reading.{ParameterMeaning, ResetRequested, Responded, parameter_read, parameters_of};
ghost use Rattle.sctp_reconfig.specs.Laws.{IsReset, all_heard};
ghost use Rattle.sctp_reconfig.specs.SameCodes.{AreTheCodes};

// law
/// What is written for parameters is read as these parameters; a request and a response are read as they were written (RFC 6525, 4.1 and 4.4).
pub fn written_is_read()
    ensures lists { (bytes : List ℕ) (items : List Typed) → WritesTyped bytes items → parameters_of bytes ≡ Some (map parameter_read items) }
    ensures reset { (answered : ℕ) (m : ResetMeaning) → IsReset m → parameter_read (reset_item answered m) ≡ ResetRequested m }
    ensures response { (number : ℕ) (a : ResetResult) → number < 2 ^ 32
        → parameter_read (response_item number a) ≡ Responded number (result_code a) }
{}

// law
/// What a RE-CONFIG with this value does at an endpoint is what its parameters do, as they are read here, one after another; a value that is no
/// list does nothing (RFC 6525, 5.2).
pub fn parameters_act()
    ensures { (c : ℕ) (e : EndView) (value : List ℕ) → parameters_heard c e (typed_in value) ≡ all_heard c e (unwrap_or (parameters_of value) []) }
{}

// law
/// The type of the chunk and those of its parameters are the ones of that name in the definitions.
pub fn codes_are_the_definitions()
    ensures { AreTheCodes }
{}
