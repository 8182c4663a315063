//! The lines of the chunks that open and close an association, of HEARTBEAT and ERROR, and of chunks of an unknown type.

ghost use Rattle.std.specs.Prelude.{◌≡◌, ◌∷◌, [], ◌++◌, codes, decimal, OnOk, OnErr};
ghost use Rattle.sctp_model.specs.wire.Typed.{typed_in};
ghost use Rattle.sctp_text.specs.Numerals.{hex_word};
ghost use Rattle.sctp_text.specs.SpacedWords.{line_of};
ghost use Rattle.sctp_wire.specs.ChunkTree.{init_meaning};
ghost use Rattle.sctp_print.specs.ChunkLines.{flag_word, init_words, unknown_words, joined, type_word};

use crate::words::{behind_comma, count_items, hex_text, kinds_word};
use sctp_text::{Word, put_line};
use sctp_wire::{Causes, Init};
use std::alloc::{AllocError, Global};

/// Appends the line of an INIT or INIT ACK, whose name comes first.
pub(crate) fn put_init(name: &[u8], init: &Init<'_>, out: &mut Vec<u8>) -> Result<(), AllocError>
    ensures put { OnOk result (out.new.items ≡ out.old.items ++ line_of (init_words name.now (init_meaning init.now))) }
    ensures refused { OnErr result (out.new.items ≡ out.old.items) }
{
    let tag = init.tag.to_be_bytes();
    let words = [
        Word::Text(b"tag"),
        Word::Hex(&tag),
        Word::Text(b"rwnd"),
        Word::Number(u64::from(init.rwnd)),
        Word::Text(b"out"),
        Word::Number(u64::from(init.outbound)),
        Word::Text(b"in"),
        Word::Number(u64::from(init.inbound)),
        Word::Text(b"tsn"),
        Word::Number(u64::from(init.tsn)),
        Word::Text(b"params"),
        Word::Number(count_items(&init.parameters)),
    ];
    put_line(name, &words, &[], out)
}

/// Appends the line of a HEARTBEAT or HEARTBEAT ACK, whose name comes first.
pub(crate) fn put_info(
    alloc: Global,
    name: &[u8],
    info: &[u8],
    out: &mut Vec<u8>,
) -> Result<(), AllocError>
    ensures put { OnOk result (out.new.items ≡ out.old.items ++ line_of (name.now ∷ codes "info" ∷ hex_word info.now ∷ [])) }
    ensures refused { OnErr result (out.new.items ≡ out.old.items) }
{
    let info = hex_text(alloc, info)?;
    put_line(name, &[Word::Text(b"info"), Word::Text(&info)], &[], out)
}

/// Appends the line of a COOKIE ECHO.
pub(crate) fn put_cookie(alloc: Global, cookie: &[u8], out: &mut Vec<u8>) -> Result<(), AllocError>
    ensures put { OnOk result (out.new.items ≡ out.old.items
        ++ line_of (codes "COOKIE-ECHO" ∷ codes "cookie" ∷ hex_word cookie.now ∷ [])) }
    ensures refused { OnErr result (out.new.items ≡ out.old.items) }
{
    let cookie = hex_text(alloc, cookie)?;
    let words = [Word::Text(b"cookie"), Word::Text(&cookie)];
    put_line(b"COOKIE-ECHO", &words, &[], out)
}

/// Appends the line of an ABORT.
pub(crate) fn put_abort(
    alloc: Global,
    reflected: bool,
    causes: &Causes<'_>,
    out: &mut Vec<u8>,
) -> Result<(), AllocError>
    ensures put { OnOk result (out.new.items ≡ out.old.items
        ++ line_of (codes "ABORT" ∷ codes "t" ∷ flag_word reflected ∷ codes "causes" ∷ joined type_word (typed_in causes.now) ∷ [])) }
    ensures refused { OnErr result (out.new.items ≡ out.old.items) }
{
    let kinds = kinds_word(alloc, causes)?;
    let words = [
        Word::Text(b"t"),
        Word::Text(flag_text(reflected)),
        Word::Text(b"causes"),
        Word::Text(behind_comma(&kinds)),
    ];
    put_line(b"ABORT", &words, &[], out)
}

/// Appends the line of an ERROR.
pub(crate) fn put_error(
    alloc: Global,
    causes: &Causes<'_>,
    out: &mut Vec<u8>,
) -> Result<(), AllocError>
    ensures put { OnOk result (out.new.items ≡ out.old.items
        ++ line_of (codes "ERROR" ∷ codes "causes" ∷ joined type_word (typed_in causes.now) ∷ [])) }
    ensures refused { OnErr result (out.new.items ≡ out.old.items) }
{
    let kinds = kinds_word(alloc, causes)?;
    let words = [Word::Text(b"causes"), Word::Text(behind_comma(&kinds))];
    put_line(b"ERROR", &words, &[], out)
}

/// Appends the line of a SHUTDOWN.
pub(crate) fn put_shutdown(cumulative: u32, out: &mut Vec<u8>) -> Result<(), AllocError>
    ensures put { OnOk result (out.new.items ≡ out.old.items ++ line_of (codes "SHUTDOWN" ∷ codes "cum" ∷ decimal cumulative ∷ [])) }
    ensures refused { OnErr result (out.new.items ≡ out.old.items) }
{
    let words = [Word::Text(b"cum"), Word::Number(u64::from(cumulative))];
    put_line(b"SHUTDOWN", &words, &[], out)
}

/// Appends the line of a SHUTDOWN COMPLETE.
pub(crate) fn put_complete(reflected: bool, out: &mut Vec<u8>) -> Result<(), AllocError>
    ensures put { OnOk result (out.new.items ≡ out.old.items
        ++ line_of (codes "SHUTDOWN-COMPLETE" ∷ codes "t" ∷ flag_word reflected ∷ [])) }
    ensures refused { OnErr result (out.new.items ≡ out.old.items) }
{
    let words = [Word::Text(b"t"), Word::Text(flag_text(reflected))];
    put_line(b"SHUTDOWN-COMPLETE", &words, &[], out)
}

/// Appends the line of a chunk without fields: its name.
pub(crate) fn put_name(name: &[u8], out: &mut Vec<u8>) -> Result<(), AllocError>
    ensures put { OnOk result (out.new.items ≡ out.old.items ++ line_of (name.now ∷ [])) }
    ensures refused { OnErr result (out.new.items ≡ out.old.items) }
{
    put_line(name, &[], &[], out)
}

/// Appends the line of a chunk of an unknown type.
pub(crate) fn put_unknown(
    alloc: Global,
    kind: u8,
    flags: u8,
    value: &[u8],
    out: &mut Vec<u8>,
) -> Result<(), AllocError>
    ensures put { OnOk result (out.new.items ≡ out.old.items ++ line_of (unknown_words kind flags value.now)) }
    ensures refused { OnErr result (out.new.items ≡ out.old.items) }
{
    let flags = [flags];
    let value = hex_text(alloc, value)?;
    let words = [
        Word::Number(u64::from(kind)),
        Word::Text(b"flags"),
        Word::Hex(&flags),
        Word::Text(b"value"),
        Word::Text(&value),
    ];
    put_line(b"UNKNOWN", &words, &[], out)
}

/// A flag as 1 or 0.
fn flag_text(set: bool) -> &'static [u8]
    ensures { result.now ≡ flag_word set }
{
    if set { b"1" } else { b"0" }
}
