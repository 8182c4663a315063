//! Which bytes are chunks, by the layouts of the RFCs (RFC 9260, 3; RFC 3758, 3.2; RFC 8260, 2): nothing here calls the library.

/// A chunk: its type, its flags, and its value without padding.
#[derive(Clone, Copy)]
pub struct Chunk<'a> {
    pub kind: u8,
    pub flags: u8,
    pub value: &'a [u8],
}

/// The number of 16 bits at this place.
pub fn half_at(bytes: &[u8], at: usize) -> Option<u16> {
    let [high, low] = bytes.get(at..)?.first_chunk::<2>()?;
    Some(u16::from_be_bytes([*high, *low]))
}

/// The number of 32 bits at this place.
pub fn word_at(bytes: &[u8], at: usize) -> Option<u32> {
    let [a, b, c, d] = bytes.get(at..)?.first_chunk::<4>()?;
    Some(u32::from_be_bytes([*a, *b, *c, *d]))
}

/// A length with its padding to a multiple of 4.
pub fn padded(length: u16) -> usize {
    (usize::from(length) + 3) / 4 * 4
}

/// The first chunk of these bytes, and the bytes after its padding. None if it isn't complete.
pub fn first_chunk(bytes: &[u8]) -> Option<(Chunk<'_>, &[u8])> {
    let length = half_at(bytes, 2)?;
    let chunk = Chunk {
        kind: *bytes.first()?,
        flags: *bytes.get(1)?,
        value: bytes.get(4..usize::from(length))?,
    };
    Some((chunk, bytes.get(padded(length)..)?))
}

/// Whether these bytes are chunks, each of its layout and in its place: INIT, INIT ACK and SHUTDOWN COMPLETE alone, COOKIE ECHO first.
pub fn are_chunks(bytes: &[u8]) -> bool {
    let mut rest = bytes;
    let mut first = true;
    for _ in 0..bytes.len() {
        if rest.is_empty() {
            break;
        }
        let Some((chunk, behind)) = first_chunk(rest) else {
            return false;
        };
        let is_alone = first && behind.is_empty();
        if !is_of_layout(chunk) || !is_placed(chunk.kind, first, is_alone) {
            return false;
        }
        rest = behind;
        first = false;
    }
    true
}

/// Whether a chunk of this type may stand here (RFC 9260, 6.10 and 5.1).
fn is_placed(kind: u8, first: bool, alone: bool) -> bool {
    match kind {
        1 | 2 | 14 => alone,
        10 => first,
        _ => true,
    }
}

/// Whether a chunk's value is of the layout of its type.
fn is_of_layout(chunk: Chunk<'_>) -> bool {
    let value = chunk.value;
    let length = value.len();
    match chunk.kind {
        0 => length >= 12,
        1 | 2 => length >= 16 && value.get(16..).is_some_and(is_list),
        3 => is_sack(value),
        6 | 9 => is_list(value),
        7 => length == 4,
        8 | 11 | 14 => length == 0,
        64 => length >= 16,
        192 => length >= 4 && length % 4 == 0,
        194 => length >= 4 && length % 8 == 4,
        _ => true,
    }
}

/// Whether a SACK is as long as its numbers of blocks and duplicates say (RFC 9260, 3.3.4).
fn is_sack(value: &[u8]) -> bool {
    let (Some(blocks), Some(duplicates)) = (half_at(value, 8), half_at(value, 10)) else {
        return false;
    };
    let items = usize::from(blocks) + usize::from(duplicates);
    value.len() == 12 + 4 * items
}

/// Whether these bytes are parameters, or causes: the padding of the last one needn't be there (RFC 9260, 3.2.1).
fn is_list(bytes: &[u8]) -> bool {
    let mut rest = bytes;
    for _ in 0..bytes.len() {
        if rest.is_empty() {
            break;
        }
        let Some((_, behind)) = first_item(rest) else {
            return false;
        };
        rest = behind;
    }
    true
}

/// A parameter or cause: its type and value.
#[derive(Clone, Copy)]
pub struct Item<'a> {
    pub kind: u16,
    pub value: &'a [u8],
}

/// The first parameter or cause of these bytes, and the bytes after it. None if there isn't one.
pub fn first_item(bytes: &[u8]) -> Option<(Item<'_>, &[u8])> {
    let length = half_at(bytes, 2)?;
    let item = Item {
        kind: half_at(bytes, 0)?,
        value: bytes.get(4..usize::from(length))?,
    };
    if bytes.len() == usize::from(length) {
        return Some((item, &[]));
    }
    Some((item, bytes.get(padded(length)..)?))
}
