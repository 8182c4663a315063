//! Folding of long runs of bytes, before the tables of the checksum take what is left of them: a byte that is folded needs no table.

ghost use Rattle.std.specs.Prelude.{◌≡◌, ℕ, ◌+◌, ◌-◌, ◌*◌, ◌/◌, ◌%◌, ◌^◌, ◌<◌, ◌≤◌, bit_xor, drop, length, slice_index};
ghost use Rattle.sctp_packet.specs.Folding.{byte_of, reaching, IsFolded, IsLeft};

use crate::lanes::{LANES, lanes, put_lanes, sum};
use byteorder::{ByteOrder, LittleEndian};
use std::simd::u8x16;

/// The bytes that are folded at once: none is added to another.
pub(crate) const BLOCK: usize = 32;
/// The bytes of two blocks.
const PAIR: usize = 64;
/// The zeros before the run in the buffer: 209, the farthest that a byte is moved, rounded up to whole words.
pub(crate) const FRONT: usize = 216;
/// The bytes that are left of a folded run: whole blocks.
pub(crate) const LEFT: usize = 224;
/// The bytes of a word.
const WORD: usize = 8;
/// The first bytes of a run, which no byte before them reaches: whole words, since the nearest that a byte is moved is 65.
const ALONE: usize = 64;
/// The first bytes of a run, each of which one byte reaches at most, since the next nearest is 155: whole blocks.
const NEAR: usize = 128;
/// The most bytes of a run: whole blocks; a packet of the largest limit has fewer.
pub(crate) const MOST: usize = 1_536;
/// The buffer for a run and the zeros before it.
pub(crate) const ROOM: usize = 1_752;

/// Folds the run's bytes before `ends`, two blocks in a turn, into a buffer of zeros.
pub(crate) fn fold(register: u32, bytes: &[u8], ends: usize, room: &mut [u8])
    requires blocks { ends % 32 ≡ 0 }
    requires some { 128 ≤ ends }
    requires within { ends ≤ length bytes.now }
    requires room { 216 + ends ≤ length room.old }
    requires empty { (j : ℕ) → slice_index room.old j ≡ 0 }
    ensures room { length room.new ≡ length room.old }
    ensures bytes { (j : ℕ) → slice_index room.new j < 256 }
    ensures folded { IsFolded register bytes.now ends room.new }
{
    fold_alone(register, bytes, room);
    fold_near(bytes, room);
    fold_odd(bytes, ends, room);
    let mut at = NEAR + ends % PAIR;
    let mut rest = &bytes[at..ends];
    while rest.len() >= PAIR {
        let (pair, more) = rest.split_at(PAIR);
        fold_pair(pair, &mut room[at..at + FRONT + PAIR]);
        rest = more;
        at += PAIR;
    }
}

/// Folds the run's first 64 bytes, which no byte reaches, with the register added to the first four.
#[inline(always)]
fn fold_alone(register: u32, bytes: &[u8], room: &mut [u8])
    requires bytes { 64 ≤ length bytes.now }
    requires room { 280 ≤ length room.old }
    requires empty { (j : ℕ) → slice_index room.old j ≡ 0 }
    ensures length { length room.new ≡ length room.old }
    ensures folded { IsFolded register bytes.now 64 room.new }
{
    put(room, FRONT, word(bytes, 0) ^ u64::from(register));
    for place in 1..ALONE / WORD {
        put(room, FRONT + WORD * place, word(bytes, WORD * place));
    }
}

/// Folds the 64 bytes after these, which bytes 65 before them alone reach.
#[inline(always)]
fn fold_near(bytes: &[u8], room: &mut [u8])
    requires bytes { 128 ≤ length bytes.now }
    requires room { 344 ≤ length room.old }
    ensures length { length room.new ≡ length room.old }
    ensures folded { (r : ℕ) → r < 2 ^ 32 → IsFolded r bytes.now 64 room.old → IsFolded r bytes.now 128 room.new }
{
    for place in ALONE / WORD..NEAR / WORD {
        let at = FRONT + WORD * place;
        let near = word(room, at - 65);
        put(room, at, word(bytes, WORD * place) ^ near);
    }
}

/// Folds two blocks, of which no byte reaches another, after the bytes that reach them.
#[inline(always)]
fn fold_pair(pair: &[u8], room: &mut [u8])
    requires pair { length pair.now ≡ 64 }
    requires room { length room.old ≡ 280 }
    ensures length { length room.new ≡ 280 }
    ensures here { (k : ℕ) → k < 64 → slice_index room.new (216 + k) ≡ bit_xor (slice_index pair.now k) (reaching room.old (216 + k)) }
    ensures before { (j : ℕ) → j < 216 → slice_index room.new j ≡ slice_index room.old j }
{
    let (before, behind) = room.split_at_mut(FRONT);
    let (first, second) = behind.split_at_mut(BLOCK);
    set_block(&pair[..BLOCK], before, FRONT, 0, first);
    set_block(&pair[BLOCK..], before, FRONT + BLOCK, 0, second);
}

/// Folds the block after these, if the run's blocks are odd.
#[inline(always)]
fn fold_odd(bytes: &[u8], ends: usize, room: &mut [u8])
    requires blocks { ends % 32 ≡ 0 }
    requires some { 128 ≤ ends }
    requires bytes { ends ≤ length bytes.now }
    requires room { 216 + ends ≤ length room.old }
    ensures length { length room.new ≡ length room.old }
    ensures folded { (r : ℕ) → r < 2 ^ 32 → IsFolded r bytes.now 128 room.old → IsFolded r bytes.now (128 + ends % 64) room.new }
{
    if ends % PAIR != 0 {
        fold_block(bytes, NEAR, 0, room);
    }
}

/// Folds the block at a place that so many zeros are before.
#[inline(always)]
fn fold_block(bytes: &[u8], at: usize, zeros: usize, room: &mut [u8])
    requires bytes { at + 32 ≤ length bytes.now }
    requires room { 216 + at + 32 ≤ length room.old }
    requires few { zeros ≤ 216 }
    requires zeros { (j : ℕ) → 216 + at ≤ j + zeros → j < 216 + at → slice_index room.old j ≡ 0 }
    ensures length { length room.new ≡ length room.old }
    ensures here { (k : ℕ) → k < 32 → slice_index room.new (216 + at + k)
        ≡ bit_xor (slice_index bytes.now (at + k)) (reaching room.old (216 + at + k)) }
    ensures before { (j : ℕ) → j < 216 + at → slice_index room.new j ≡ slice_index room.old j }
    ensures behind { (j : ℕ) → 216 + at + 32 ≤ j → slice_index room.new j ≡ slice_index room.old j }
{
    let (before, behind) = room.split_at_mut(FRONT + at);
    set_block(
        &bytes[at..at + BLOCK],
        &before[at..],
        FRONT,
        zeros,
        &mut behind[..BLOCK],
    );
}

/// Writes what folding leaves of the run, its last 224 bytes, after the folded ones. The last block is the first, so that each is written from
/// the folded bytes and the zeros after them alone.
pub(crate) fn leave(bytes: &[u8], ends: usize, room: &mut [u8])
    requires within { ends + 224 ≤ length bytes.now }
    requires room { 216 + ends + 224 ≤ length room.old }
    requires empty { (j : ℕ) → 216 + ends ≤ j → slice_index room.old j ≡ 0 }
    ensures length { length room.new ≡ length room.old }
    ensures bytes { (j : ℕ) → slice_index room.new j < 256 }
    ensures left { IsLeft bytes.now room.old ends 224 (drop (216 + ends) room.new) }
{
    for turn in 0..LEFT / BLOCK {
        let from = LEFT - BLOCK * (turn + 1);
        fold_block(bytes, ends + from, from, room);
    }
}

/// Writes a block: its bytes, with what folding moves to each, at a position from the beginning of the bytes before it, of which the last before
/// that position are so many zeros. All are read before one is written.
#[inline(always)]
fn set_block(bytes: &[u8], before: &[u8], at: usize, zeros: usize, block: &mut [u8])
    requires bytes { length bytes.now ≡ 32 }
    requires before { length before.now ≡ 216 }
    requires behind { 216 ≤ at }
    requires near { at ≤ 248 }
    requires few { zeros ≤ 216 }
    requires zeros { (j : ℕ) → at ≤ j + zeros → j < 216 → slice_index before.now j ≡ 0 }
    requires block { length block.old ≡ 32 }
    ensures length { length block.new ≡ 32 }
    ensures set { (k : ℕ) → k < 32 → slice_index block.new k ≡ bit_xor (slice_index bytes.now k) (reaching before.now (at + k)) }
{
    let first = sum(lanes(bytes, 0), reaching(before, at, zeros));
    let second = sum(
        lanes(bytes, LANES),
        reaching(before, at + LANES, zeros + LANES),
    );
    put_lanes(block, 0, first);
    put_lanes(block, LANES, second);
}

/// What folding moves to the sixteen bytes at a position from those before them, of which the last are so many zeros.
#[inline(always)]
fn reaching(room: &[u8], at: usize, zeros: usize) -> u8x16
    requires far { 209 ≤ at }
    requires within { at ≤ length room.now + 49 }
    requires zeros { (j : ℕ) → at ≤ j + zeros → j < length room.now → slice_index room.now j ≡ 0 }
    ensures { (k : ℕ) → k < 16 → slice_index result k ≡ reaching room.now (at + k) }
{
    let first = reached(u8x16::splat(0), room, at, 65, zeros);
    let second = reached(first, room, at, 155, zeros);
    let third = reached(second, room, at, 170, zeros);
    let fourth = reached(third, room, at, 195, zeros);
    reached(fourth, room, at, 209, zeros)
}

/// A sum with the sixteen bytes so far before a position. Zeros aren't read.
#[inline(always)]
fn reached(others: u8x16, room: &[u8], at: usize, far: usize, zeros: usize) -> u8x16
    requires far { 65 ≤ far }
    requires before { far ≤ at }
    requires within { at ≤ length room.now + 49 }
    requires zeros { (j : ℕ) → at ≤ j + zeros → j < length room.now → slice_index room.now j ≡ 0 }
    ensures { (k : ℕ) → k < 16 → slice_index result k ≡ bit_xor (slice_index others k) (slice_index room.now (at + k - far)) }
{
    if far <= zeros {
        return others;
    }
    sum(others, lanes(room, at - far))
}

/// The eight bytes at a position as one number, the lowest first.
#[inline(always)]
fn word(bytes: &[u8], at: usize) -> u64
    requires { at + 8 ≤ length bytes.now }
    ensures { (k : ℕ) → k < 8 → byte_of result k ≡ slice_index bytes.now (at + k) }
{
    LittleEndian::read_u64(&bytes[at..])
}

/// Writes eight bytes at a position.
#[inline(always)]
fn put(bytes: &mut [u8], at: usize, value: u64)
    requires { at + 8 ≤ length bytes.old }
    ensures length { length bytes.new ≡ length bytes.old }
    ensures here { (k : ℕ) → k < 8 → slice_index bytes.new (at + k) ≡ byte_of value k }
    ensures before { (j : ℕ) → j < at → slice_index bytes.new j ≡ slice_index bytes.old j }
    ensures behind { (j : ℕ) → at + 8 ≤ j → slice_index bytes.new j ≡ slice_index bytes.old j }
{
    LittleEndian::write_u64(&mut bytes[at..], value);
}
