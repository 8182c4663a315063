//! Breaks a packet in every way and tries each at the endpoint for which it was built.

use crate::bases::Base;
use crate::checksum::Checksum;
use crate::ends::Ends;
use crate::reading::{half_at, padded};
use crate::seen::Seen;
use crate::tally::Tally;
use crate::told::{FAULT, Told};
use crate::wanted::wanted;
use anyhow::Result;
use std::alloc::Global;
use std::io::Write;

/// The most packets shown whose verdict isn't that of the rules.
const SHOWN: u32 = 20;

/// The bits of a byte.
const BITS: [u8; 8] = [1, 2, 4, 8, 16, 32, 64, 128];

/// A packet, both endpoints, the snapshot of the one at which it arrives, and the counts so far.
#[derive(Drop)]
pub struct Bench<'a, W> {
    alloc: Global,
    base: &'a Base,
    sums: &'a Checksum,
    out: W,
    whole: Vec<u8>,
    ends: Ends,
    before: Seen,
    tally: Tally,
}

impl<'a, W: Write + Drop> Bench<'a, W> {
    /// This packet, and the endpoint at which it arrives.
    pub fn new(alloc: Global, base: &'a Base, sums: &'a Checksum, out: W) -> Result<Bench<'a, W>> {
        let ends = Ends::before(alloc, base)?;
        let whole = ends.packet(base)?;
        let before = Seen::of(ends.taker(base)?);
        Ok(Bench {
            alloc,
            base,
            sums,
            out,
            whole,
            ends,
            before,
            tally: Tally::default(),
        })
    }

    /// Breaks the packet in every way, and writes the counts.
    pub fn run(&mut self) -> Result<Tally> {
        self.cut()?;
        self.flip()?;
        self.change_lengths()?;
        self.change_types()?;
        let (name, tally) = (self.base.name, self.tally);
        tally.write(name, &mut self.out)?;
        Ok(tally)
    }

    /// The packet cut at every length, its checksum left as it is.
    fn cut(&mut self) -> Result<()> {
        let packet = self.whole.clone()?;
        for length in 0..packet.len() {
            let Some(bytes) = packet.get(..length) else {
                break;
            };
            let right = length >= 12 && self.sums.is_right(bytes);
            let told = if right { self.wanted(bytes) } else { FAULT };
            self.try_packet(bytes, told, "cut")?;
        }
        Ok(())
    }

    /// The packet with every single bit flipped.
    fn flip(&mut self) -> Result<()> {
        let mut packet = self.whole.clone()?;
        for place in 0..packet.len() {
            self.flip_at(&mut packet, place)?;
        }
        Ok(())
    }

    /// The packet with every single bit of a byte flipped: the checksum finds each of them.
    fn flip_at(&mut self, packet: &mut Vec<u8>, place: usize) -> Result<()> {
        for mask in BITS {
            if let Some(byte) = packet.get_mut(place) {
                *byte ^= mask;
            }
            self.try_packet(packet, FAULT, "flipped")?;
            if let Some(byte) = packet.get_mut(place) {
                *byte ^= mask;
            }
        }
        Ok(())
    }

    /// The length of each chunk replaced by every value, with the checksum made right.
    fn change_lengths(&mut self) -> Result<()> {
        let whole = self.whole.clone()?;
        let mut place: usize = 12;
        for _ in 0..whole.len() {
            let Some(length) = half_at(&whole, place.saturating_add(2)) else {
                break;
            };
            self.change_length(place.saturating_add(2))?;
            place = place.saturating_add(padded(length));
        }
        Ok(())
    }

    /// The number of 16 bits at this place replaced by every value, with the checksum made right.
    fn change_length(&mut self, place: usize) -> Result<()> {
        let mut packet = self.whole.clone()?;
        for length in 0..=u16::MAX {
            for (byte, new) in packet.iter_mut().skip(place).zip(length.to_be_bytes()) {
                *byte = new;
            }
            self.try_mended(&mut packet, "with another length")?;
        }
        Ok(())
    }

    /// The type of the first chunk replaced by every value, with the checksum made right.
    fn change_types(&mut self) -> Result<()> {
        let mut packet = self.whole.clone()?;
        for kind in 0..=u8::MAX {
            if let Some(byte) = packet.get_mut(12) {
                *byte = kind;
            }
            self.try_mended(&mut packet, "with another type")?;
        }
        Ok(())
    }

    /// Sets the right checksum of a packet and tries it.
    fn try_mended(&mut self, packet: &mut Vec<u8>, change: &str) -> Result<()> {
        self.sums.mend(packet);
        let told = self.wanted(packet);
        self.try_packet(packet, told, change)
    }

    /// The rules' verdict on these bytes, whose checksum is right.
    fn wanted(&self, bytes: &[u8]) -> Told {
        wanted(bytes, &self.whole, &self.base.taker)
    }

    /// Tries a packet with this wanted verdict. The endpoint is built anew if it may have changed.
    fn try_packet(&mut self, bytes: &[u8], wanted: Told, change: &str) -> Result<()> {
        let told = self.ends.told(self.base, bytes)?;
        self.tally.count(told);
        if told != wanted && self.tally.differs() <= SHOWN {
            self.show(bytes, change, told, wanted)?;
        }
        if !told.is_strange() {
            return self.renew();
        }
        let seen = Seen::of(self.ends.taker(self.base)?);
        if seen != self.before && self.tally.changes() <= SHOWN {
            self.show(bytes, "that changed its end", told, wanted)?;
        }
        Ok(())
    }

    /// Builds both endpoints anew, in their states before the packet arrives.
    fn renew(&mut self) -> Result<()> {
        self.ends = Ends::before(self.alloc, self.base)?;
        Ok(())
    }

    /// Shows a packet: how it was changed, its verdict and the wanted one, and its bytes.
    fn show(&mut self, bytes: &[u8], change: &str, told: Told, wanted: Told) -> Result<()> {
        let (name, told, wanted) = (self.base.name, told.word(), wanted.word());
        write!(self.out, "{name}, {change}: {told}, wanted {wanted}: ")?;
        for byte in bytes {
            write!(self.out, "{byte:02x}")?;
        }
        writeln!(self.out)?;
        Ok(())
    }
}
