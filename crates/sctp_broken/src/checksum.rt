//! CRC32c, a byte at a time (RFC 9260, 6.8 and appendix A): written here again, so that no checksum is judged by the code under test.

/// The polynomial, lowest bit first.
const POLYNOMIAL: u32 = 0x82f6_3b78;

/// What each byte does to the register.
#[derive(Drop)]
pub struct Checksum {
    table: [u32; 256],
}

impl Checksum {
    /// The table of all bytes.
    pub fn new() -> Checksum {
        let mut table = [0; 256];
        for (slot, byte) in table.iter_mut().zip(0..) {
            *slot = shifted(byte);
        }
        Checksum { table }
    }

    /// The checksum of these bytes with their checksum field counted as zero, as it is stored.
    pub fn of(&self, bytes: &[u8]) -> [u8; 4] {
        let mut register = u32::MAX;
        for (place, byte) in bytes.iter().enumerate() {
            let byte = if (8..12).contains(&place) { 0 } else { *byte };
            let at = (register ^ u32::from(byte)) & 0xff;
            register = self.table[at as usize] ^ (register >> 8);
        }
        (!register).to_le_bytes()
    }

    /// Sets the right checksum of a packet.
    pub fn mend(&self, packet: &mut [u8]) {
        let sum = self.of(packet);
        if let Some(field) = packet.get_mut(8..12) {
            field.copy_from_slice(&sum);
        }
    }

    /// Whether the checksum of a packet is right.
    pub fn is_right(&self, packet: &[u8]) -> bool {
        packet.get(8..12) == Some(self.of(packet).as_slice())
    }
}

/// The register after a byte.
fn shifted(byte: u32) -> u32 {
    let mut register = byte;
    for _ in 0..8 {
        let odd = register & 1 == 1;
        register >>= 1;
        if odd {
            register ^= POLYNOMIAL;
        }
    }
    register
}
