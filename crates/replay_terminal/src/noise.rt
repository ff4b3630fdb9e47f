// Pages of noise.

// The next number of the sequence that a page is drawn from.
fn next(x: u32) -> u32 {
    x.wrapping_mul(1664525).wrapping_add(1013904223)
}

// The drawn bits that the mask keeps go into a cell, bit 7 only where the cell is protected.
pub fn noise(page: &mut [u16], seed: usize, mask: usize, share: usize) {
    let mask = (mask & 0xff7f) as u16;
    let mut x = (seed & 0xffff_ffff) as u32;
    for cell in page {
        let drawn = next(x);
        x = next(drawn);
        let bits = (drawn >> 16) as u16 & mask;
        let protected = ((x >> 24) as usize) < share;
        *cell = if protected { bits | 0x80 } else { bits };
    }
}
