// Digests: FNV-1a of 64 bits, of a page over each cell's low byte and high byte, of a store over its bytes.
ghost use Rattle.std.specs.Prelude.{◌≡◌};
ghost use Rattle.replay_text.specs.Digest.{start, with_byte, with_cell, digest_from, bytes_from};

const START: u64 = 0xcbf2_9ce4_8422_2325;

const PRIME: u64 = 0x100_0000_01b3;

fn with_byte(h: u64, b: u8) -> u64
    ensures { result ≡ with_byte h b }
{
    (h ^ u64::from(b)).wrapping_mul(PRIME)
}

fn with_cell(h: u64, v: u16) -> u64
    ensures { result ≡ with_cell h v }
{
    let [low, high] = v.to_le_bytes();
    with_byte(with_byte(h, low), high)
}

pub fn of(page: &[u16]) -> u64
    ensures { result ≡ digest_from start page.now }
{
    page.iter().fold(START, |h, v| with_cell(h, *v))
}

pub fn of_bytes(store: &[u8]) -> u64
    ensures { result ≡ bytes_from start store.now }
{
    store.iter().fold(START, |h, b| with_byte(h, *b))
}
