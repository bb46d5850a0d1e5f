// Keys from a fixed seed, and sealers with them.
use base::counters::Member;
use base::refusals::Refusal;
use seal::row::KeyRow;
use seal::single::SingleKey;

const SEED: u64 = 0x9E37_79B9_7F4A_7C15;

const MEMBERS: [u8; 10] = [0, 1, 2, 3, 4, 5, 6, 7, 8, 9];

// The key that members a and b share; a member's own key is the one that it shares with itself.
pub fn key(a: u8, b: u8) -> [u8; 16] {
    let pair = 256 * a.min(b) as u64 + a.max(b) as u64;
    let first = SEED.wrapping_mul(2 * pair + 1);
    let second = (first ^ SEED).rotate_left(29).wrapping_mul(SEED);
    ((second as u128) << 64 | first as u128).to_le_bytes()
}

// Every member's own key, known to all.
pub fn own_keys() -> [[u8; 16]; 10] {
    MEMBERS.map(|a| key(a, a))
}

// The row of keys that one member shares with each.
pub fn key_row(a: u8) -> [[u8; 16]; 10] {
    MEMBERS.map(|b| key(a, b))
}

// A sealer with single keys for that member, for so many seals.
pub fn single(member: u8, left: u32) -> Result<SingleKey, Refusal> {
    SingleKey::new(own_keys(), Member(member), left)
}

// A sealer with a row of keys for that member, for so many seals.
pub fn row(member: u8, left: u32) -> Result<KeyRow, Refusal> {
    KeyRow::new(key_row(member), Member(member), left)
}
