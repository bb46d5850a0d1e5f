// SipHash-2-4, as its authors published it.
ghost use Rattle.std.specs.Prelude.{◌≡◌, ◌*◌, ◌^◌, ◌<◌, ◌∷◌, length};
ghost use Rattle.seal.specs.Sip.{little, add, turn, sip_round, start, compress, finish, onward, sip};

use base::writing::put;

// The four words that the rounds work on.
#[derive(Clone, Copy)]
struct State {
    v0: u64,
    v1: u64,
    v2: u64,
    v3: u64,
}

// The hash of a message under a key.
pub fn siphash(key: &[u8; 16], message: &[u8]) -> u64
    ensures { result ≡ sip key.now message.now }
{
    go_on(begin(key), message, message.len())
}

// The hash of one byte and then the rest, as `siphash` of all of them, without a copy.
pub fn siphash_after(key: &[u8; 16], first: u8, rest: &[u8]) -> u64
    ensures { result ≡ sip key.now (first ∷ rest.now) }
{
    go_on_after(begin(key), first, rest)
}

// The example that the authors of SipHash worked out: the key 00 01 .. 0f, the message 00 01 .. 0e.
pub fn worked_example() -> u64
    ensures { result ≡ 0xa129ca6149be45e5 }
{
    let key = [0, 1, 2, 3, 4, 5, 6, 7, 8, 9, 10, 11, 12, 13, 14, 15];
    siphash(&key, &[0, 1, 2, 3, 4, 5, 6, 7, 8, 9, 10, 11, 12, 13, 14])
}

// The two words of the key.
fn begin(key: &[u8; 16]) -> State
    ensures { result ≡ start key.now }
{
    let (words, _) = key.as_chunks::<8>();
    let k0 = word(&words[0]);
    let k1 = word(&words[1]);
    State {
        v0: k0 ^ 0x736f6d6570736575,
        v1: k1 ^ 0x646f72616e646f6d,
        v2: k0 ^ 0x6c7967656e657261,
        v3: k1 ^ 0x7465646279746573,
    }
}

// What is still to come of a message of `total` bytes, the end of it included.
fn go_on(state: State, rest: &[u8], total: usize) -> u64
    ensures { result ≡ onward state rest.now total }
{
    let (words, last) = rest.as_chunks::<8>();
    let mut s = state;
    for bytes in words {
        s = take_in(s, word(bytes));
    }
    let last = tail(last) + (total % 256) as u64 * 0x100000000000000;
    close(take_in(s, last))
}

// One byte and then the rest, the end included.
fn go_on_after(state: State, first: u8, rest: &[u8]) -> u64
    ensures { result ≡ onward state (first ∷ rest.now) (length (first ∷ rest.now)) }
{
    let total = rest.len() + 1;
    if rest.len() < 7 {
        let last = tail(rest) * 256 + first as u64 + total as u64 * 0x100000000000000;
        return close(take_in(state, last));
    }
    // Kept: eight indices are plainer than a copy of seven bytes into an array filled first.
    let word = u64::from_le_bytes([
        first, rest[0], rest[1], rest[2], rest[3], rest[4], rest[5], rest[6],
    ]);
    go_on(take_in(state, word), &rest[7..], total)
}

// One word of the message.
#[tactic(auto, unfolding(crate::specs::Sip::compress))]
fn take_in(s: State, word: u64) -> State
    ensures { result ≡ compress s word }
{
    let t = round(round(State {
        v3: s.v3 ^ word,
        ..s
    }));
    State {
        v0: t.v0 ^ word,
        ..t
    }
}

#[tactic(auto, unfolding(crate::specs::Sip::finish))]
fn close(s: State) -> u64
    ensures { result ≡ finish s }
{
    let t = round(round(round(round(State {
        v2: s.v2 ^ 0xff,
        ..s
    }))));
    (t.v0 ^ t.v1) ^ (t.v2 ^ t.v3)
}

#[tactic(auto, unfolding(crate::specs::Sip::sip_round))]
fn round(s: State) -> State
    ensures { result ≡ sip_round s }
{
    let a0 = plus(s.v0, s.v1);
    let a1 = left(13, s.v1) ^ a0;
    let a2 = plus(s.v2, s.v3);
    let a3 = left(16, s.v3) ^ a2;
    let b0 = plus(left(32, a0), a3);
    let b3 = left(21, a3) ^ b0;
    let b2 = plus(a2, a1);
    let b1 = left(17, a1) ^ b2;
    State {
        v0: b0,
        v1: b1,
        v2: left(32, b2),
        v3: b3,
    }
}

#[tactic(auto, unfolding(crate::specs::Sip::add))]
fn plus(a: u64, b: u64) -> u64
    ensures { result ≡ add a b }
{
    a.wrapping_add(b)
}

fn left(k: u32, x: u64) -> u64
    requires { (0 < k) × (k < 64) }
    ensures { result ≡ turn k x }
{
    x.rotate_left(k)
}

// The word of eight bytes.
fn word(bytes: &[u8; 8]) -> u64
    ensures { result ≡ little bytes.now }
{
    u64::from_le_bytes(*bytes)
}

// The number that fewer than eight bytes say.
fn tail(bytes: &[u8]) -> u64
    requires { length bytes.now < 8 }
    ensures said { result ≡ little bytes.now }
    ensures small { result < 2 ^ (8 * length bytes.now) }
{
    let mut filled = [0; 8];
    let _ = put(&mut filled, 0, bytes);
    word(&filled)
}
