// Numbers read from bytes, and bytes written over a part of a lent buffer.
ghost use Rattle.std.specs.Prelude.{◌≡◌, ◌+◌, ◌<◌, ◌≤◌, length, take, drop, MatchOption, Decides};
ghost use Rattle.base.specs.Numbers.{two, four, all_zero};
ghost use Rattle.base.specs.Writing.{wrote};

// Writes the bytes from `at` on, all of them or, where they do not fit, none. Says whether they fit.
#[tactic(auto, using(crate::proofs::Wrote::put_mid_wrote))]
pub fn put(out: &mut [u8], at: usize, bytes: &[u8]) -> bool
    ensures fits { Decides result (at + length bytes.now ≤ length out.old) }
    ensures written { at + length bytes.now ≤ length out.old → out.new ≡ wrote at bytes.now out.old }
    ensures kept { length out.old < at + length bytes.now → out.new ≡ out.old }
{
    if at > out.len() || bytes.len() > out.len() - at {
        return false;
    }
    out[at..at + bytes.len()].copy_from_slice(bytes);
    true
}

// The N bytes from `at` on; none where there are not that many.
pub fn array_at<const N: usize>(bytes: &[u8], at: usize) -> Option<[u8; N]>
    ensures { MatchOption result (length bytes.now < at + N) (λ found. (at + N ≤ length bytes.now) × (found ≡ take N (drop at bytes.now))) }
{
    bytes.get(at..)?.first_chunk().copied()
}

// The number that two bytes say, the most significant first; 0 where there are not two.
pub fn two_at(bytes: &[u8], at: usize) -> u16
    ensures whole { at + 2 ≤ length bytes.now → result ≡ two bytes.now at }
    ensures short { length bytes.now < at + 2 → result ≡ 0 }
{
    array_at(bytes, at).map_or(0, u16::from_be_bytes)
}

// The number that four bytes say, the most significant first; 0 where there are not four.
pub fn four_at(bytes: &[u8], at: usize) -> u32
    ensures whole { at + 4 ≤ length bytes.now → result ≡ four bytes.now at }
    ensures short { length bytes.now < at + 4 → result ≡ 0 }
{
    array_at(bytes, at).map_or(0, u32::from_be_bytes)
}

// Whether each byte is 0.
pub fn all_zero(bytes: &[u8]) -> bool
    ensures { result ≡ all_zero bytes.now }
{
    bytes.iter().all(|b| *b == 0)
}
