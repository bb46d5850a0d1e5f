// A slip stands for a candidate page of the receipt book.
ghost use Rattle.std.specs.Prelude.{◌≡◌, ◌+◌, ◌<◌, ◌≤◌, length, take, drop, nat_eq, Decides};
ghost use Rattle.base.specs.Slips.{slip_bytes, slip_of, SlipFits, one_page, same_page};
ghost use Rattle.base.specs.Writing.{wrote};
ghost use Rattle.std.specs.Cmp.Rules.{comparing};
ghost use Rattle.std.specs.Ordering.{on};
ghost use Rattle.std.specs.Cmp.Lexicographic.{pointwise};
ghost use Rattle.std.proofs.Common.{rules};

use crate::writing::{all_zero, array_at, four_at, put};

// The digest by which a page is known.
#[derive(Clone, Copy, PartialEq, Eq, PartialOrd, Ord, Debug)]
pub struct Mark(pub [u8; 32]);

// A candidate page: the mark of the page before, its own mark, how many lots it holds, who made it.
#[derive(Clone, Copy, PartialEq, Eq, Debug)]
pub struct Slip {
    pub parent: Mark,
    pub own: Mark,
    pub lots: u32,
    pub maker: u32,
}

impl Slip {
    // How many bytes a slip has.
    pub fn size(&self) -> usize
        ensures size { result ≡ length (slip_bytes self.now) }
        ensures is { result ≡ 72 }
    {
        self.parent.0.len() + self.own.0.len() + 8
    }

    // Writes the 72 bytes from `at` on: parent mark, own mark, lots, maker; nothing where they do not fit.
    pub fn write(&self, out: &mut [u8], at: usize) -> bool
        ensures fits { Decides result (at + 72 ≤ length out.old) }
        ensures written { at + 72 ≤ length out.old → out.new ≡ wrote at (slip_bytes self.now) out.old }
        ensures kept { length out.old < at + 72 → out.new ≡ out.old }
        ensures whole { SlipFits self.now }
    {
        if at > out.len() || out.len() - at < 72 {
            return false;
        }
        let _ = put(out, at, &self.parent.0);
        let _ = put(out, at + 32, &self.own.0);
        let _ = put(out, at + 64, &self.lots.to_be_bytes());
        let _ = put(out, at + 68, &self.maker.to_be_bytes());
        true
    }

    // The slip that 72 bytes say; none where they are not 72 or all zeros, which is how no slip is written.
    pub fn from_bytes(bytes: &[u8]) -> Option<Slip>
        ensures { result ≡ slip_of bytes.now }
    {
        if bytes.len() != 72 || all_zero(bytes) {
            return None;
        }
        Some(Slip {
            parent: Mark(array_at(bytes, 0)?),
            own: Mark(array_at(bytes, 32)?),
            lots: four_at(bytes, 64),
            maker: four_at(bytes, 68),
        })
    }
}

// Whether two slips are one page.
// Kept: the name of the rule, over the derived equality.
pub fn one_page(a: &Slip, b: &Slip) -> bool
    ensures { result ≡ one_page a.now b.now }
{
    *a == *b
}

// Whether two pages, each a slip or none, are one.
pub fn same_page(a: &Option<Slip>, b: &Option<Slip>) -> bool
    ensures { result ≡ same_page a.now b.now }
{
    a == b
}
