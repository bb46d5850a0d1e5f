// A draft is a message that is being written after the fill. Unless it is finished, the fill is given back.
ghost use Rattle.std.specs.Prelude.{◌≡◌, ◌+◌, ◌<◌, ◌∷◌, length};
ghost use Rattle.std.specs.Borrow.{sem};
ghost use Rattle.base.specs.Kinds.{kind_number};
ghost use Rattle.base.specs.Numbers.{be2};
ghost use Rattle.base.specs.Slips.{slip_bytes};
ghost use Rattle.base.specs.Sorts.{sort_number};
ghost use Rattle.message.specs.Encoding.{header};
ghost use Rattle.outbox.specs.Appending.{Adds};
ghost use Rattle.outbox.specs.Lending.{LendsFill};

use base::counters::Member;
use base::slips::Slip;
use base::stages::{Kind, Sort};
use base::writing::put;
use message::shapes::Head;

// How many bytes of an outbox are taken.
// Kept: outbox and fill are two parameters everywhere, since a draft is a guard over the one-number fill alone.
#[derive(Drop)]
pub struct Fill {
    pub len: usize,
}

impl Fill {
    // Writes the next bytes, all of them or, where they do not fit, none.
    pub fn add(&mut self, out: &mut [u8], bytes: &[u8])
        ensures added { Adds self.old.len self.new.len bytes.now out.old out.new }
        ensures kept { length out.old < self.old.len + length bytes.now → (out.new ≡ out.old) × (self.new.len ≡ self.old.len) }
    {
        if put(out, self.len, bytes) {
            self.len += bytes.len();
        }
    }
}

// A message that is being written. It began where the fill stood.
pub struct Draft<'a> {
    fill: &'a mut Fill,
    start: usize,
}

impl Drop for Draft<'_> {
    // Gives the fill back.
    fn drop(self)
        ensures { self.exit.0.now.len ≡ self.entry.start }
    {
        self.fill.len = self.start;
        let Draft { fill: _, start: _ } = self;
    }
}

impl<'a> Draft<'a> {
    // Begins a message after the fill.
    pub fn begin(fill: &'a mut Fill) -> Draft<'a>
        ensures lent { result.fill.ghost_name ≡ fill.entry.ghost_name }
        ensures start { result.start ≡ fill.old.len }
        ensures now { result.fill.now.len ≡ fill.old.len }
    {
        let start = fill.len;
        Draft { fill, start }
    }

    // Lends the fill for laying out. The draft stays over it.
    pub fn fill(&mut self) -> &mut Fill
        ensures* writes_back { sem 𝓛 (LendsFill self.entry result) }
        ensures value { result.now ≡ self.old.fill.now }
    {
        &mut *self.fill
    }

    // Keeps what was written.
    pub fn finish(self)
        ensures { self.exit.0.now.len ≡ self.entry.fill.now.len }
    {
        let Draft { fill: _, start: _ } = self;
    }
}

// Kind, sender, number of bodies, zero, height, round.
pub(crate) fn add_header(fill: &mut Fill, out: &mut [u8], kind: Kind, head: Head, count: u8)
    ensures { Adds fill.old.len fill.new.len (header (kind_number kind) head count) out.old out.new }
{
    fill.add(out, &[kind.number(), head.sender.0, count, 0]);
    fill.add(out, &head.height.0.to_be_bytes());
    fill.add(out, &head.round.0.to_be_bytes());
}

// One entry of the table of contents: sort, member, length.
pub(crate) fn add_entry(fill: &mut Fill, out: &mut [u8], sort: Sort, member: Member, len: usize)
    ensures { Adds fill.old.len fill.new.len (sort_number sort ∷ member.0 ∷ be2 len) out.old out.new }
{
    add_row(fill, out, sort.number(), member, len);
}

// The same with the byte that stands for the sort.
// Kept: the byte of any sort, as the layout of a certificate takes it.
pub(crate) fn add_row(fill: &mut Fill, out: &mut [u8], sort: u8, member: Member, len: usize)
    ensures { Adds fill.old.len fill.new.len (sort ∷ member.0 ∷ be2 len) out.old out.new }
{
    let [high, low] = ((len % 65_536) as u16).to_be_bytes();
    fill.add(out, &[sort, member.0, high, low]);
}

// The 72 bytes of a slip.
pub(crate) fn add_slip(fill: &mut Fill, out: &mut [u8], slip: &Slip)
    ensures { Adds fill.old.len fill.new.len (slip_bytes slip.now) out.old out.new }
{
    if slip.write(out, fill.len) {
        fill.len += slip.size();
    }
}
