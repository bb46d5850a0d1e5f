// Settings and slips.
use base::counters::Height;
use base::refusals::Refusal;
use base::slips::{Mark, Slip};
use holding::settings::Settings;
use holding::times::Times;
use holding::trials::Terms;

// The mark on which the book begins.
pub fn start_mark() -> Mark {
    Mark([0; 32])
}

// Lawful terms for a pool of so many members, 4, 7 or 10.
pub fn terms(members: u32) -> Terms {
    Terms {
        members,
        start_height: Height(1),
        start_mark: start_mark(),
        times: Times {
            d0: 10,
            d1: 40,
            d2: 20,
            d3: 20,
            g: 20,
        },
    }
}

pub fn settings(members: u32) -> Result<Settings, Refusal> {
    Settings::new(&terms(members))
}

// A book that begins at another height.
pub fn settings_from(members: u32, height: u32) -> Result<Settings, Refusal> {
    Settings::new(&Terms {
        start_height: Height(height),
        ..terms(members)
    })
}

// A slip on the page with that mark; its own mark repeats one byte.
pub fn slip(parent: Mark, own: u8, lots: u32, maker: u32) -> Slip {
    Slip {
        parent,
        own: Mark([own; 32]),
        lots,
        maker,
    }
}

// A slip on the first page's place.
pub fn first_slip(own: u8, lots: u32, maker: u32) -> Slip {
    slip(start_mark(), own, lots, maker)
}
