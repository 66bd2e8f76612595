ghost use Rattle.std.specs.Prelude.{◌≡◌, ◌+◌, ◌<◌, ◌≤◌, length, slice_index, slice_set};
ghost use Rattle.rights.specs.Rights.{repeated_at, FirstRepeat};
ghost use Rattle.rights.specs.Chains.{bucket_at, Chained};

use crate::right::{bucket_of, is_same_right};
use rows::HoldingRow;

/// Earlier holdings in chains by bucket. A link is a place counted from 1; 0 ends a chain.
// no heap is used, and an hour of 1,024 holdings must stay fast: so tables of links, walked by hand
#[derive(Drop)]
struct Chains {
    heads: [u16; 1024],
    next: [u16; 1024],
}

impl Chains {
    /// Whether an earlier holding is the same right as the one at a place: only the chain of its bucket is walked.
    fn has_right_at(&self, holdings: &[HoldingRow], place: usize, bucket: usize) -> bool
        requires inside { (place < length holdings.now) × (place < 1024) }
        requires own { (bucket ≡ bucket_at holdings.now place) × (bucket < 1024) }
        requires chained { Chained holdings.now self.now.heads self.now.next place }
        ensures { result ≡ repeated_at holdings.now place }
    {
        let mut link = self.heads[bucket] as usize;
        while link > 0 {
            if is_same_right(&holdings[link - 1], &holdings[place]) {
                return true;
            }
            link = self.next[link - 1] as usize;
        }
        false
    }

    /// Puts a place at the head of its bucket's chain.
    fn link(&mut self, place: usize, bucket: usize)
        requires { (place < 1024) × (bucket < 1024) }
        ensures heads { self.new.heads ≡ slice_set self.old.heads bucket (place + 1) }
        ensures next { self.new.next ≡ slice_set self.old.next place (slice_index self.old.heads bucket) }
    {
        self.next[place] = self.heads[bucket];
        self.heads[bucket] = (place + 1) as u16;
    }
}

/// The first place that repeats, by a table of chains: each holding that does not is linked in before the next.
pub(crate) fn first_chained(holdings: &[HoldingRow]) -> Option<usize>
    requires { length holdings.now ≤ 1024 }
    ensures { FirstRepeat holdings.now result }
{
    let mut chains = Chains {
        heads: [0; 1024],
        next: [0; 1024],
    };
    for (place, holding) in holdings.iter().enumerate() {
        let bucket = bucket_of(holding);
        if chains.has_right_at(holdings, place, bucket) {
            return Some(place);
        }
        chains.link(place, bucket);
    }
    None
}
