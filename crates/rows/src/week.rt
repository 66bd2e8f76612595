ghost use Rattle.std.specs.Prelude.{◌≡◌, ◌≤◌};
ghost use Rattle.rows.specs.Week.{block_at};

use crate::day::Day;
use crate::letters::Block;

const W: Block = Block::PeakWeekday;

const E: Block = Block::PeakWeekend;

const N: Block = Block::OffPeak;

/// The block of each hour of the week, 24 for each day from Monday on.
const BLOCKS: [Block; 168] = [
    N, N, N, N, N, N, W, W, W, W, W, W, W, W, W, W, W, W, W, W, W, W, N, N, N, N, N, N, N, N, W, W,
    W, W, W, W, W, W, W, W, W, W, W, W, W, W, N, N, N, N, N, N, N, N, W, W, W, W, W, W, W, W, W, W,
    W, W, W, W, W, W, N, N, N, N, N, N, N, N, W, W, W, W, W, W, W, W, W, W, W, W, W, W, W, W, N, N,
    N, N, N, N, N, N, W, W, W, W, W, W, W, W, W, W, W, W, W, W, W, W, N, N, N, N, N, N, N, N, E, E,
    E, E, E, E, E, E, E, E, E, E, E, E, E, E, N, N, N, N, N, N, N, N, E, E, E, E, E, E, E, E, E, E,
    E, E, E, E, E, E, N, N,
];

/// The table's entry of a weekday and an hour ending.
fn block_of_hour(weekday: u8, ending: u8) -> Block
    requires weekday { weekday ≤ 6 }
    requires first { 1 ≤ ending }
    requires last { ending ≤ 24 }
    ensures { result ≡ block_at weekday ending }
{
    BLOCKS[weekday as usize * 24 + ending as usize - 1]
}

/// The block of an hour.
pub fn block_at(day: &Day) -> Block
    ensures { result ≡ block_at day.now.weekday day.now.ending }
{
    block_of_hour(day.weekday, day.ending)
}
