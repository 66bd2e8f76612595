ghost use Rattle.std.specs.Prelude.{◌≡◌, ◌+◌, ◌-◌, ◌*◌, ◌/◌, ◌^◌, ◌≤◌, pos, ◌+ℤ◌, ◌<ℤ◌};
ghost use Rattle.sharing.specs.Shares.{limit};

use crate::line::Line;

/// A sum that is shared over lines, and what the lines weigh in all.
#[derive(Clone, Copy)]
pub(crate) struct Pot {
    pub(crate) sum: u64,
    pub(crate) total: u64,
    ghost small: { sum ≤ limit },
    ghost light: { total ≤ limit },
}

impl Pot {
    /// What falls to lines of the weight `seen`, rounded down.
    fn part(&self, seen: u64) -> u64
        requires { seen ≤ self.now.total }
        ensures { result ≡ self.now.sum * seen / self.now.total }
    {
        if self.total == 0 {
            0
        } else {
            self.sum * seen / self.total
        }
    }

    /// Gives a line what falls to the lines up to it, less what falls to those before it. Answers what falls up to it.
    pub(crate) fn give<L: Line>(&self, line: &mut L, seen: u64, before: u64) -> u64
        requires seen { seen ≤ self.now.total }
        requires order { before ≤ self.now.sum * seen / self.now.total }
        requires room { (L.had line.old +ℤ pos self.now.sum) <ℤ pos (2 ^ 63) }
        ensures upto { result ≡ self.now.sum * seen / self.now.total }
        ensures given { line.new ≡ L.given line.old (self.now.sum * seen / self.now.total - before) }
    {
        let upto = self.part(seen);
        line.add(upto - before);
        upto
    }
}
