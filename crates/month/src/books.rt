ghost use Rattle.std.specs.Prelude.{◌*◌, ◌≤◌};
ghost use Rattle.sharing.specs.Shares.{limit};

/// What every month has kept of its hours, in whatever state it is: plain numbers. Money is in cents.
#[derive(Drop)]
pub(crate) struct Books {
    pub(crate) owners: usize,
    pub(crate) hours: u16,
    pub(crate) last: u16,
    pub(crate) rents: u64,
    pub(crate) credits: u64,
    pub(crate) charges: u64,
    pub(crate) shorts: u64,
    ghost few: { owners ≤ 128 },
    ghost month: { last ≤ 744 },
    ghost counted: { hours ≤ last },
    ghost credited: { credits ≤ limit * hours },
    ghost charged: { charges ≤ limit * hours },
    ghost rented: { rents ≤ limit * hours },
    ghost short: { shorts ≤ limit },
}
