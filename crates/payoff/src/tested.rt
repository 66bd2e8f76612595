ghost use Rattle.std.specs.Prelude.{◌≡◌, true};
ghost use Rattle.payoff.specs.Tables.{tables_ok};
ghost use Rattle.payoff.specs.Plain.{plain_tables};

use crate::tables::PlainTables;

/// The hour's tables, which have passed their tests.
#[derive(Clone, Copy)]
pub struct TestedTables<'a> {
    pub plain: PlainTables<'a>,
    ghost passed: { tables_ok (plain_tables plain) ≡ true },
}
