ghost use Rattle.std.specs.Prelude.{◌≡◌, Decides};
ghost use Rattle.policy.specs.Sessions.{sessions};
ghost use Rattle.rule.specs.Meaning.{Breaks};
ghost use Rattle.rule.specs.Standing.{StandsFor};
ghost use Rattle.rule.specs.Tables.{rule_of};
ghost use Rattle.table_policy.specs.Tables.{table_means, IsPolicyOf};
ghost use Rattle.table_policy.specs.Lawful.{table_lawful};

use crate::engine::first_value;
use crate::masks::signals;
use crate::table_policy::TablePolicy;
use policy::{JoinedWord, Policy, is_tuple};
use rule::Table;

impl TablePolicy {
    /// The policy of a table's rule.
    pub fn new(table: Table) -> TablePolicy
        ensures { IsPolicyOf table result }
    {
        let signals = signals(&table);
        TablePolicy { table, signals }
    }
}

impl Policy for TablePolicy {
    ghost meaning = { table_means };

    ghost lawful = { λ p. table_lawful p };

    fn arity(&self) -> usize {
        self.table.places()
    }

    fn breaks(&self, tuple: &[&[u32]]) -> bool
        ensures same { result ≡ (table_means self.now).breaks (sessions tuple.now) }
        ensures exact { Decides result (Breaks self.now.table.places (rule_of self.now.table) (sessions tuple.now)) }
    {
        is_tuple(tuple, self.table.places()) && !first_value(&self.table, &JoinedWord::new(tuple))
    }

    fn stands_for(&self, s: &[u32], t: &[u32]) -> bool
        ensures same { result ≡ (table_means self.now).stands s.now t.now }
        ensures exact { Decides result (StandsFor (rule_of self.now.table) s.now t.now) }
    {
        self.signals.stands_for(s, t)
    }
}
