ghost use Rattle.std.specs.Prelude.{◌≡◌, true, false};
ghost use Rattle.rule.specs.Tables.{rule_of};
ghost use Rattle.table_policy.specs.Masks.{mask};

mod methods;

use policy::Signals;
use rule::Table;

/// The policy of a rule: a tuple breaks it where the rule does not hold at the first step of the
/// tuple's joined word.
///
/// The signals that the rule reads upright and inverted are worked out when the policy is made.
#[derive(Drop)]
pub struct TablePolicy {
    table: Table,
    signals: Signals,
    ghost up: { signals.upright ≡ mask true (rule_of table) },
    ghost down: { signals.inverted ≡ mask false (rule_of table) },
}
