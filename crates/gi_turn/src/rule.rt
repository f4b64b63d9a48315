// The rule of the table.
use crate::stands::Stands;
use crate::view::View;
use atomic_table::TableRule;

pub struct InTurn;

impl<T: Stands> TableRule<Option<T>, View, u64> for InTurn {
    ghost use Rattle.gi_turn.specs.Rule.{Rule};
    ghost use Rattle.gi_turn.specs.Views.{first_view};

    ghost holds = { Rule T.stands T.may_ask };

    ghost first = { first_view };
}
