// What follows from the rule.
ghost use Rattle.std.specs.Prelude.{◌≡◌, ℕ, ◌<◌, Contains, Option};
ghost use Rattle.atomic_table.specs.Table.{State};
ghost use Rattle.gi_turn.specs.declared.view.View.{View};
ghost use Rattle.gi_turn.specs.Entries.{At};
ghost use Rattle.gi_turn.specs.Numbers.{child};
ghost use Rattle.gi_turn.specs.Rule.{Rule};
ghost use Rattle.gi_turn.specs.Views.{Sole, HoldsAsBefore, after_split, split_off, join_of};

use crate::stands::Stands;

/// Where one seat is sole, no other seat of the turnstile holds any number, and the sole one has
/// seen the whole history.
pub fn sole_is_alone<T: Stands>()
    ensures alone { (first : ℕ) (s : State (Option T) View) (i : ℕ) (v : View)
        → Rule T.stands T.may_ask first s → At s.views i v → Sole v
        → (j : ℕ) (w : View) (n : ℕ) → At s.views j w → Contains w.held n → j ≡ i }
    ensures whole { (first : ℕ) (s : State (Option T) View) (i : ℕ) (v : View)
        (rule : Rule T.stands T.may_ask first s) → At s.views i v → Sole v → v.seen ≡ rule.log }
{}

/// The numbers of seats that are split off differ, and each is greater than that of the seat that
/// it was split off.
pub fn numbers_differ()
    ensures differ { (n c m d : ℕ) → child n c ≡ child m d → (n ≡ m) × (c ≡ d) }
    ensures grow { (n c : ℕ) → n < child n c }
{}

/// A sole seat that splits another off, and takes it in again after both were used, is sole again.
pub fn sole_again()
    ensures { (v a b : View) → Sole v
        → HoldsAsBefore (after_split v) a → HoldsAsBefore (split_off v) b
        → Sole (join_of a b) }
{}
