ghost use Rattle.std.specs.Prelude.{◌<◌, [], length, All, Contains, IsTrue, IsFalse};
ghost use Rattle.gi_lit.specs.Problem.{full};
ghost use Rattle.gi_store.specs.StoreView.{problem_of, known_of};
ghost use Rattle.gi_cdcl.specs.Sound.{stored};

use gi_store::Store;

/// Whether a clause of the problem is empty.
fn has_empty_in_problem(store: &Store) -> bool
    ensures yes { IsTrue result → Contains (stored store.now) [] }
    ensures no { IsFalse result → All (λ c. 0 < length c) (full (problem_of store.now)) }
{
    for i in 0..store.problem() {
        match store.key_at(i + 1) {
            Some(key) => {
                if store.clause(key).is_empty() {
                    return true;
                }
            }
            None => unreachable!(),
        }
    }
    false
}

/// Whether a learnt clause is empty.
fn has_empty_in_known(store: &Store) -> bool
    ensures yes { IsTrue result → Contains (known_of store.now) [] }
    ensures no { IsFalse result → All (λ c. 0 < length c) (known_of store.now) }
{
    for i in 0..store.known() {
        match store.known_at(i + 1) {
            Some(clause) => {
                if clause.is_empty() {
                    return true;
                }
            }
            None => unreachable!(),
        }
    }
    false
}

/// Whether some clause is empty.
pub(crate) fn has_empty(store: &Store) -> bool
    ensures yes { IsTrue result → Contains (stored store.now) [] }
    ensures no { IsFalse result → All (λ c. 0 < length c) (stored store.now) }
{
    has_empty_in_problem(store) || has_empty_in_known(store)
}
