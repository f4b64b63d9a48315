//! A test whose steps are counted by themselves.

ghost use Rattle.std.specs.Prelude.{◌≡◌, ◌<◌, length};
ghost use Rattle.gi_store.specs.StoreView.{problem_of, IsWithin};
ghost use Rattle.gi_model.specs.State.{scope_assumed};
ghost use Rattle.gi_scopes.specs.Open.{AreReasoned, StillFail};
ghost use Rattle.gi_scopes.specs.Under.{base_of};
ghost use Rattle.gi_scopes.specs.Built.{IsFor};
ghost use Rattle.gi_scopes.specs.Answers.{TellsTest, Opens};

use gi_lit::Lits;
use gi_scopes::{Scopes, Steps, Tested};
use gi_store::Store;
use std::sync::ledger::{Blank, Ledger};

/// Tests the assumptions over the open scopes, and counts its steps on a blank ledger.
pub fn tested<L: Ledger>(scopes: &mut Scopes, store: &Store, assumed: Lits, blank: Blank) -> Tested
    requires name { blank.name ≡ L.name }
    requires parts { blank.parts ≡ L.parts }
    requires some { 0 < L.parts }
    requires depth { length scopes.old.scopes < 4294967295 }
    requires assumed { IsWithin store.now.vars assumed }
    requires open { IsWithin store.now.vars (scope_assumed scopes.old.scopes) }
    requires failing { StillFail (problem_of store.now) scopes.old.scopes }
    requires kept { IsFor scopes.old.kept scopes.old.scopes (base_of store.now) }
    ensures answers { TellsTest (problem_of store.now) scopes.old.scopes assumed result }
    ensures opens { Opens scopes.old assumed result scopes.new }
    ensures reasons { AreReasoned (problem_of store.now) scopes.old
        → AreReasoned (problem_of store.now) scopes.new }
    ensures kept { IsFor scopes.new.kept scopes.new.scopes (base_of store.now) }
{
    let mut steps = Steps::<L>::new(blank);
    scopes.test(store, assumed, &mut steps)
}
