//! Laws over what contracts see, each the contract of a function that does nothing.

ghost use Rattle.gi_cdcl.specs.Laws.{NewsAreFew, LearntClausesAreFresh, LearntClausesStayKnown, EditsKeepSearches};

/// Over n variables there are at most 3^n news, in however many slices they come, where nothing but
/// news was added between.
pub fn news_are_few()
    ensures { NewsAreFew }
{}

/// The first unique implication point of a conflict, on a trail of which the part before the last
/// level is closed, is fresh and derived.
pub fn learnt_clauses_are_fresh()
    ensures { LearntClausesAreFresh }
{}

/// What a slice leaves in the store is again implied by the problem, and of problem variables and
/// active guards alone.
pub fn learnt_clauses_stay_known()
    ensures { LearntClausesStayKnown }
{}

/// A search that goes with a store goes with it after an edit that changes no clause of a key in
/// use, where each attached key is in use still.
pub fn edits_keep_searches()
    ensures { EditsKeepSearches }
{}
