//! The answer of each analysis is the only one that its definition allows.
ghost use Rattle.std.specs.Prelude.{◌≡◌, List};
ghost use Rattle.flow_code.specs.declared.code.Code.{Code};
ghost use Rattle.facts.specs.declared.locks.Summary.{Summary};
ghost use Rattle.facts.specs.declared.pair.Pair.{Pair};
ghost use Rattle.facts.specs.Pairs.{ArePairs};
ghost use Rattle.facts.specs.PointsTo.{Tables, IsPointsTo};
ghost use Rattle.facts.specs.Summaries.{AreSummaries};

/// A code has one table of points-to sets.
pub fn law_one_points_to()
    ensures { (code : Code) (t u : Tables) → IsPointsTo code t → IsPointsTo code u → t ≡ u }
{}

/// A code has one list of summaries.
pub fn law_one_summaries()
    ensures { (code : Code) (ss ts : List Summary) → AreSummaries code ss → AreSummaries code ts → ss ≡ ts }
{}

/// A code has one list of race pairs.
pub fn law_one_list_of_pairs()
    ensures { (code : Code) (t : Tables) (ss : List Summary) (vs ws : List Pair) → ArePairs code t ss vs → ArePairs code t ss ws → vs ≡ ws }
{}
