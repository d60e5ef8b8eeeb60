// Chains of a line: which are live, the order in which they stand, and how a search meets them in that order. The
// definitions stand in specs/; a function here does nothing but name, in its contract, what is proved of them.
#![tactic(auto)]

ghost use Rattle.search.specs.BestFirst.{BestFirstOf};
ghost use Rattle.search.specs.Theorems.{ChainsListed, TakenCellByCell, TextTellsChain, LastRaisedDecides, StrictTotalOrder, RankingOfLiveChains, AdmissibleIsLive, LiveChainsGrow, ChildrenAreFew, BestFirstOfChains, FrontierIsSmall};

// The chains of a line and their order.
pub fn chains_stand()
    ensures listed { ChainsListed }
    ensures taken { TakenCellByCell }
    ensures text { TextTellsChain }
    ensures last_raised { LastRaisedDecides }
    ensures order { StrictTotalOrder }
    ensures ranking { RankingOfLiveChains }
    ensures admissible { AdmissibleIsLive }
{}

// Best-first enumeration, of candidates of any kind.
pub fn best_first_stands<C>()
    ensures { BestFirstOf C }
{}

// Best-first enumeration of the live chains of a line.
pub fn search_stands()
    ensures grow { LiveChainsGrow }
    ensures few { ChildrenAreFew }
    ensures best_first { BestFirstOfChains }
    ensures small { FrontierIsSmall }
{}
