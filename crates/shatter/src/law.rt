ghost use Rattle.std.specs.Prelude.{◌≡◌, slice_get};
ghost use Rattle.shatter.specs.Splitting.{SplittingData, splitting_stores, next_store};
ghost use Rattle.shatter.specs.Laws.{SplitIsApart, SplitMeans, SplitCovers, SplitElsewhere};

/// The law of splitting, for a block of a permitted size whose granules all have one GPI, and a
/// granule in it: each word of the block after the splitting is canonical apart from that granule,
/// and already when it alone is stored it gives each of its granules the map's GPI and covers equal
/// granules. Where the block is the largest of one GPI around the granule, canonical words
/// elsewhere are canonical apart from it as they are.
pub fn splitting_keeps_the_map()
    ensures apart { SplitIsApart }
    ensures meaning { SplitMeans }
    ensures covers { SplitCovers }
    ensures elsewhere { SplitElsewhere }
{}

/// The law of the order of stores: the next one is that of the list of all stores, by how many were
/// made.
pub fn stores_are_in_order()
    ensures { (d : SplittingData) → next_store d ≡ slice_get (splitting_stores d) d.made }
{}
