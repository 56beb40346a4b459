// What a record names or scans, as the search is handed it.
ghost use Rattle.conflict_search.specs.Sorted.{Sorted};

// The keys of its points, and the lows and the highs of its scans, each rising.
#[derive(Clone, Copy)]
pub struct Footprint<'a> {
    pub keys: &'a [u32],
    pub lows: &'a [u32],
    pub highs: &'a [u32],
    ghost sorted: { ∥ Sorted keys.now lows.now highs.now ∥₁ },
}
