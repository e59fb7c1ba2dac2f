//! The laws, each the contract of a function without a body.
ghost use Rattle.std.specs.Prelude.{◌≡◌, ◌++◌, ◌<◌, ℕ, List, [], length, take};
ghost use Rattle.std.specs.List.{AllByRecursion};
ghost use Rattle.batches.specs.Batch.{AreBatches, FitsBatch, batch, batches_of};

/// If batches were written one after another and the last one was cut off, the whole ones are read,
/// and no others: the front of a batch begins with no batch. Octets can be read in one way only.
pub fn a_cut_leaves_whole_batches()
    ensures cut { (texts : List (List ℕ)) (text : List ℕ) (n : ℕ) →
        AllByRecursion FitsBatch texts → FitsBatch text → n < length (batch text) →
        AreBatches (batches_of texts ++ take n (batch text)) texts (take n (batch text)) }
    ensures whole { (texts : List (List ℕ)) → AllByRecursion FitsBatch texts
        → AreBatches (batches_of texts) texts [] }
    ensures one { (bytes tail rest : List ℕ) (texts others : List (List ℕ)) →
        AreBatches bytes texts tail → AreBatches bytes others rest
        → (others ≡ texts) × (rest ≡ tail) }
{}
