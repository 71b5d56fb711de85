//! A sample of edges, by which it is told whether many of them are of a kind.

// One of so many edges is in a sample, so that it costs a hundredth of the noding.
const EDGES_A_SAMPLE: usize = 16;

// Of many edges a sample has no more than so many times their square root. Where copies make as many pairs as there are edges
// it has four pairs of copies then, on average. Copies that make far fewer cost little, and joining them would save little.
const ROOTS_A_SAMPLE: usize = 2;

/// How many of so many edges a sample has.
pub fn sample_size(count: usize) -> usize {
    let most = ROOTS_A_SAMPLE * count.isqrt();
    most.min(count / EDGES_A_SAMPLE)
}
