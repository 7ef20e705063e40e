//! How many chunks stand before each part of a row.

ghost use Rattle.std.specs.Prelude.{◌≡◌, ◌+◌, ◌-◌, ◌<◌, ◌≤◌, ◌^◌, ◌++◌, ℕ, length, take, drop, map, vec_len, vec_capacity, slice_index_or, IfOk};
ghost use Rattle.nc_base.specs.Each.{Each};

use std::alloc::AllocError;

/// One chunk more stands before each part behind part `k`.
pub(crate) fn raise(starts: &mut [u32], k: usize)
    requires inside { k < length starts.old }
    requires few { Each (λ (n : ℕ). n < 2 ^ 32 - 1) starts.old }
    ensures { starts.new ≡ take (k + 1) starts.old ++ map (λ (n : ℕ). n + 1) (drop (k + 1) starts.old) }
{
    for i in k + 1..starts.len() {
        starts[i] += 1;
    }
}

/// `count` chunks less stand before each part behind part `k`.
pub(crate) fn lower(starts: &mut [u32], k: usize, count: u32)
    requires inside { k < length starts.old }
    requires enough { Each (λ (n : ℕ). count ≤ n) (drop (k + 1) starts.old) }
    ensures { starts.new ≡ take (k + 1) starts.old ++ map (λ (n : ℕ). n - count) (drop (k + 1) starts.old) }
{
    for i in k + 1..starts.len() {
        starts[i] -= count;
    }
}

/// How many chunks stand before each part from an index on, in a row of these parts alone.
pub(crate) fn split_starts(starts: &Vec<u32>, cut: usize) -> Result<Vec<u32>, AllocError>
    requires inside { cut < length starts.now.items }
    requires enough { Each (λ (n : ℕ). slice_index_or starts.now.items cut 0 ≤ n) (drop cut starts.now.items) }
    ensures { IfOk result (λ r. r.items ≡ map (λ (n : ℕ). n - slice_index_or starts.now.items cut 0) (drop cut starts.now.items)) }
{
    let before = starts[cut];
    let mut upper = Vec::with_capacity(*starts.allocator(), starts.len() - cut)?;
    for i in cut..starts.len() {
        upper.push_reserved(starts[i] - before);
    }
    Ok(upper)
}

/// Adds the numbers of more parts, behind `count` chunks. There is room for them.
pub(crate) fn join_starts(starts: &mut Vec<u32>, upper: &Vec<u32>, count: u32)
    requires few { Each (λ (n : ℕ). n + count < 2 ^ 32) upper.now.items }
    requires room { vec_len starts.old + vec_len upper.now ≤ vec_capacity starts.old }
    ensures { starts.new.items ≡ starts.old.items ++ map (λ (n : ℕ). n + count) upper.now.items }
{
    for i in 0..upper.len() {
        starts.push_reserved(upper[i] + count);
    }
}

/// The part that has the chunk at an index.
pub(crate) fn part_with(starts: &[u32], i: usize) -> usize
    requires some { 0 < length starts.now }
    requires first { slice_index_or starts.now 0 0 ≡ 0 }
    ensures inside { result < length starts.now }
    ensures start { slice_index_or starts.now result 0 ≤ i }
    ensures end { result + 1 < length starts.now → i < slice_index_or starts.now (result + 1) 0 }
{
    let mut low = 0;
    let mut high = starts.len();
    while 1 < high - low {
        let middle = low + (high - low) / 2;
        if starts[middle] as usize <= i {
            low = middle;
        } else {
            high = middle;
        }
    }
    low
}
