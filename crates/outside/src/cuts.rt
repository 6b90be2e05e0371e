//! How many bytes a piece has that is cut.
ghost use Rattle.std.specs.Prelude.{◌≡◌, slice_get};
ghost use Rattle.outside.specs.Memory.{let_through};

/// How many of the bytes that are asked for a call lets through, after so many calls: at most as many as its cut says,
/// which counts as 1 where it is 0, and all of them where the list has no cut for it.
pub fn let_through(cuts: &[usize], calls: u64, asked: usize) -> usize
    ensures { result ≡ let_through (slice_get cuts.now calls) asked }
{
    match cuts.get(calls as usize) {
        Some(&cut) => asked.min(cut.max(1)),
        None => asked,
    }
}
