//! How full the table of a pass is that is alone.
#![tactic(auto)]

ghost use Rattle.std.specs.Prelude.{◌≡◌, ◌+◌, ◌≤◌, ℕ, List, length};
ghost use Rattle.oak_model.specs.declared.classes.Class.{Class};
ghost use Rattle.oak_model.specs.declared.replies.Pair.{Pair};
ghost use Rattle.oak_model.specs.Class.{blocks_of, class_number};
ghost use Rattle.oak_model.specs.Limits.{Sizes};
ghost use Rattle.arena_core.specs.Arena.{blocks};
ghost use Rattle.oak_core.specs.declared.states.PassState.{PassState};
ghost use Rattle.oak_core.specs.Memory.{memory};
ghost use Rattle.oak_core.specs.Usage.{used_blocks, used_headers};
ghost use Rattle.lone_counts.specs.Exactly.{BlocksExactly, HeadersExactly};
ghost use Rattle.lone_counts.specs.LoneTable.{AllValued, LoneTable, retired_in};
ghost use Rattle.lone_counts.specs.Maps.{IsMapOf, last_states};

/// A law: the blocks of a class hold the keys and values of the map, and are no fewer. Where each entry has
/// a value they hold nothing else, so none is free exactly where the map has them all.
pub fn blocks_are_counted()
    ensures fits { (z : Sizes) (words : List ℕ) (v : PassState) (m : List Pair) (c : Class) → LoneTable z words v
        → IsMapOf (last_states v) m → blocks_of m c ≤ blocks z (class_number c) }
    ensures exactly { (z : Sizes) (words : List ℕ) (v : PassState) (m : List Pair) (c : Class) → LoneTable z words v
        → IsMapOf (last_states v) m → AllValued z words → BlocksExactly z words c (blocks_of m c) }
{}

/// A law: so the headers are the map's, one for each key, those that are retired, and those that are free.
pub fn headers_are_counted()
    ensures { (z : Sizes) (words : List ℕ) (v : PassState) (m : List Pair) → LoneTable z words v
        → IsMapOf (last_states v) m → HeadersExactly z words (length m + retired_in z words) }
{}

/// A law: where each entry has a value, what counts as used of the table is the map's.
pub fn usage_is_counted()
    ensures blocks { (z : Sizes) (words : List ℕ) (v : PassState) (m : List Pair) (c : Class) → LoneTable z words v
        → IsMapOf (last_states v) m → AllValued z words → used_blocks z (memory z words) (class_number c) ≡ blocks_of m c }
    ensures headers { (z : Sizes) (words : List ℕ) (v : PassState) (m : List Pair) → LoneTable z words v
        → IsMapOf (last_states v) m → used_headers z (memory z words) ≡ length m + retired_in z words }
{}
