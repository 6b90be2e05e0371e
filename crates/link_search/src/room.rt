//! A pinned room whose entries are linked.
ghost use Rattle.std.specs.Prelude.{◌≡◌, ◌≢◌, ℕ, ◌-◌, ◌<◌, ◌≤◌, List, [], ◌∷◌, ◌++◌, Option, MatchOption, true, false};
ghost use Rattle.oak_model.specs.declared.limits.TheConstants.{GREATEST_ENTRIES};
ghost use Rattle.oak_model.specs.Counts.{Each};
ghost use Rattle.oak_model.specs.Key.{key_cmp, IsKeyBefore};
ghost use Rattle.chunk_core.specs.LinkedEntries.{entries_in, prefix_in};
ghost use Rattle.link_search.specs.Bits.{bits};
ghost use Rattle.link_search.specs.Finds.{SortedAs};
ghost use Rattle.link_search.specs.Linked.{Linked, Grown, Later, IsCounted, IsFound, IsFront, IsAboveFrom, IsBelowTo, SkipsNone};
ghost use Rattle.link_search.specs.Met.{Met, met_count, met_link, met_key, tried_count, tried_link, stored_value, stored_link, stored_key, gave_up, IsLoad, IsEntryLoad, LeavesLink, TellsCount, LoadsKeys};

use std::cmp::Ordering;

/// What a search of the sorted prefix finds: the entry of the key, or how many entries have smaller keys.
#[derive(Clone, Copy, Debug)]
pub enum Sorted {
    At(u32),
    Between(u32),
}

/// A pinned room, with the pass that has the pin, and where it adds an entry, with the block of the key.
/// What is found under the pin stays found, with its key. A link is 0 for none, and else the number of
/// the entry that it names plus one.
pub trait LinkedRoom {
    // that the pin stands
    ghost pinned: { Self → Type 0 };

    // what was found under it
    ghost view: { Self → Linked };

    // the later one is of the same pin, and its pass made just these steps since the earlier one
    ghost meets: { Self → Self → List Met → Type 0 };

    // how many entries the room may have
    ghost most: { Self → ℕ };

    // that the pass has claimed no entry, and has a block with the key
    ghost holds: { Self → List ℕ → Type 0 };

    // that it has claimed the entry, whose key word names that block
    ghost claims: { Self → ℕ → List ℕ → Type 0 };

    // that the claimed entry's own link is the number
    ghost points: { Self → ℕ → Type 0 };

    // that it has claimed no entry, and the block is an entry's
    ghost free: { Self → Type 0 };

    // that the pass is alone from here on
    ghost lone: { Self → Type 0 };

    /// The count word: all entries found are below it, and those of its prefix are found.
    fn count(&mut self) -> u64
        requires { pinned self.old }
        ensures pinned { pinned self.new }
        ensures counted { IsCounted (view self.new) }
        ensures grown { Grown (view self.old) (view self.new) }
        ensures same { IsCounted (view self.old) → view self.new ≡ view self.old }
        ensures prefix { prefix_in result ≡ (view self.new).prefix }
        ensures front { IsFront (view self.new) }
        ensures within { (i : ℕ) → IsFound (view self.new) i → i < entries_in result }
        ensures room { entries_in result ≤ most self.new }
        ensures meets { meets self.old self.new (met_count result ∷ []) };

    /// The first link, or that of an entry that was found. What it names is found, its key is above, and
    /// no entry that was found lies between.
    fn link(&mut self, from: Option<u32>) -> u32
        requires pinned { pinned self.old }
        requires leads { MatchOption from Unit (λ i. IsFound (view self.old) i) }
        ensures pinned { pinned self.new }
        ensures later { Later (view self.old) (view self.new) }
        ensures named { result ≢ 0 → IsFound (view self.new) (result - 1) }
        ensures above { result ≢ 0 → IsAboveFrom (view self.new) from ((view self.new).key (result - 1)) }
        ensures none { SkipsNone (view self.new) from result }
        ensures meets { meets self.old self.new (met_link from result ∷ []) };

    /// How the key compares with that of an entry that was found, by one load of its key word.
    fn compare(&mut self, key: &[u8], entry: u32) -> Ordering
        requires pinned { pinned self.old }
        requires found { IsFound (view self.old) entry }
        ensures pinned { pinned self.new }
        ensures same { view self.new ≡ view self.old }
        ensures order { result ≡ key_cmp key.now ((view self.old).key entry) }
        ensures meets { meets self.old self.new (met_key entry ∷ []) };

    /// Halves the sorted prefix.
    fn search(&mut self, key: &[u8], prefix: u32) -> Sorted
        requires pinned { pinned self.old }
        requires prefix { prefix ≡ (view self.old).prefix }
        requires front { IsFront (view self.old) }
        ensures pinned { pinned self.new }
        ensures same { view self.new ≡ view self.old }
        ensures place { SortedAs result (view self.old) key.now }
        ensures loads { LoadsKeys meets (bits prefix) self.old self.new };

    /// Claims the entry past the count, where that is `old` still, and stores its three words: the room's
    /// base, the link, and the key word that names the block. Where the count is another, nothing is done.
    fn claim(&mut self, key: &[u8], old: u64, link: u32) -> bool
        requires pinned { pinned self.old }
        requires holds { holds self.old key.now }
        requires room { entries_in old < most self.old }
        ensures pinned { pinned self.new }
        ensures later { Later (view self.old) (view self.new) }
        ensures claimed { result ≡ true → claims self.new (entries_in old) key.now }
        ensures points { result ≡ true → points self.new link }
        ensures stored { result ≡ true → meets self.old self.new (tried_count old old ∷ stored_value (entries_in old)
            ∷ stored_link (entries_in old) link ∷ stored_key (entries_in old) ∷ []) }
        ensures holds { result ≡ false → holds self.new key.now }
        ensures lost { result ≡ false → (n : ℕ) × (n ≢ old) × meets self.old self.new (tried_count old n ∷ []) };

    /// Links the claimed entry, where the link that is to name it is `old` still, as its own link is: it
    /// is found from then on, and has the block. Where that link is another, nothing is done.
    fn link_to(&mut self, key: &[u8], from: Option<u32>, entry: u32, old: u32) -> bool
        requires pinned { pinned self.old }
        requires claimed { claims self.old entry key.now }
        requires points { points self.old old }
        requires behind { IsAboveFrom (view self.old) from key.now }
        requires before { IsBelowTo (view self.old) old key.now }
        ensures pinned { pinned self.new }
        ensures later { Later (view self.old) (view self.new) }
        ensures linked { result ≡ true → IsFound (view self.new) entry × ((view self.new).key entry ≡ key.now) }
        ensures free { result ≡ true → free self.new }
        ensures stored { result ≡ true → meets self.old self.new (tried_link from entry old old ∷ []) }
        ensures claimed { result ≡ false → claims self.new entry key.now }
        ensures lost { result ≡ false → (n : ℕ) × (n ≢ old) × meets self.old self.new (tried_link from entry old n ∷ []) };

    /// Stores the link of the claimed entry.
    fn point(&mut self, key: &[u8], entry: u32, link: u32)
        requires pinned { pinned self.old }
        requires claimed { claims self.old entry key.now }
        ensures pinned { pinned self.new }
        ensures later { Later (view self.old) (view self.new) }
        ensures claimed { claims self.new entry key.now }
        ensures points { points self.new link }
        ensures meets { meets self.old self.new (stored_link entry link ∷ []) };

    /// Stores 0 in the key word of the claimed entry, which is claimed no more, and stays unlinked. Its
    /// block is the pass's again.
    fn give_up(&mut self, key: &[u8], entry: u32)
        requires pinned { pinned self.old }
        requires claimed { claims self.old entry key.now }
        ensures pinned { pinned self.new }
        ensures later { Later (view self.old) (view self.new) }
        ensures holds { holds self.new key.now }
        ensures meets { meets self.old self.new (gave_up entry ∷ []) };

    ghost few: { (s : Self) → pinned s → (i : ℕ) → IsFound (view s) i → i < GREATEST_ENTRIES };

    ghost meets_none: { (s : Self) → meets s s [] };

    ghost meets_both: { (s t u : Self) (a b : List Met) → meets s t a → meets t u b → meets s u (a ++ b) };

    ghost most_on: { (s t : Self) (ms : List Met) → meets s t ms → most t ≡ most s };

    // loads leave what the pass has
    ghost holds_on: { (s t : Self) (ms : List Met) (k : List ℕ) → meets s t ms → Each IsLoad ms → holds s k → holds t k };

    ghost claims_on: { (s t : Self) (ms : List Met) (i : ℕ) (k : List ℕ) → meets s t ms → Each IsEntryLoad ms
        → claims s i k → claims t i k };

    // an entry that the pass has claimed is linked nowhere
    ghost apart: { (s : Self) (i : ℕ) (k : List ℕ) → claims s i k → IsFound (view s) i → ⊥ };

    ghost lone_on: { (s t : Self) (ms : List Met) → meets s t ms → lone s → lone t };

    // to a pass that is alone, a word that it loaded stays as it was until the pass itself changes it
    ghost own_count: { (s t u : Self) (old n : ℕ) (between : List Met) (m : Met) → lone s
        → meets s t (met_count old ∷ between) → Each IsEntryLoad between → meets t u (m ∷ []) → TellsCount n m → n ≡ old };

    ghost own_link: { (s t u : Self) (from : Option ℕ) (i old n : ℕ) (between : List Met) → lone s
        → meets s t (met_link from old ∷ between) → Each (LeavesLink from) between
        → meets t u (tried_link from i old n ∷ []) → n ≡ old };
}
