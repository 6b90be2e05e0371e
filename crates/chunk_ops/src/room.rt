//! A pinned room that is lent with a pass, whose keys are compared.
ghost use Rattle.std.specs.Prelude.{◌≡◌, ℕ, ◌*◌, ◌-◌, ◌<◌, List, [], ◌∷◌, ◌++◌, length, take};
ghost use Rattle.oak_model.specs.WordBytes.{word_bytes};
ghost use Rattle.arena_core.specs.Words.{bytes_in};
ghost use Rattle.chunk_ops.specs.Reads.{Met, met_key, met_block};
ghost use Rattle.chunk_ops.specs.Room.{Room, HasFound, IsRoom, key_at};

/// A pinned room, with the table that it stands in and the pass that has the pin. Each call loads one
/// word, which the pass has met then.
pub(crate) trait SearchedRoom {
    // that the pin stands
    ghost pinned: { Self → Type 0 };

    // what stands under it
    ghost room: { Self → Room };

    // the later one is of the same pin, and its pass met just these words since the earlier one
    ghost meets: { Self → Self → List Met → Type 0 };

    /// The key word of an entry that was found.
    fn key_word(&mut self, entry: u32) -> u64
        requires pinned { pinned self.old }
        requires found { HasFound (room self.old) entry }
        ensures pinned { pinned self.new }
        ensures same { room self.new ≡ room self.old }
        ensures word { result ≡ (room self.old).place entry }
        ensures meets { meets self.old self.new (met_key entry result ∷ []) };

    /// Word `i` of the block that a key word names. Behind the key's last byte it has any bytes.
    fn block_word(&mut self, place: u64, i: usize) -> u64
        requires pinned { pinned self.old }
        requires named { (e : ℕ) × HasFound (room self.old) e × (place ≡ (room self.old).place e)
            × (8 * i < length (key_at (room self.old) e)) }
        ensures pinned { pinned self.new }
        ensures same { room self.new ≡ room self.old }
        ensures bytes { (e : ℕ) → HasFound (room self.old) e → place ≡ (room self.old).place e
            → take (length (key_at (room self.old) e) - 8 * i) (word_bytes result) ≡ bytes_in i
            (key_at (room self.old) e) }
        ensures meets { meets self.old self.new (met_block place i result ∷ []) };

    ghost is_room: { (s : Self) → pinned s → IsRoom (room s) };

    ghost meets_none: { (s : Self) → meets s s [] };

    ghost meets_both: { (s t u : Self) (a b : List Met) → meets s t a → meets t u b → meets s u (a ++ b) };
}
