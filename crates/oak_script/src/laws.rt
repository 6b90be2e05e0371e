//! Laws of scripts and of the loads that are drawn.
ghost use Rattle.std.specs.Prelude.{◌≡◌, ◌⊎◌, ℕ, ◌+◌, ◌∷◌, []};
ghost use Rattle.oak_model.specs.declared.recipes.RecipeKind.TheVariants.{Add};
ghost use Rattle.oak_script.specs.declared.limits.TheConstants.{GREATEST_THREADS, GREATEST_CALLS, GREATEST_SCANS, GREATEST_SCRIPT_NAME, GREATEST_DRAWS, DRAWN_NUMBERS};
ghost use Rattle.oak_script.specs.declared.scripts.Call.TheVariants.{Upsert};
ghost use Rattle.oak_script.specs.declared.scripts.Script.{Script};
ghost use Rattle.oak_script.specs.declared.faults.ScriptFault.{ScriptFault};
ghost use Rattle.oak_script.specs.Grammar.{Spells, default_sizes};
ghost use Rattle.oak_script.specs.Faults.{IsFirstFault};
ghost use Rattle.oak_script.specs.Workload.{drawn_threads, one_value};

/// Each text is the text of a script or has a first fault, and none is both; and of each there is one.
pub fn script_or_fault(text: &[u8])
    ensures either { ((s : Script) × Spells text.now s) ⊎ ((f : ScriptFault) × IsFirstFault text.now f) }
    ensures never_both { (s : Script) → (f : ScriptFault) → Spells text.now s → IsFirstFault text.now f → ⊥ }
    ensures one_script { (s : Script) → (t : Script) → Spells text.now s → Spells text.now t → s ≡ t }
    ensures one_fault { (f : ScriptFault) → (g : ScriptFault) → IsFirstFault text.now f → IsFirstFault text.now g → f ≡ g }
{
    let _text = text;
}

/// A law: the limits of scripts, and the sizes that a script without a `shape` line asks for, with the
/// numbers written out.
pub fn script_limits_in_numbers()
    ensures threads { GREATEST_THREADS ≡ 16 }
    ensures calls { GREATEST_CALLS ≡ 262144 }
    ensures scans { GREATEST_SCANS ≡ 32 }
    ensures names { GREATEST_SCRIPT_NAME ≡ 16 }
    ensures draws { GREATEST_DRAWS ≡ 65536 }
    ensures drawn { DRAWN_NUMBERS ≡ 65536 }
    ensures sizes { (n : ℕ) → default_sizes n ≡ record {
      passes = n + 1;
      chunks = 256;
      entries = 64;
      headers = 8192;
      blocks = 16384 ∷ 4096 ∷ 1024 ∷ 512 ∷ [];
    } }
{}

/// A law: the four calls that one thread draws from 0 on have the keys 216, 761, 487 and 268, each in two bytes.
pub fn first_draws()
    ensures { drawn_threads 4 0 1 ≡ (Upsert (0 ∷ 216 ∷ []) one_value Add 1
        ∷ Upsert (2 ∷ 249 ∷ []) one_value Add 1
        ∷ Upsert (1 ∷ 231 ∷ []) one_value Add 1
        ∷ Upsert (1 ∷ 12 ∷ []) one_value Add 1
        ∷ []) ∷ [] }
{}
