//! Recipes: what computes a value anew, and the one of a script's steps.
ghost use Rattle.std.specs.Prelude.{◌≡◌, ◌<◌, ◌+◌, ◌-◌, ◌^◌, ℕ, List};
ghost use Rattle.oak_model.specs.declared.recipes.RecipeKind.{RecipeKind};
ghost use Rattle.oak_model.specs.declared.recipes.RecipeKind.TheVariants.{Rev};
ghost use Rattle.oak_model.specs.Recipe.{IsArgument, recipe_result};
ghost use Rattle.value_ops.specs.Recipes.{SaysNothing, SaysTheSame};

use oak_core::Writing;
use oak_model::{RecipeKind, apply_kind};
use std::marker::Model;

/// What a compute calls to make the new bytes of a value. The caller makes the object and tells it
/// the recipe, lends it to the compute in a box, and sees by the count how often it was called.
pub trait Recipe: Drop {
    /// The kind that it was told last.
    ghost told_kind: { Self → RecipeKind };

    /// The argument that it was told last.
    ghost told_argument: { Self → ℕ };

    /// How often it was applied.
    ghost calls: { Self → ℕ };

    /// What it says of the bytes that it was applied to last: a recipe that keeps them says which they were,
    /// one that keeps their length says that, and one that keeps nothing says what is true of any bytes.
    ghost fed: { Self → List ℕ → Type 0 };

    /// Sets the recipe. The argument of `Xor` is a byte, and that of `Rev` is 0.
    fn tell(&mut self, kind: RecipeKind, argument: u64)
        requires { IsArgument kind argument }
        ensures kind { told_kind self.new ≡ kind }
        ensures argument { told_argument self.new ≡ argument }
        ensures calls { calls self.new ≡ calls self.old }
        ensures fed { SaysTheSame (fed self.old) (fed self.new) };

    /// The kind that it was told last, or that it began with.
    fn kind(&self) -> RecipeKind
        ensures told { result ≡ told_kind self.now }
        ensures fits { IsArgument result (told_argument self.now) };

    /// The argument that it was told last, or that it began with.
    fn argument(&self) -> u64
        ensures told { result ≡ told_argument self.now }
        ensures fits { IsArgument (told_kind self.now) result };

    /// Makes the new bytes in place of the old ones, counts the call, and keeps of the old ones what it
    /// tells of them.
    fn apply(&mut self, value: &mut Writing)
        requires { calls self.old < 2 ^ 64 - 1 }
        ensures bytes { value.new ≡ recipe_result (told_kind self.old) (told_argument self.old) value.old }
        ensures counted { calls self.new ≡ calls self.old + 1 }
        ensures fed { fed self.new value.old }
        ensures kind { told_kind self.new ≡ told_kind self.old }
        ensures argument { told_argument self.new ≡ told_argument self.old };

    /// How often it was applied since it was made, by whomever.
    fn calls(&self) -> u64
        ensures { result ≡ calls self.now };
}

/// The recipe of a script's steps: it is told each step's kind and argument in turn.
#[derive(Debug, Drop)]
pub struct StepRecipe {
    kind: RecipeKind,
    argument: u64,
    count: u64,
}

impl Model for StepRecipe {
    ghost use Rattle.oak_model.specs.Recipe.{IsArgument};
    ghost use Rattle.value_ops.specs.Recipes.{Telling};

    ghost Value = { Telling };

    ghost view = { λ r. record { kind = r.kind; argument = r.argument; calls = r.count } };

    ghost invariant = { λ r. IsArgument r.kind r.argument };
}

impl StepRecipe {
    /// One that was told nothing yet, and turns bytes round until it is.
    pub fn make() -> StepRecipe
        ensures { result ≡ record { kind = Rev; argument = 0; calls = 0 } }
    {
        StepRecipe {
            kind: RecipeKind::Rev,
            argument: 0,
            count: 0,
        }
    }
}

impl Recipe for StepRecipe {
    ghost told_kind = { λ r. r.kind };

    ghost told_argument = { λ r. r.argument };

    ghost calls = { λ r. r.calls };

    ghost fed = { λ _. SaysNothing };

    fn tell(&mut self, kind: RecipeKind, argument: u64) {
        self.kind = kind;
        self.argument = argument;
    }

    fn kind(&self) -> RecipeKind {
        self.kind
    }

    fn argument(&self) -> u64 {
        self.argument
    }

    fn apply(&mut self, value: &mut Writing) {
        apply_kind(self.kind, self.argument, value.bytes_mut());
        self.count += 1;
    }

    fn calls(&self) -> u64 {
        self.count
    }
}

/// Calls a boxed recipe exactly once, on these bytes, which no one else sees meanwhile.
pub fn apply_once(recipe: &mut Box<dyn Recipe + Send>, value: &mut Writing)
    requires { calls recipe.old < 2 ^ 64 - 1 }
    ensures bytes { value.new ≡ recipe_result (told_kind recipe.old) (told_argument recipe.old) value.old }
    ensures once { calls recipe.new ≡ calls recipe.old + 1 }
    ensures fed { fed recipe.new value.old }
    ensures kind { told_kind recipe.new ≡ told_kind recipe.old }
    ensures argument { told_argument recipe.new ≡ told_argument recipe.old }
{
    recipe.apply(value);
}
