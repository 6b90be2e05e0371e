//! The recipes of scripts: sums and exclusive ors over a value's bytes, and their reversal.
ghost use Rattle.std.specs.Prelude.{◌≡◌, map, bit_xor};
ghost use Rattle.oak_model.specs.Recipe.{IsArgument, recipe_result, add_result};

/// How a compute makes the new bytes of a value from the old ones.
#[derive(Clone, Copy, Debug, PartialEq, Eq)]
pub enum RecipeKind {
    Add,
    Xor,
    Rev,
}

/// Makes the bytes that the recipe gives, in place. The argument of `Xor` is a byte, that of `Rev` is 0.
pub fn apply_kind(kind: RecipeKind, argument: u64, bytes: &mut [u8])
    requires { IsArgument kind argument }
    ensures { bytes.new ≡ recipe_result kind argument bytes.old }
{
    match kind {
        RecipeKind::Add => add(argument, bytes),
        RecipeKind::Xor => xor(argument as u8, bytes),
        RecipeKind::Rev => bytes.reverse(),
    }
}

fn add(argument: u64, bytes: &mut [u8])
    ensures { bytes.new ≡ add_result argument bytes.old }
{
    if bytes.len() < 8 {
        return;
    }
    let first = u64::from_be_bytes([
        bytes[0], bytes[1], bytes[2], bytes[3], bytes[4], bytes[5], bytes[6], bytes[7],
    ]);
    let sum = first.wrapping_add(argument);
    bytes[..8].copy_from_slice(&sum.to_be_bytes());
}

fn xor(byte: u8, bytes: &mut [u8])
    ensures { bytes.new ≡ map (λ x. bit_xor x byte) bytes.old }
{
    for b in bytes.iter_mut() {
        *b ^= byte;
    }
}
