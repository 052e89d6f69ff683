// What a run reads of a sheet.
ghost use Rattle.std.specs.Prelude.{◌≡◌, ◌/◌, ◌<◌, length};
ghost use Rattle.sheet.specs.Trees.{constant_at};

use value::Value;

/// The constant at index a: 4 bytes.
pub fn constant_at(constants: &[u8], a: usize) -> Value
    requires { a < length constants.now / 4 }
    ensures { result ≡ constant_at constants.now a }
{
    Value::read(constants, a * 4)
}
