//! What tests ask of a value.
ghost use Rattle.std.specs.Prelude.{◌≡◌, true, Some};
ghost use Rattle.std.specs.Option.{option_copied};
ghost use Rattle.bson_doc.specs.declared.value.Value.TheVariants as value_of;

use bson_doc::Value;

/// Whether a value is there and is that int32.
pub fn is_int32(value: Option<&Value>, wanted: i32) -> bool
    ensures { result ≡ true → option_copied value.entry ≡ Some (value_of.Int32 wanted) }
{
    match value {
        Some(Value::Int32(n)) => *n == wanted,
        _ => false,
    }
}
