// The fields of what is said of a part.
ghost use Rattle.std.specs.Prelude.{◌≡◌, map};
ghost use Rattle.std.specs.Option.{option_map};
ghost use Rattle.serde_json.specs.View.{view};
ghost use Rattle.projection_spec.specs.Given.{fits_fields, main_field};

use json_forms::has_only_fields;
use serde_json::Value;

/// Whether a value is a text, or a map with no other fields than these.
pub(crate) fn fits_fields(value: &Value, names: &[&str]) -> bool
    ensures { result ≡ fits_fields (map (λ name. name.now) names.now) (view value.now) }
{
    match value {
        Value::String(_) => true,
        Value::Object(fields) => has_only_fields(fields, names),
        _ => false,
    }
}

/// What the main field of a part says; a text stands for a map with this field alone.
pub(crate) fn main_field<'a>(value: &'a Value, name: &str) -> Option<&'a Value>
    ensures { option_map (λ said. view said.now) result ≡ main_field name.now (view value.now) }
{
    if value.is_string() {
        Some(value)
    } else {
        value.get(name)
    }
}
