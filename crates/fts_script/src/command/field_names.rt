// The names of fields that a line lists.
ghost use Rattle.std.specs.Prelude.{◌≡◌, ◌++◌, ◌∷◌, [], if◌then◌else◌, Some, None, IfOk, option_map, option_and_then};
ghost use Rattle.std.specs.Option.{ok_or};
ghost use Rattle.serde_json.specs.Find.{as_array, as_str};
ghost use Rattle.serde_json.specs.View.{view, items_view};
ghost use Rattle.fts_script.specs.command.Cuts.{texts_in};

use fts_model::Text;
use serde_json::Value;
use std::alloc::{AllocError, Global};

/// Returns the name that a value is, if it is a text.
fn name_of(alloc: Global, json: &Value) -> Result<Option<Text>, AllocError>
    ensures { IfOk result (λ name. name ≡ as_str (view json.now)) }
{
    let Some(name) = json.as_str() else {
        return Ok(None);
    };
    Ok(Some(Text::new(String::from_str(alloc, name)?)))
}

/// Appends the text that a value is, and returns whether it is one.
fn push_name(alloc: Global, names: &mut Vec<Text>, json: &Value) -> Result<bool, AllocError>
    ensures is_one { IfOk result (λ is_one.
        option_map (λ name. names.old.items ++ name ∷ []) (as_str (view json.now))
        ≡ if is_one then Some names.new.items else None) }
{
    match name_of(alloc, json)? {
        None => Ok(false),
        Some(name) => {
            names.push(name)?;
            Ok(true)
        }
    }
}

/// Returns the names that values are, if each is a text.
fn texts_of(alloc: Global, json: &[Value]) -> Result<Option<Vec<Text>>, AllocError>
    ensures { IfOk result
        (λ names. option_map (λ v. v.items) names ≡ texts_in (items_view json.now)) }
{
    let mut names = Vec::with_capacity(alloc, json.len())?;
    for json in json {
        if !push_name(alloc, &mut names, json)? {
            return Ok(None);
        }
    }
    Ok(Some(names))
}

/// The names that a list is.
pub fn field_names_of(alloc: Global, json: &Value) -> Result<Option<Vec<Text>>, AllocError>
    ensures { IfOk result (λ names. option_map (λ v. v.items) names
        ≡ option_and_then texts_in (as_array (view json.now))) }
{
    let Some(items) = json.as_array() else {
        return Ok(None);
    };
    texts_of(alloc, items)
}
