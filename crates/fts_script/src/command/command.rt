// The commands of a script, in their order in JSON.
ghost use Rattle.std.specs.Prelude.{◌≡◌, ◌++◌, ◌∷◌, [], if◌then◌else◌, ℕ, List, Option, Some, None, IfOk, IfErr};
ghost use Rattle.std.specs.List.{list_any};
ghost use Rattle.std.specs.Prelude.{map, option_map, OnErr};
ghost use Rattle.std.specs.Str.{bytes_eq};
ghost use Rattle.serde_json.specs.View.{view};
ghost use Rattle.fts_script.specs.command.Commands.{are_named, has_only, text_at, kind_named, flag_or_false};
ghost use Rattle.fts_script.specs.command.Commands.{field_in, fields_in, only_member, if_there, order_named, whole_number, top_in};
ghost use Rattle.fts_script.specs.command.Commands.{search_in, delete_in, Find, schema_in};
ghost use Rattle.fts_script.specs.command.Commands.{command_if, command_named, command_in};
ghost use Rattle.fts_script.specs.command.Commands.{json_in};
ghost use Rattle.fts_script.specs.command.CommandViews.{command_value, search_value};
ghost use Rattle.serde_json.specs.Find.{as_str, as_bool};
ghost use Rattle.serde_json.specs.View.{items_view, members_view};

use fts_model::{Field, Kind, Order, Text};
use serde_json::{Map, Value};
use std::alloc::{AllocError, Global};

/// What a search asks for.
#[derive(Clone, Copy)]
pub struct Search<'a> {
    pub query: &'a str,
    /// The name of a field by whose values the hits are counted.
    pub groups: Option<&'a str>,
    /// The name of a field, how many hits are wanted, and in which order of that field.
    pub top: Option<(&'a str, u64, Order)>,
}

/// A command of a script.
#[derive(Drop)]
pub enum Command<'a> {
    /// Takes a schema of these fields.
    Schema(Vec<Field>),
    /// Adds a document.
    Add(&'a Value),
    /// Deletes the documents with a value in the field of this name.
    Delete(&'a str, &'a Value),
    DeleteAll,
    Commit,
    Rollback,
    Merge,
    Search(Search<'a>),
}

/// Whether a name is one of these.
fn is_one_of(name: &str, names: &[&str]) -> bool
    ensures { result ≡ list_any (bytes_eq name.now) (map (λ n. n.now) names.now) }
{
    for known in names {
        if name == *known {
            return true;
        }
    }
    false
}

/// Whether each member has one of these names.
fn are_named(members: &Map<String, Value>, names: &[&str]) -> bool
    ensures { result ≡ are_named (map (λ n. n.now) names.now) (members_view members.now.entries) }
{
    for (name, _) in members {
        if !is_one_of(name.as_str(), names) {
            return false;
        }
    }
    true
}

/// Whether an object has no other members than those of these names. What isn't an object has no member.
fn has_only(json: &Value, names: &[&str]) -> bool
    ensures { result ≡ has_only (map (λ n. n.now) names.now) (view json.now) }
{
    match json.as_object() {
        None => true,
        Some(members) => are_named(members, names),
    }
}

/// Returns the text at a name of an object.
fn text_at<'a>(json: &'a Value, name: &str) -> Option<&'a str>
    ensures { option_map (λ text. text.now) result ≡ text_at name.now (view json.entry.now) }
{
    json.get(name)?.as_str()
}

/// Returns the kind of this name.
fn kind_named(name: &str) -> Option<Kind>
    ensures { result ≡ kind_named name.now }
{
    match name {
        "text" => Some(Kind::Text),
        "keyword" => Some(Kind::Keyword),
        "u64" => Some(Kind::U64),
        "i64" => Some(Kind::I64),
        _ => None,
    }
}

/// Returns a flag: false if it isn't there.
fn flag(json: Option<&Value>) -> Option<bool>
    ensures { result ≡ flag_or_false (option_map (λ v. view v.now) json.entry) }
{
    match json {
        None => Some(false),
        Some(json) => json.as_bool(),
    }
}

/// Returns the field that an object is.
fn field_of(alloc: Global, json: &Value) -> Result<Option<Field>, AllocError>
    ensures { IfOk result (λ field. field ≡ field_in (view json.now)) }
{
    if !has_only(json, &["name", "kind", "default"]) {
        return Ok(None);
    }
    let Some(name) = text_at(json, "name") else {
        return Ok(None);
    };
    let Some(kind) = text_at(json, "kind") else {
        return Ok(None);
    };
    let Some(kind) = kind_named(kind) else {
        return Ok(None);
    };
    let Some(default) = flag(json.get("default")) else {
        return Ok(None);
    };
    let name = Text::new(String::from_str(alloc, name)?);
    Ok(Some(Field {
        name,
        kind,
        default,
    }))
}

/// Appends the field that a value is, and returns whether it is one.
fn push_field(alloc: Global, fields: &mut Vec<Field>, json: &Value) -> Result<bool, AllocError>
    ensures is_one { IfOk result (λ is_one.
        option_map (λ field. fields.old.items ++ field ∷ []) (field_in (view json.now))
        ≡ if is_one then Some fields.new.items else None) }
{
    match field_of(alloc, json)? {
        None => Ok(false),
        Some(field) => {
            fields.push(field)?;
            Ok(true)
        }
    }
}

/// Returns the fields that values are, if each is one.
fn fields_of(alloc: Global, json: &[Value]) -> Result<Option<Vec<Field>>, AllocError>
    ensures { IfOk result
        (λ fields. option_map (λ v. v.items) fields ≡ fields_in (items_view json.now)) }
{
    let mut fields = Vec::with_capacity(alloc, json.len())?;
    for json in json {
        if !push_field(alloc, &mut fields, json)? {
            return Ok(None);
        }
    }
    Ok(Some(fields))
}

/// The name and the value of the one member of an object that has just one.
fn only_member(json: &Value) -> Option<(&str, &Value)>
    ensures { option_map (λ m. (m.0.now, view m.1.now)) result ≡ only_member (view json.entry.now) }
{
    let mut members = json.as_object()?.iter();
    match (members.next(), members.next()) {
        (Some((name, value)), None) => Some((name.as_str(), value)),
        _ => None,
    }
}

/// Returns the order of this name.
fn order_named(name: &str) -> Option<Order>
    ensures { result ≡ order_named name.now }
{
    match name {
        "rising" => Some(Order::Rising),
        "falling" => Some(Order::Falling),
        _ => None,
    }
}

/// Returns a whole number that fits 64 bits.
fn whole_number(json: &Value) -> Option<u64>
    ensures { result ≡ whole_number (view json.now) }
{
    json.as_number()?.as_u64()
}

/// Returns the top list that an object asks for.
fn top_of(json: &Value) -> Option<(&str, u64, Order)>
    ensures { option_map (λ top. (top.0.now, top.1, top.2)) result ≡ top_in (view json.entry.now) }
{
    if !has_only(json, &["by", "k", "order"]) {
        return None;
    }
    let by = text_at(json, "by")?;
    let k = whole_number(json.get("k")?)?;
    let order = order_named(text_at(json, "order")?)?;
    Some((by, k, order))
}

/// The name of the field of the groups, if it is there and is one.
fn groups_of(json: Option<&Value>) -> Option<Option<&str>>
    ensures { option_map (λ groups. option_map (λ name. name.now) groups) result
        ≡ if_there as_str (option_map (λ v. view v.now) json.entry) }
{
    match json {
        None => Some(None),
        Some(json) => Some(Some(json.as_str()?)),
    }
}

/// The top list, if it is there and is one.
fn asked_top(json: Option<&Value>) -> Option<Option<(&str, u64, Order)>>
    ensures { option_map (λ top. option_map (λ t. (t.0.now, t.1, t.2)) top) result
        ≡ if_there top_in (option_map (λ v. view v.now) json.entry) }
{
    match json {
        None => Some(None),
        Some(json) => Some(Some(top_of(json)?)),
    }
}

/// Returns the search that an object asks for.
fn search_of(json: &Value) -> Option<Search<'_>>
    ensures { option_map search_value result ≡ search_in (view json.entry.now) }
{
    if !has_only(json, &["query", "groups", "top"]) {
        return None;
    }
    let query = text_at(json, "query")?;
    let groups = groups_of(json.get("groups"))?;
    let top = asked_top(json.get("top"))?;
    Some(Search { query, groups, top })
}

/// The schema that a list of fields is.
fn schema_of(alloc: Global, json: &Value) -> Result<Option<Command<'_>>, AllocError>
    ensures { IfOk result
        (λ command. option_map command_value command ≡ schema_in (view json.entry.now)) }
{
    let Some(fields) = json.as_array() else {
        return Ok(None);
    };
    match fields_of(alloc, fields)? {
        None => Ok(None),
        Some(fields) => Ok(Some(Command::Schema(fields))),
    }
}

/// The deletion that an object of a name and a value is.
fn delete_of(json: &Value) -> Option<Command<'_>>
    ensures { option_map command_value result ≡ delete_in (view json.entry.now) }
{
    let (name, value) = only_member(json)?;
    Some(Command::Delete(name, value))
}

/// The search that an object is, as a command.
fn find_of(json: &Value) -> Option<Command<'_>>
    ensures { option_map command_value result ≡ option_map Find (search_in (view json.entry.now)) }
{
    let search = search_of(json)?;
    Some(Command::Search(search))
}

/// A command that asks for `true`.
fn command_if<'a>(command: Command<'a>, json: &Value) -> Option<Command<'a>>
    ensures { option_map command_value result ≡ command_if (command_value command.entry)
        (as_bool (view json.now)) }
{
    match json.as_bool() {
        Some(true) => Some(command),
        _ => None,
    }
}

/// The command of this name, if its value has the form that it asks for.
fn command_named<'a>(
    alloc: Global,
    name: &str,
    json: &'a Value,
) -> Result<Option<Command<'a>>, AllocError>
    ensures { IfOk result
        (λ command. option_map command_value command
        ≡ command_named name.now (view json.entry.now)) }
{
    match name {
        "schema" => schema_of(alloc, json),
        "add" => Ok(Some(Command::Add(json))),
        "delete" => Ok(delete_of(json)),
        "delete_all" => Ok(command_if(Command::DeleteAll, json)),
        "commit" => Ok(command_if(Command::Commit, json)),
        "rollback" => Ok(command_if(Command::Rollback, json)),
        "merge" => Ok(command_if(Command::Merge, json)),
        "search" => Ok(find_of(json)),
        _ => Ok(None),
    }
}

/// The command that a JSON value is.
pub fn command_of(alloc: Global, json: &Value) -> Result<Option<Command<'_>>, AllocError>
    ensures { IfOk result
        (λ command. option_map command_value command ≡ command_in (view json.entry.now)) }
{
    match only_member(json) {
        None => Ok(None),
        Some((name, value)) => command_named(alloc, name, value),
    }
}
