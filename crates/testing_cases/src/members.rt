// The members of a case, each read strictly: one that is missing or of another kind is noted, and read as empty.
use crate::trial::Trial;
use crate::trouble::Trouble;
use serde_json::Value;

/// The member of a name, whatever it is.
pub fn member<'a>(trial: &mut Trial, case: &'a Value, name: &'static str) -> Option<&'a Value> {
    let found = case.get(name);
    if found.is_none() {
        trial.fail(Trouble::Missing(name));
    }
    found
}

/// The value that was read of a member, or else `empty`.
fn read<T: Copy>(trial: &mut Trial, found: Option<T>, name: &'static str, empty: T) -> T {
    match found {
        Some(found) => found,
        None => {
            trial.fail(Trouble::WrongKind(name));
            empty
        }
    }
}

/// The text under a name.
pub fn text<'a>(trial: &mut Trial, case: &'a Value, name: &'static str) -> &'a str {
    let found = member(trial, case, name).and_then(Value::as_str);
    read(trial, found, name, "")
}

/// The number under a name.
pub fn number(trial: &mut Trial, case: &Value, name: &'static str) -> u64 {
    let found = member(trial, case, name).and_then(Value::as_u64);
    read(trial, found, name, 0)
}

/// The number under a name as a `usize`.
pub fn size(trial: &mut Trial, case: &Value, name: &'static str) -> usize {
    number(trial, case, name) as usize
}

/// `true` or `false` under a name.
pub fn flag(trial: &mut Trial, case: &Value, name: &'static str) -> bool {
    let found = member(trial, case, name).and_then(Value::as_bool);
    read(trial, found, name, false)
}

/// The list under a name, which may be empty.
pub fn list<'a>(trial: &mut Trial, case: &'a Value, name: &'static str) -> &'a [Value] {
    match member(trial, case, name) {
        Some(Value::Array(items)) => items.as_slice(),
        _ => {
            trial.fail(Trouble::WrongKind(name));
            &[]
        }
    }
}

/// The list under a name, which has at least one item.
pub fn nonempty<'a>(trial: &mut Trial, case: &'a Value, name: &'static str) -> &'a [Value] {
    let items = list(trial, case, name);
    if items.is_empty() {
        trial.fail(Trouble::Empty(name));
    }
    items
}

/// The list of numbers below 2^32 under a name, which may be empty.
pub fn numbers(trial: &mut Trial, case: &Value, name: &'static str) -> Vec<u32> {
    let mut numbers = Vec::new(trial.alloc());
    for item in list(trial, case, name) {
        let number = read(trial, item.as_u64(), name, 0);
        let number = read(trial, u32::try_from(number).ok(), name, 0);
        trial.push(&mut numbers, number);
    }
    numbers
}

/// The list of numbers under a name, which may be empty.
pub fn ids(trial: &mut Trial, case: &Value, name: &'static str) -> Vec<u64> {
    let mut ids = Vec::new(trial.alloc());
    for item in list(trial, case, name) {
        let number = read(trial, item.as_u64(), name, 0);
        trial.push(&mut ids, number);
    }
    ids
}

/// Whether a name is there.
pub fn has(case: &Value, name: &'static str) -> bool {
    case.get(name).is_some()
}

/// The text under a name, if the name is there.
pub fn optional_text<'a>(
    trial: &mut Trial,
    case: &'a Value,
    name: &'static str,
) -> Option<&'a str> {
    if has(case, name) {
        Some(text(trial, case, name))
    } else {
        None
    }
}

/// `true` or `false` under a name, and `false` if the name isn't there.
pub fn optional_flag(trial: &mut Trial, case: &Value, name: &'static str) -> bool {
    has(case, name) && flag(trial, case, name)
}

/// The list under a name, if the name is there.
pub fn optional_list<'a>(
    trial: &mut Trial,
    case: &'a Value,
    name: &'static str,
) -> Option<&'a [Value]> {
    if has(case, name) {
        Some(list(trial, case, name))
    } else {
        None
    }
}

/// Refuses each member of an object whose name isn't one of these.
pub fn only(trial: &mut Trial, object: &Value, names: &[&str]) {
    only_of(trial, object, &[], names);
}

/// Refuses each member of a case whose name isn't one of these, and isn't its sentence, its word or what it gives.
pub fn only_in_case(trial: &mut Trial, case: &Value, names: &[&str]) {
    only_of(trial, case, &["case", "do", "gives"], names);
}

fn only_of(trial: &mut Trial, object: &Value, names: &[&str], more: &[&str]) {
    let Value::Object(members) = object else {
        return trial.fail(Trouble::NoObject);
    };
    for (name, _) in members.iter() {
        let name = name.as_str();
        if !(&*names).contains(&name) && !(&*more).contains(&name) {
            trial.fail(Trouble::UnknownMember);
        }
    }
}
