// What a search is asked by values, and its answer.
use crate::members::{number, only, optional_text, text};
use crate::trial::Trial;
use crate::trouble::Trouble;
use fts_model::{Answer, GroupValue, Hit, Order, Request, Schema};
use serde_json::Value;

fn order_named(trial: &mut Trial, name: &str) -> Order {
    match name {
        "rising" => Order::Rising,
        "falling" => Order::Falling,
        _ => {
            trial.fail(Trouble::UnknownWord);
            Order::Rising
        }
    }
}

/// The top list that an object `{"by":FIELD,"k":K,"order":ORDER}` asks for.
fn top_of<'a>(trial: &mut Trial, top: &'a Value) -> (&'a str, u64, Order) {
    only(trial, top, &["by", "k", "order"]);
    let order = text(trial, top, "order");
    let order = order_named(trial, order);
    (text(trial, top, "by"), number(trial, top, "k"), order)
}

/// The top list that a case asks for, if it does.
fn optional_top<'a>(trial: &mut Trial, case: &'a Value) -> Option<(&'a str, u64, Order)> {
    match case.get("top") {
        Some(top) => Some(top_of(trial, top)),
        None => None,
    }
}

/// What a case asks by values: `groups`, a field, and `top`, an object `{"by":FIELD,"k":K,"order":ORDER}`.
pub fn request_of(trial: &mut Trial, schema: &Schema, case: &Value) -> Option<Request> {
    let groups = optional_text(trial, case, "groups");
    let top = optional_top(trial, case);
    let request = Request::new(schema, groups, top);
    trial.kept(request)
}

/// Gives the value of a group.
fn give_group(trial: &mut Trial, value: &GroupValue) {
    match value {
        GroupValue::U64(number) => trial.give_number(*number),
        GroupValue::I64(number) => trial.give_signed(*number),
        GroupValue::Keyword(keyword) => trial.give_text(keyword.as_str()),
    }
}

/// Gives groups as pairs of a value and a count.
fn give_groups(trial: &mut Trial, groups: &[(GroupValue, u64)]) {
    trial.open();
    for (value, count) in groups {
        trial.open();
        give_group(trial, value);
        trial.give_number(*count);
        trial.close();
    }
    trial.close();
}

/// Gives a top list as pairs of a stamp and a value.
fn give_top(trial: &mut Trial, hits: &[Hit]) {
    trial.open();
    for hit in hits {
        trial.open();
        trial.give_number(hit.stamp);
        trial.give_field_number(hit.value);
        trial.close();
    }
    trial.close();
}

/// Gives an answer as `{"count":..,"groups":..,"top":..}`, without what wasn't asked.
pub fn give_answer(trial: &mut Trial, answer: &Answer) {
    trial.open_object();
    trial.name("count");
    trial.give_number(answer.count);
    if let Some(groups) = &answer.groups {
        trial.name("groups");
        give_groups(trial, groups);
    }
    if let Some(top) = &answer.top {
        trial.name("top");
        give_top(trial, top);
    }
    trial.close_object();
}
