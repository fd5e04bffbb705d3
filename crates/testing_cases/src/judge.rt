// Compares what a case says with what was given.
use fts_model::Refusal;
use serde_json::Value;

/// The bound that `{"at_most":n}` says.
fn bound(says: &Value) -> Option<u64> {
    let Value::Object(members) = says else {
        return None;
    };
    match members.len() {
        1 => says.get("at_most")?.as_u64(),
        _ => None,
    }
}

/// Whether what was given is what the case says: the same JSON value, except that `{"at_most":n}`, also within a list
/// or an object, matches each number up to n.
pub fn fits(says: &Value, given: &Value) -> bool {
    if let Some(most) = bound(says) {
        return given.as_u64().is_some_and(|number| number <= most);
    }
    match (says, given) {
        (Value::Array(says), Value::Array(given)) => {
            if says.len() != given.len() {
                return false;
            }
            for (says, given) in says.iter().zip(given.iter()) {
                if !fits(says, given) {
                    return false;
                }
            }
            true
        }
        (Value::Object(says), Value::Object(given)) => {
            if says.len() != given.len() {
                return false;
            }
            for ((name, says), (given_name, given)) in says.iter().zip(given.iter()) {
                if name != given_name || !fits(says, given) {
                    return false;
                }
            }
            true
        }
        (says, given) => says == given,
    }
}

/// The number of a lane, an operation or a segment that a refusal has.
pub(crate) fn number_of(refusal: Refusal) -> Option<u64> {
    match refusal {
        Refusal::LaneMissing(lane) => Some(lane as u64),
        Refusal::OtherSchema(number)
        | Refusal::UnknownSegment(number)
        | Refusal::SegmentTwice(number)
        | Refusal::SourceGone(number) => Some(number),
        _ => None,
    }
}
