// A schema whose growth was refused.
use crate::fixtures::field;
use fts_model::{Field, Kind, Refusal, Schema};
use std::alloc::{AllocError, Global};
use std::process::Abort;

/// The fields `title` (text) and `price` (`u64`).
fn two_fields(alloc: Global) -> Result<Vec<Field>, AllocError> {
    let title = field(alloc, "title", Kind::Text, true)?;
    let price = field(alloc, "price", Kind::U64, false)?;
    Ok(vec![in alloc; title, price]?)
}

/// The schema of two fields, which come back if a growth was refused.
fn made(rt: &impl Abort, alloc: Global, fields: Vec<Field>) -> Schema {
    match Schema::new(alloc, fields) {
        Ok(schema) => schema,
        Err((fields, refusal)) => {
            assert_eq!(rt; refusal, Refusal::Memory);
            let [title, price] = fields.as_slice() else {
                panic!(rt; "other fields come back");
            };
            assert_eq!(rt; (title.name.as_str(), price.kind), ("title", Kind::U64));
            Schema::new(alloc, fields)
                .map_err(|e| e.1)
                .expect(rt, "a schema again")
        }
    }
}

/// A copy of a schema. If a growth was refused, the second try succeeds.
fn copied(rt: &impl Abort, schema: &Schema) -> Schema {
    match schema.clone() {
        Ok(copy) => copy,
        Err(AllocError) => schema.clone().expect(rt, "a copy again"),
    }
}

#[test]
fn a_refused_growth_hands_the_fields_back(rt: HostRuntime) {
    let fields = two_fields(rt.alloc()).expect(&rt, "fields");
    let schema = made(&rt, rt.alloc(), fields);
    assert_eq!(rt; schema.fields().len(), 2);
    assert_eq!(rt; copied(&rt, &schema).field("price"), Some(1));
}
