// A document that is made, copied and printed again if a growth was refused.
use crate::fixtures::schema;
use fts_model::{Document, Refusal, Schema};
use serde_json::Value;
use std::alloc::{AllocError, Global};
use std::process::Abort;

/// The document of a value. If a growth was refused, the second try succeeds.
fn made(rt: &impl Abort, alloc: Global, schema: &Schema, json: &Value) -> Document {
    match Document::from_json(alloc, schema, json) {
        Ok(document) => document,
        Err(refusal) => {
            assert_eq!(rt; refusal, Refusal::Memory);
            Document::from_json(alloc, schema, json).expect(rt, "a document again")
        }
    }
}

/// A copy of a document. If a growth was refused, the second try succeeds.
fn copied(rt: &impl Abort, document: &Document) -> Document {
    match document.clone() {
        Ok(copy) => copy,
        Err(AllocError) => document.clone().expect(rt, "a copy again"),
    }
}

/// The value of a document. If a growth was refused, the second try succeeds.
fn printed(rt: &impl Abort, alloc: Global, document: &Document) -> Value {
    match document.to_json(alloc) {
        Ok(printed) => printed,
        Err(refusal) => {
            assert_eq!(rt; refusal, Refusal::Memory);
            document.to_json(alloc).expect(rt, "a value again")
        }
    }
}

/// Asserts that a document is printed as the line that it is made of.
fn is_printed(rt: &impl Abort, alloc: Global, schema: &Schema, line: &str) {
    let json = Value::from_str(alloc, line).expect(rt, "a value");
    let document = made(rt, alloc, schema, &json);
    let printed = printed(rt, alloc, &copied(rt, &document));
    let text = printed.to_string(alloc).expect(rt, "a text");
    assert_eq!(rt; text.as_str(), line);
}

#[test]
fn a_refused_growth_can_be_tried_again(rt: HostRuntime) {
    let schema = schema(&rt, rt.alloc());
    for line in [
        r#"{"price":3,"tag":"a b","temp":-1,"title":"T"}"#,
        r#"{"title":["a b","c"]}"#,
        r#"{"tag":"p","title":["","é","a b c d e f g h i j k l m n o p q r s t u v w x y z"]}"#,
        r#"{"price":18446744073709551615,"title":["a"]}"#,
    ] {
        is_printed(&rt, rt.alloc(), &schema, line);
    }
}
