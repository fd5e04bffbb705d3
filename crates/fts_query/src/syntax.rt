// Finds the byte at which a text leaves the grammar.
ghost use Rattle.std.specs.Prelude.{IfOk};
ghost use Rattle.fts_query.specs.Outcomes.{IsByteOf, TellsSyntax};

use crate::parser::parse;
use fts_model::{Field, Kind, Refusal, Schema, Text};
use std::alloc::{AllocError, Global};

/// An arbitrary schema; whether a text is in the grammar doesn't depend on the schema.
fn some_schema(alloc: Global) -> Result<Schema, AllocError> {
    let name = Text::new(String::from_str(alloc, "a")?);
    let mut fields = Vec::new(alloc);
    fields.push(Field {
        name,
        kind: Kind::Text,
        default: true,
    })?;
    match Schema::new(alloc, fields) {
        Ok(schema) => Ok(schema),
        Err(_) => Err(AllocError),
    }
}

/// The byte of a refusal, if it is a `Syntax`. `Memory` is an error, since then the byte isn't known.
fn byte_in(refusal: Refusal) -> Result<Option<usize>, AllocError>
    ensures { IfOk result (IsByteOf refusal) }
{
    match refusal {
        Refusal::Memory => Err(AllocError),
        Refusal::Syntax(byte) => Ok(Some(byte)),
        _ => Ok(None),
    }
}

/// The byte of a `Syntax` refusal, as [`parse`] gives it: how far a text that isn't in the grammar could be read. Any
/// other text has none, whether it is a query or refused for another reason. The byte doesn't depend on the schema.
pub fn syntax_at(alloc: Global, text: &str) -> Result<Option<usize>, AllocError>
    ensures { IfOk result (TellsSyntax text.now) }
{
    let schema = some_schema(alloc)?;
    match parse(alloc, &schema, text) {
        Ok(_) => Ok(None),
        Err(refusal) => byte_in(refusal),
    }
}
