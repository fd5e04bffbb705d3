// The values of a document's fields: only those that are there are stored.
ghost use Rattle.std.specs.Prelude.{◌≡◌, ◌<◌, ◌++◌, ◌∷◌, [], IfOk, OnOk, length, option_copied, slice_get};
ghost use Rattle.std.specs.Option.{option_and_then};

use crate::value::FieldValue;
use std::alloc::{AllocError, Global};
use std::marker::Model;

/// A value or none for each field, in order.
#[derive(Drop)]
pub(crate) struct FieldValues {
    // The number of fields, at most 32.
    len: u32,
    // Bit `n` is set if field `n` has a value.
    present: u32,
    // The values that there are.
    values: Vec<FieldValue>,
}

impl Model for FieldValues {
    ghost use Rattle.std.specs.Prelude.{List, Option};
    ghost use Rattle.fts_model.specs.declared.value.FieldValue.{FieldValue};
    ghost use Rattle.fts_model.specs.Internals.FieldValues.{spread, ArePacked};

    ghost Value = { List (Option FieldValue) };

    ghost view = { λ v. spread v.len v.present v.values.items };

    ghost invariant = { λ v. ArePacked (spread v.len v.present v.values.items) v.present v.values.items };
}

impl FieldValues {
    /// No field yet, with room for `capacity` values.
    pub(crate) fn with_capacity(alloc: Global, capacity: usize) -> Result<FieldValues, AllocError>
        ensures { IfOk result (λ values. values ≡ []) }
    {
        Ok(FieldValues {
            len: 0,
            present: 0,
            values: Vec::with_capacity(alloc, capacity)?,
        })
    }

    /// Appends a field with its value, if it has one.
    pub(crate) fn push(&mut self, value: Option<FieldValue>) -> Result<(), AllocError>
        requires { length self.now < 32 }
        ensures { OnOk result (self.new ≡ self.old ++ value ∷ []) }
    {
        if let Some(value) = value {
            self.values.push(value)?;
            self.present |= 1 << self.len;
        }
        self.len += 1;
        Ok(())
    }

    /// The value of a field by its number, if it has one.
    pub(crate) fn get(&self, field: usize) -> Option<&FieldValue>
        ensures { option_copied result ≡ option_and_then (λ v. v) (slice_get self.now field) }
    {
        if field >= self.len as usize || (self.present >> field) & 1 == 0 {
            return None;
        }
        let before = self.present & ((1 << field) - 1);
        self.values.get(before.count_ones() as usize)
    }
}
