// A case that is tried: what it gives, and what goes wrong.
ghost use Rattle.std.specs.Prelude.{◌≡◌, Some, Ok};

use crate::judge::number_of;
use crate::trouble::Trouble;
use fts_model::{Number, Refusal};
use serde_json::Value;
use std::alloc::{AllocError, Global};
use std::fmt::Write;

/// What a case gives, written as JSON piece by piece, and the first trouble.
///
/// It is looked at once in the end. So functions that read members or write what a case gives don't return whether they
/// could: a member that can't be read is empty, and nothing counts after the first trouble.
#[derive(Drop)]
pub struct Trial {
    alloc: Global,
    text: String,
    trouble: Option<Trouble>,
}

impl Trial {
    /// A trial in which nothing was given yet.
    pub fn new(alloc: Global) -> Trial {
        Trial {
            alloc,
            text: String::new(alloc),
            trouble: None,
        }
    }

    /// The allocator of everything that the trial makes.
    pub fn alloc(&self) -> Global {
        self.alloc
    }

    /// Whether something went wrong.
    pub fn has_failed(&self) -> bool {
        self.trouble.is_some()
    }

    /// Notes what went wrong, if nothing did before.
    pub fn fail(&mut self, trouble: Trouble) {
        if self.trouble.is_none() {
            self.trouble = Some(trouble);
        }
    }

    /// The value of a call, or `None` if it refused. The refusal is noted.
    pub fn kept<T, E>(&mut self, outcome: Result<T, E>) -> Option<T>
    where
        Trouble: From<E>,
        ensures { (value : T) → result ≡ Some value → outcome ≡ Ok value }
    {
        match outcome {
            Ok(value) => Some(value),
            Err(error) => {
                self.fail(Trouble::from(error));
                None
            }
        }
    }

    /// Appends an item.
    pub fn push<T: Drop>(&mut self, list: &mut Vec<T>, item: T) {
        if list.push(item).is_err() {
            self.fail(Trouble::Memory);
        }
    }

    /// Notes that memory ran out if a piece couldn't be written.
    fn note(&mut self, written: Result<(), AllocError>) {
        if written.is_err() {
            self.fail(Trouble::Memory);
        }
    }

    fn write(&mut self, piece: &str) {
        let written = self.text.push_str(piece);
        self.note(written);
    }

    /// Writes the comma that parts a value from the one before it.
    fn part(&mut self) {
        match self.text.as_bytes().last() {
            None | Some(b'[' | b'{' | b':') => {}
            Some(_) => self.write(","),
        }
    }

    /// Begins a list.
    pub fn open(&mut self) {
        self.part();
        self.write("[");
    }

    /// Ends a list.
    pub fn close(&mut self) {
        self.write("]");
    }

    /// Begins an object.
    pub fn open_object(&mut self) {
        self.part();
        self.write("{");
    }

    /// Ends an object.
    pub fn close_object(&mut self) {
        self.write("}");
    }

    /// Names the value that follows in an object. The name needs no escapes.
    pub fn name(&mut self, name: &'static str) {
        self.part();
        self.write("\"");
        self.write(name);
        self.write("\":");
    }

    /// Gives a number.
    pub fn give_number(&mut self, number: u64) {
        self.part();
        let written = write!(self.text, "{number}");
        self.note(written);
    }

    /// Gives the number of a field.
    pub fn give_field_number(&mut self, number: Number) {
        match number {
            Number::U64(number) => self.give_number(number),
            Number::I64(number) => self.give_signed(number),
        }
    }

    /// Gives a number that may be below 0.
    pub fn give_signed(&mut self, number: i64) {
        self.part();
        let written = write!(self.text, "{number}");
        self.note(written);
    }

    /// Gives a number, or `null`.
    pub fn give_some_number(&mut self, number: Option<u64>) {
        match number {
            Some(number) => self.give_number(number),
            None => self.give_null(),
        }
    }

    /// Gives `true` or `false`.
    pub fn give_flag(&mut self, flag: bool) {
        self.part();
        self.write(if flag { "true" } else { "false" });
    }

    /// Gives `null`.
    pub fn give_null(&mut self) {
        self.part();
        self.write("null");
    }

    /// Gives a value.
    pub fn give_value(&mut self, value: &Value) {
        self.part();
        match value.to_string(self.alloc) {
            Ok(text) => self.write(text.as_str()),
            Err(AllocError) => self.fail(Trouble::Memory),
        }
    }

    /// Gives a text.
    pub fn give_text(&mut self, text: &str) {
        match String::from_str(self.alloc, text) {
            Ok(text) => self.give_value(&Value::String(text)),
            Err(AllocError) => self.fail(Trouble::Memory),
        }
    }

    /// Gives numbers below 2^32, one by one.
    pub fn give_each(&mut self, numbers: &[u32]) {
        for number in numbers {
            self.give_number(u64::from(*number));
        }
    }

    /// Gives numbers below 2^32 as a list.
    pub fn give_documents(&mut self, numbers: &[u32]) {
        self.open();
        self.give_each(numbers);
        self.close();
    }

    /// Gives numbers as a list.
    pub fn give_stamps(&mut self, numbers: &[u64]) {
        self.open();
        for number in numbers {
            self.give_number(*number);
        }
        self.close();
    }

    /// Gives a refusal: `{"error":"StaleBatch"}`, and one that has a number `{"error":"LaneMissing","number":1}`.
    ///
    /// The byte of a `Syntax` isn't among them: a case that shows it has a word of its own.
    pub fn give_refusal(&mut self, refusal: Refusal) {
        self.open_object();
        self.name("error");
        self.give_text(refusal.name());
        if let Some(number) = number_of(refusal) {
            self.name("number");
            self.give_number(number);
        }
        self.close_object();
    }

    /// The length of what was given so far.
    pub fn mark(&self) -> usize {
        self.text.len()
    }

    /// What was given after a mark.
    pub fn since(&self, mark: usize) -> &str {
        match self.text.as_str().split_at_checked(mark) {
            Some((_, behind)) => behind,
            None => "",
        }
    }

    /// If a call refused, gives that refusal in place of all that was given after a mark.
    pub fn settle(&mut self, mark: usize) {
        if let Some(Trouble::Refused(refusal)) = self.trouble {
            self.trouble = None;
            self.cut(mark);
            self.give_refusal(refusal);
        }
    }

    /// Takes back what was given after a mark.
    fn cut(&mut self, mark: usize) {
        if self.text.is_char_boundary(mark) {
            self.text.truncate(mark);
        }
    }

    /// What was given, which may be a refusal, or what went wrong.
    pub(crate) fn ended(&mut self) -> Result<Value, Trouble> {
        self.settle(0);
        if let Some(trouble) = self.trouble {
            return Err(trouble);
        }
        match Value::from_str(self.alloc, self.text.as_str()) {
            Ok(value) => Ok(value),
            Err(_) => Err(Trouble::Impossible("nothing that is JSON was given")),
        }
    }
}
