// The answer to a search.
use crate::document::Document;
use crate::operation::Stamp;
use crate::value::{GroupValue, Number};
use std::marker::Model;

/// A hit of a top list.
#[derive(Drop)]
pub struct Hit {
    pub stamp: Stamp,
    /// The hit's value in the field by which the list is ordered.
    pub value: Number,
    pub document: Document,
}

/// The answer to a query and a request.
#[derive(Drop)]
pub struct Answer {
    /// The number of hits.
    pub count: u64,
    /// Each value that a hit has in the field of the groups, rising, with the number of hits that have it.
    pub groups: Option<Vec<(GroupValue, u64)>>,
    /// The first hits that have a value, ordered by value and then by stamp.
    pub top: Option<Vec<Hit>>,
}

impl Model for Answer {
    ghost use Rattle.std.specs.Prelude.{option_map};
    ghost use Rattle.fts_model.specs.Answers.{AnswerValue};

    ghost Value = { AnswerValue };

    ghost view = { λ a. record {
      count = a.count;
      groups = option_map (λ groups. groups.items) a.groups;
      top = option_map (λ hits. hits.items) a.top;
    } };
}
