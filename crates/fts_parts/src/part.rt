// The answer over the hits of one segment, and how several are joined.
ghost use Rattle.std.specs.Prelude.{◌≡◌, ◌<◌, ◌≤◌, ◌^◌, [], List, IfOk, length, option_map, sum_by, vec_capacity};
ghost use Rattle.fts_model.specs.declared.operation.Stamped.{Stamped};
ghost use Rattle.fts_model.specs.Documents.{DocumentValue};
ghost use Rattle.fts_model.specs.Operations.{HasEachStampOnce};
ghost use Rattle.fts_model.specs.Answers.{groups, top};
ghost use Rattle.fts_parts.specs.Parts.{ArePartsOf};
ghost use Rattle.fts_parts.specs.Internals.Joins.{all_hits};

use crate::groups::joined_groups;
use crate::lent::Counted;
use crate::top::{joined_top, room_for_hits};
use fts_model::{Answer, GroupValue, Hit, Refusal, Request};
use std::alloc::{AllocError, Global};
use std::marker::Model;

/// The answer over the hits of one segment, and how many blocks were opened to find them. The keywords of groups stay
/// in the segment, which the part shares.
#[derive(Drop)]
pub struct Part {
    pub(crate) count: u64,
    pub(crate) groups: Option<Counted>,
    pub(crate) top: Option<Vec<Hit>>,
    pub(crate) openings: u64,
}

impl Model for Part {
    ghost use Rattle.std.specs.Prelude.{option_map};
    ghost use Rattle.fts_parts.specs.Parts.{PartValue};

    ghost Value = { PartValue };

    ghost view = { λ p. record {
      answer = record { count = p.count; groups = p.groups; top = option_map (λ hits. hits.items) p.top };
      openings = p.openings;
    } };
}

impl Part {
    ghost use Rattle.std.specs.Prelude.{◌≡◌, ◌<◌, ◌^◌, List, IfOk, IfErr, length};
    ghost use Rattle.fts_model.specs.declared.operation.Stamped.{Stamped};
    ghost use Rattle.fts_base.specs.declared.refusal.Refusal.TheVariants.{Memory};
    ghost use Rattle.fts_model.specs.Documents.{DocumentValue};
    ghost use Rattle.fts_model.specs.Operations.{HasEachStampOnce};
    ghost use Rattle.fts_model.specs.Answers.{answer_of};
    ghost use Rattle.fts_parts.specs.Parts.{ArePartsOf};

    /// How many blocks were opened to find the hits. A sum past the greatest `u64` stays at it.
    pub fn openings(&self) -> u64
        ensures { result ≡ self.now.openings }
    {
        self.openings
    }

    /// The answer over the hits of all parts, in whatever order the parts are, if they are answers to this request over
    /// hits among which no stamp occurs twice. The top list moves out of the parts.
    ///
    /// The only refusal is `Memory`, and it hands the parts back.
    pub fn join(
        alloc: Global,
        parts: Vec<Part>,
        request: &Request,
    ) -> Result<Answer, (Vec<Part>, Refusal)>
        ensures joined { (hits : List (Stamped DocumentValue)) →
            ArePartsOf request.now hits parts.items → HasEachStampOnce hits → length hits < 2 ^ 64 →
            IfOk result (λ answer. answer ≡ answer_of request.now hits) }
        ensures parts { IfErr result (λ e. e.0 ≡ parts) }
        ensures memory { IfErr result (λ e. e.1 ≡ Memory) }
    {
        let groups = match request.groups {
            None => None,
            Some(_) => match joined_groups(alloc, &parts) {
                Ok(groups) => Some(groups),
                Err(AllocError) => return Err((parts, Refusal::Memory)),
            },
        };
        let Ok(room) = room_for_hits(alloc, &parts) else {
            return Err((parts, Refusal::Memory));
        };
        let count = joined_count(&parts);
        let top = match request.top {
            None => None,
            Some(wanted) => Some(joined_top(wanted, parts, room)),
        };
        Ok(Answer { count, groups, top })
    }
}

/// How many hits all parts have.
fn joined_count(parts: &[Part]) -> u64
    ensures { sum_by (λ part. part.answer.count) parts.now < 2 ^ 64 →
        result ≡ sum_by (λ part. part.answer.count) parts.now }
{
    let mut count = 0u64;
    for part in parts {
        count = count.saturating_add(part.count);
    }
    count
}
