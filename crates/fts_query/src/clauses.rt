// A Boolean node under construction, while its clauses are read.
ghost use Rattle.std.specs.Prelude.{◌≡◌};
ghost use Rattle.fts_query.specs.Meanings.{occur_in_conjunction, occur_alone};

use crate::error::QueryError;
use fts_model::Query;
use std::alloc::{AllocError, Global};

/// A query, or the first error in it.
pub(crate) type Meaning = Result<Query, QueryError>;

/// The modifier of a unit.
#[derive(Clone, Copy, Debug, PartialEq, Eq)]
pub enum Modifier {
    /// No modifier.
    Plain,
    /// `+`.
    Plus,
    /// `-` or `NOT`.
    Minus,
}

/// The role of a clause in its Boolean node.
#[derive(Clone, Copy, Debug, PartialEq, Eq)]
pub enum Occur {
    Must,
    MustNot,
    Should,
}

/// The role of a factor in a conjunction.
pub(crate) fn occur_in_conjunction(modifier: Modifier) -> Occur
    ensures { result ≡ occur_in_conjunction modifier }
{
    match modifier {
        Modifier::Plain | Modifier::Plus => Occur::Must,
        Modifier::Minus => Occur::MustNot,
    }
}

/// The role in a list of a factor that is a whole disjunction.
pub(crate) fn occur_alone(modifier: Modifier) -> Occur
    ensures { result ≡ occur_alone modifier }
{
    match modifier {
        Modifier::Plain => Occur::Should,
        Modifier::Plus => Occur::Must,
        Modifier::Minus => Occur::MustNot,
    }
}

/// The clauses of a Boolean node so far, or the first error in them.
#[derive(Drop)]
pub(crate) struct Clauses {
    must: Vec<Query>,
    must_not: Vec<Query>,
    should: Vec<Query>,
    error: Option<QueryError>,
}

impl Clauses {
    ghost use Rattle.std.specs.Prelude.{◌≡◌, [], OnOk, Ok};
    ghost use Rattle.fts_base.specs.Results.{result_map};
    ghost use Rattle.fts_model.specs.QueryValues.{query_value};
    ghost use Rattle.fts_query.specs.Gathering.{gathered_of, gather, gathered_node};

    /// A node without a clause.
    pub(crate) fn new(alloc: Global) -> Clauses
        ensures { gathered_of result ≡ Ok ([], [], []) }
    {
        Clauses {
            must: Vec::new(alloc),
            must_not: Vec::new(alloc),
            should: Vec::new(alloc),
            error: None,
        }
    }

    /// Adds a clause. After an error no further query is stored.
    pub(crate) fn push(&mut self, occur: Occur, meaning: Meaning) -> Result<(), AllocError>
        ensures { OnOk result (gathered_of self.new
            ≡ gather (gathered_of self.old) (occur, result_map query_value meaning)) }
    {
        if self.error.is_some() {
            return Ok(());
        }
        let query = match meaning {
            Ok(query) => query,
            Err(error) => {
                self.error = Some(error);
                return Ok(());
            }
        };
        match occur {
            Occur::Must => self.must.push(query)?,
            Occur::MustNot => self.must_not.push(query)?,
            Occur::Should => self.should.push(query)?,
        }
        Ok(())
    }

    /// The node of the clauses, of which there is at least one. It is `AllNegative` if all are must-nots.
    pub(crate) fn into_node(self) -> Meaning
        ensures { result_map query_value result ≡ gathered_node (gathered_of self) }
    {
        if let Some(error) = self.error {
            return Err(error);
        }
        if self.must.is_empty() && self.should.is_empty() {
            return Err(QueryError::AllNegative);
        }
        Ok(Query::Bool {
            must: self.must,
            must_not: self.must_not,
            should: self.should,
        })
    }
}
