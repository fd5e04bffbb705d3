// A commit divides the adds of a batch among new segments. It has a job for each of them, and for each existing segment
// if there is a delete.

mod batch_jobs;
mod commit_job;
mod groups;
mod new_segment;
mod prepared_commit;
mod segment_of_add;

pub(crate) use batch_jobs::entries_in_turn;
pub use batch_jobs::push_live;
pub use commit_job::CommitJob;
pub use prepared_commit::PreparedCommit;
