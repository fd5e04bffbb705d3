// A merge makes one segment of several: it is planned, started, run in any thread and ended.

mod candidates;
pub(crate) mod end_entries;
mod merge_job;
mod merge_task;
mod merged_segment;
pub(crate) mod named_entries;

pub(crate) use candidates::candidates_by;
pub use merge_job::MergeJob;
pub use merge_task::{MergeTask, due_tasks};
pub use merged_segment::MergedSegment;
