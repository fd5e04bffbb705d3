//! Laws of the definitions that contracts cite. Each is a function whose contract is the law, and whose body is empty.

pub use fts_index::publications::laws::{
    equal_stamps_are_one_commit, newest_follows, one_commit_answers_alike,
};
pub use fts_scan::laws::{
    alive_has_each_stamp_once, alive_is_in_the_order_of_stamps, alive_is_what_survives,
    alive_stands_for_history, each_document_alive_was_added_and_not_struck, groups_are_groups,
    there_is_one_list_of_groups, there_is_one_top_list, top_is_a_top_list,
};
pub use fts_snapshots::laws::{
    a_commit_continues_each_history, a_merge_counts_live_documents, a_merge_fits_where_it_begins,
    a_merge_leaves_one_segment, commits_and_merges_are_followed, following_is_transitive,
    the_end_of_a_merge_leaves_the_content, what_fits_goes_on_to_fit,
};
