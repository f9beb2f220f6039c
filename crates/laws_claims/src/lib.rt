//! Laws of jobs: what the parts of a job do to the tree that can be seen, what a job leaves, and
//! that jobs whose claims don't clash come to the same in either order. No code: each law is the
//! contract of an empty call.
#![tactic(auto)]

mod laws;

pub use laws::{
    a_copy_is_a_recursion, jobs_commute, nothing_else_stands_there, what_is_moved_is_kept,
    works_keep_to_claims, works_leave_the_outcome,
};
