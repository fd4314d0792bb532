//! Workers that share the tasks of a job by stealing from one another: each task runs once, whatever the threads do.
//!
//! Contracts see a job as numbers: the tasks that it may be given, the kids of each, and for which lists of tasks a piece of its
//! answer stands. Each worker has a deque under one rule: what was pushed to it is what lies in it and what all passes to it took.
//! Tasks are told to a gate as they begin; what a task does is the job's affair.
//! The starting thread opens a job on until 16 tasks for each worker wait.
//! It stands on `gufi_io`'s gates, on the law of balanced jobs in `gufi_core` and on `crossbeam_deque`; walks of a snapshot stand on it.
#![tactic(auto)]

mod connect;
mod gather;
mod job;
mod member;
mod opening;
mod pool;
mod rule;
mod start;
mod threads;
mod work;

pub use job::Job;
pub use pool::run_pool;
