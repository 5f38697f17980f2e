//! A cache of answers: a key that was answered before is answered again without computing.
//!
//! A [`Compute`] defines the answer to each key. An [`AnswerCache`] keeps the answers to the most
//! recently used keys, and [`AnswerCache::get`] returns a copy of one. A caller that sends an
//! answer can borrow it: [`AnswerCache::promote`] reports whether it is kept, and
//! [`AnswerCache::newest`] borrows it. [`AnswerCache::keep`] takes an answer that was computed.
//! Each is kept in its written reply, a [`ReadyAnswer`]. `specs/Keeping.antt` defines what a cache
//! keeps, `specs/Ready.antt` how an answer stands in its reply.
//!
//! Answers are those of `http_answer`, and the table is that of `lru`. `connection` keeps its
//! answers in such caches (`KeptAnswers`).
#![tactic(auto)]

// The key of a request, and what computes its answer.
mod compute;
mod key;

// What is kept.
mod cache;
mod copies;
mod ready;
mod tables;

// What may cross threads.
mod send_sync;

pub use cache::{AnswerCache, MOST_ANSWERS, MOST_BODY};
pub use compute::Compute;
pub use key::Key;
pub use ready::ReadyAnswer;
