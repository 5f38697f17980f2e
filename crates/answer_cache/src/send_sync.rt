//! A key is plain data, and a cache may be sent to another thread.
use crate::{AnswerCache, Key};

fn is_shared<T: Send + Sync>() {}

fn is_sent<T: Send>() {}

fn types_are_sent() {
    is_shared::<Key>();
    is_sent::<AnswerCache>();
}
