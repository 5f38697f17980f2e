//! Subscribers: who wants to be notified of zones that an install changes, and the notices that
//! each has yet to clear.
//!
//! A [`Wish`] is the filter of a subscriber; which changes it takes is `takes` of
//! `specs/Wishes.antt`. The tests of the kinds of wishes are kept as closures. A [`Want`] returns
//! true exactly where its kind takes the change, and its maker must prove that.
//!
//! Before a release is published, [`Subscribers`] prepares a notice for each subscriber whose wish
//! takes a zone of it. After publishing, the notice is added to what the subscriber holds, without
//! allocation. What a subscriber is owed is `news` of `specs/News.antt`. [`hears_each_change_once`]
//! states that it gets exactly that, whatever is installed, refused, subscribed and cleared.
//!
//! Changes are those of `admission`. `installer` prepares and adds notices, and `console` prints
//! them.
#![tactic(auto)]

// Wishes: their kinds, which changes they take, and the tests of the kinds.
mod taking;
mod want;
mod wish;

// Notices, and their subscribers.
mod notice;
mod noticing;
mod subscribe_fault;
mod subscriber;
mod subscriber_list;

// A law, and what may cross threads.
mod laws;
mod send_sync;

pub use laws::hears_each_change_once;
pub use notice::{Names, Notice, Notices};
pub use subscribe_fault::SubscribeFault;
pub use subscriber_list::{MOST_SUBSCRIBERS, Subscribers};
pub use taking::{is_any, is_past, is_under};
pub use want::{Want, WantTest};
pub use wish::{Wish, WishKind};
