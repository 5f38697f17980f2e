ghost use Rattle.std.specs.Prelude.{◌≡◌};
ghost use Rattle.td_top.specs.ConsoleBeside.{Halted, Ran, beside_of};

use crate::release_feed::ReleaseFeed;
use crate::talking::talk;
use desk_pool::{Beside, StopFlag};
use installer::InstallPolicy;
use run_ends::{Session, TalkEnd};
use std::sync::Wait;
use td_base::{Sink, Source};

/// How a console session ended (`None` until then, or when memory ran out), and the flag that is
/// raised after it.
#[derive(Drop)]
pub struct TalkOver {
    pub end: Option<TalkEnd>,
    pub flag: StopFlag,
}

/// The console of a server: it serves an operator while workers run, keeps how the session ended,
/// and raises the workers' flag after it. All that it works with is borrowed.
#[derive(Drop)]
pub struct Console<'a, Q, G, C, K> {
    pub session: &'a mut Session,
    pub asked: &'a Q,
    pub feed: &'a mut G,
    pub input: &'a mut C,
    pub output: &'a mut K,
    pub over: &'a mut TalkOver,
}

impl<'a, Q, G, C, K> Console<'a, Q, G, C, K> {
    /// The console over these.
    pub fn new(
        session: &'a mut Session,
        asked: &'a Q,
        feed: &'a mut G,
        input: &'a mut C,
        output: &'a mut K,
        over: &'a mut TalkOver,
    ) -> Console<'a, Q, G, C, K>
        ensures session { result.session.ghost_name ≡ session.entry.ghost_name }
        ensures feed { result.feed.ghost_name ≡ feed.entry.ghost_name }
        ensures input { result.input.ghost_name ≡ input.entry.ghost_name }
        ensures output { result.output.ghost_name ≡ output.entry.ghost_name }
        ensures over { result.over.ghost_name ≡ over.entry.ghost_name }
        ensures session_now { result.session.now ≡ session.old }
        ensures asked_now { result.asked.now ≡ asked.now }
        ensures feed_now { result.feed.now ≡ feed.old }
        ensures input_now { result.input.now ≡ input.old }
        ensures output_now { result.output.now ≡ output.old }
        ensures over_now { result.over.now ≡ over.old }
    {
        Console {
            session,
            asked,
            feed,
            input,
            output,
            over,
        }
    }
}

impl<'a, 'k, G: ReleaseFeed, C: Source, K: Sink> Beside
    for Console<'a, InstallPolicy<'k>, G, C, K> {
    ghost flag = { λ c. c.over.now.flag.flag };

    ghost stopped = { λ c. c.over.now.flag.raised };

    ghost ran = { λ c d. Ran
        (beside_of (λ a. a.rules.chosen) G.seen C.seen K.seen c)
        (beside_of (λ a. a.rules.chosen) G.seen C.seen K.seen d) };

    ghost halted = { λ c d. Halted
        (beside_of (λ a. a.rules.chosen) G.seen C.seen K.seen c)
        (beside_of (λ a. a.rules.chosen) G.seen C.seen K.seen d) };

    fn run<R: Wait>(&mut self, rt: &R) {
        let end = talk(rt, self);
        self.over.end = end;
    }

    fn stop(&mut self) {
        self.over.flag.raise();
    }
}
