ghost use Rattle.std.specs.Prelude.{◌≡◌, ◌≤◌, length};
ghost use Rattle.console.specs.Steps.{most_held};
ghost use Rattle.td_base.specs.Views.{LaterSource};
ghost use Rattle.td_top.specs.ConsoleBeside.{scene_of, steady};
ghost use Rattle.run_ends.specs.Operator.{is_quit};
ghost use Rattle.run_ends.specs.Talking.{ComesTo};
ghost use Rattle.td_top.specs.TalkingSteps.{FeedsTalk, SaysBye, SaysText, TakesLine};
ghost use Rattle.td_top.specs.TalkingSteps.{TalksOn, Turns, most_waiting};

use crate::console_beside::Console;
use crate::operator::{answer_line, newest};
use crate::release_feed::ReleaseFeed;
use console::{Line, Lines, Said, short};
use installer::InstallPolicy;
use run_ends::{PIECE, TalkEnd};
use std::sync::Wait;
use td_base::{NoMemory, ReadStep, Sink, Source, Written, write_whole};

/// The result of one turn of a session.
#[derive(Clone, Copy, PartialEq, Eq)]
pub enum TalkTurn {
    /// The session goes on.
    On,
    /// The session ended.
    End(TalkEnd),
    /// There is no memory for what the operator wrote.
    NoMemory,
}

/// The result of taking the next line.
#[derive(Drop)]
pub enum LineTaken {
    /// A line.
    Line(Line),
    /// A line that owns a text, for which there was no memory.
    Unread,
    /// No whole line is held.
    None,
}

/// Reports that the server is ready, and answers line by line until the operator quits, the input
/// ends, or a read or a write fails. Returns no end when memory ran out.
pub fn talk<R: Wait, G: ReleaseFeed, C: Source, K: Sink>(
    rt: &R,
    console: &mut Console<'_, InstallPolicy<'_>, G, C, K>,
) -> Option<TalkEnd>
    ensures talks { let at = scene_of (λ a. a.rules.chosen) G.seen C.seen K.seen in
        ComesTo (at console.old) (at console.new) result }
    ensures steady { steady console.new ≡ steady console.old }
{
    let session = &mut *console.session;
    let ready = short(&Said::Ready(newest(&session.installer)));
    match write_whole(console.output, ready.as_slice()) {
        Written::Whole => answer_lines(rt, console),
        Written::Cut => Some(TalkEnd::NotWritten),
    }
}

/// Answers line by line until the session ends.
fn answer_lines<R: Wait, G: ReleaseFeed, C: Source, K: Sink>(
    rt: &R,
    console: &mut Console<'_, InstallPolicy<'_>, G, C, K>,
) -> Option<TalkEnd>
    ensures talks { let at = scene_of (λ a. a.rules.chosen) G.seen C.seen K.seen in
        TalksOn (at console.old) (at console.new) result }
    ensures steady { steady console.new ≡ steady console.old }
{
    let mut lines = Lines::new(console.session.alloc);
    for _ in rt.forever() {
        match take_turn(rt, console, &mut lines) {
            TalkTurn::On => {}
            TalkTurn::End(end) => return Some(end),
            TalkTurn::NoMemory => return None,
        }
    }
    unreachable!()
}

/// Answers the next line, or reads a piece of the input when no whole line is held.
fn take_turn<R: Wait, G: ReleaseFeed, C: Source, K: Sink>(
    rt: &R,
    console: &mut Console<'_, InstallPolicy<'_>, G, C, K>,
    lines: &mut Lines,
) -> TalkTurn
    requires { length lines.old ≤ most_waiting }
    ensures turns { let at = scene_of (λ a. a.rules.chosen) G.seen C.seen K.seen in
        Turns (at console.old) (at console.new) lines.old lines.new result }
    ensures steady { steady console.new ≡ steady console.old }
    ensures held { length lines.new ≤ most_waiting }
{
    match take_line(lines) {
        LineTaken::None => feed(lines, console.input),
        LineTaken::Unread => say(console.output, short(&Said::NoMemory).as_slice()),
        LineTaken::Line(line) => {
            if is_quit(&line) {
                return TalkTurn::End(quit(console.output));
            }
            let reply = answer_line(rt, console.session, console.asked, console.feed, &line);
            say(console.output, reply.as_slice())
        }
    }
}

/// Whether a line ends the session.
fn is_quit(line: &Line) -> bool
    ensures { result ≡ is_quit line.now }
{
    matches!(line, Line::Quit)
}

/// Removes the next line from the bytes that are held.
fn take_line(lines: &mut Lines) -> LineTaken
    ensures takes { TakesLine lines.old lines.new result }
    ensures fewer { length lines.new ≤ length lines.old }
    ensures few { result ≡ LineTaken.None → length lines.new ≤ most_held }
{
    match lines.next() {
        Ok(Some(line)) => LineTaken::Line(line),
        Ok(None) => LineTaken::None,
        Err(NoMemory) => {
            lines.pass_over();
            LineTaken::Unread
        }
    }
}

/// Reads a piece of the input, and holds it.
fn feed<C: Source>(lines: &mut Lines, input: &mut C) -> TalkTurn
    requires { length lines.old ≤ most_held }
    ensures told { FeedsTalk (C.seen input.old) (C.seen input.new) lines.old lines.new result }
    ensures later { LaterSource (C.seen input.old) (C.seen input.new) }
    ensures held { length lines.new ≤ most_waiting }
{
    let mut room = [0; PIECE];
    match input.read(&mut room) {
        ReadStep::Got(count) => match lines.feed(&room[..count]) {
            Ok(()) => TalkTurn::On,
            Err(NoMemory) => TalkTurn::NoMemory,
        },
        ReadStep::End => TalkTurn::End(TalkEnd::InputEnded),
        ReadStep::Failed => TalkTurn::End(TalkEnd::NotRead),
    }
}

/// Writes a reply.
fn say<K: Sink>(output: &mut K, text: &[u8]) -> TalkTurn
    ensures { SaysText (K.seen output.old) (K.seen output.new) text.now result }
{
    match write_whole(output, text) {
        Written::Whole => TalkTurn::On,
        Written::Cut => TalkTurn::End(TalkEnd::NotWritten),
    }
}

/// Writes the last reply.
fn quit<K: Sink>(output: &mut K) -> TalkEnd
    ensures { SaysBye (K.seen output.old) (K.seen output.new) result }
{
    match write_whole(output, short(&Said::Bye).as_slice()) {
        Written::Whole => TalkEnd::Quit,
        Written::Cut => TalkEnd::NotWritten,
    }
}
