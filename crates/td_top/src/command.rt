ghost use Rattle.std.specs.Prelude.{◌≡◌, ◌<◌, ◌<ℤ◌, ◌≤ℤ◌, [], ◌∷◌, length, IfSome, IsTrue};
ghost use Rattle.std.specs.List.{list_all};
ghost use Rattle.std.specs.Option.{option_map};
ghost use Rattle.td_base.specs.Names.{is_path_word};
ghost use Rattle.td_top.specs.Command.{IsMeantCommand, are_folders, at_of};
ghost use Rattle.run_ends.specs.Commands.{answer, check};
ghost use Rattle.td_top.specs.Command.{calmirror_of, command_of, end_after, if_after};
ghost use Rattle.td_top.specs.Command.{is_address, is_address_byte, load_of};
ghost use Rattle.td_top.specs.Command.{mirror_of, over_folders};
ghost use Rattle.td_top.specs.Command.{plain_command, serve_of};

pub(crate) mod rules;

use crate::command::rules::{RuleChoice, read_rules};
use crate::mirroring::MirrorWords;
use console::{meant_moment, read_number};
use plain_commands::CalendarPlan;
use td_base::{Bytes, is_path_word};
use td_civil::{HI, Moment, moment_of};

/// The most folders of a command.
pub(crate) const MOST_FOLDERS: usize = 64;

/// The longest network address, in bytes.
pub(crate) const ADDRESS_LIMIT: usize = 255;

/// The most workers.
pub(crate) const MOST_WORKERS: u64 = 64;

/// The most releases of a load.
pub(crate) const MOST_RELEASES: u64 = 1_000;

/// The command that the arguments request.
#[derive(Drop)]
pub enum Command<'a> {
    /// Install the folders, and serve the input and output as one connection.
    Answer(&'a [Bytes]),
    /// Check the folders as one history.
    Check(&'a [Bytes]),
    /// Print the state of a zone file at a moment.
    At { file: &'a [u8], moment: Moment },
    Serve(ServeWords<'a>),
    Mirror(MirrorWords<'a>),
    /// Make this many releases, serve requests after each, and print the counts.
    Load(u32),
    /// Fetch the calendars of the server at an address, and print their observances in a range.
    MirrorCalendars(CalendarPlan<'a>),
}

/// Serve an address with a number of workers, over the releases of folders. The rules apply to each
/// release but the first.
#[derive(Drop)]
pub struct ServeWords<'a> {
    pub address: &'a [u8],
    pub workers: u32,
    pub rules: RuleChoice,
    pub folders: &'a [Bytes],
}

/// Parses command-line arguments. `None` if they are not in the grammar.
pub fn read_words(words: &[Bytes]) -> Option<Command<'_>>
    ensures spelled { option_map plain_command result ≡ command_of words.now }
    ensures meant { IfSome result IsMeantCommand }
{
    match words {
        [] => None,
        [name, words @ ..] => read_named(name.as_slice(), words),
    }
}

/// Parses the arguments of the command of this name.
fn read_named<'a>(name: &[u8], words: &'a [Bytes]) -> Option<Command<'a>>
    ensures spelled { option_map plain_command result ≡ command_of (name.now ∷ words.now) }
    ensures meant { IfSome result IsMeantCommand }
{
    if name == b"answer".as_slice() {
        read_answer(words)
    } else if name == b"check".as_slice() {
        read_check(words)
    } else if name == b"at".as_slice() {
        read_at(words)
    } else if name == b"serve".as_slice() {
        read_serve(words)
    } else if name == b"mirror".as_slice() {
        read_mirror(words)
    } else if name == b"load".as_slice() {
        read_load(words)
    } else if name == b"calmirror".as_slice() {
        read_calmirror(words)
    } else {
        None
    }
}

/// `answer DIR..`
fn read_answer(words: &[Bytes]) -> Option<Command<'_>>
    ensures spelled { option_map plain_command result ≡ over_folders answer words.now }
    ensures meant { IfSome result IsMeantCommand }
{
    if are_folders(words) {
        Some(Command::Answer(words))
    } else {
        None
    }
}

/// `check DIR..`
fn read_check(words: &[Bytes]) -> Option<Command<'_>>
    ensures spelled { option_map plain_command result ≡ over_folders check words.now }
    ensures meant { IfSome result IsMeantCommand }
{
    if are_folders(words) {
        Some(Command::Check(words))
    } else {
        None
    }
}

/// Whether the arguments are allowed as the folders of a command.
#[tactic(auto, unfolding(crate::specs::Command::are_folders))]
fn are_folders(words: &[Bytes]) -> bool
    ensures test { result ≡ are_folders words.now }
    ensures some { IsTrue result → 0 < length words.now }
{
    1 <= words.len() && words.len() <= MOST_FOLDERS && are_path_words(words)
}

/// Whether each of the arguments is allowed as a folder.
fn are_path_words(words: &[Bytes]) -> bool
    ensures { result ≡ list_all is_path_word words.now }
{
    words.iter().all(|word| is_path_word(word.as_slice()))
}

/// `at FILE MOMENT`
fn read_at(words: &[Bytes]) -> Option<Command<'_>>
    ensures spelled { option_map plain_command result ≡ at_of words.now }
    ensures meant { IfSome result IsMeantCommand }
{
    match words {
        [file, moment] => at_moment(file.as_slice(), moment.as_slice()),
        _ => None,
    }
}

/// The command over a file at a moment, if the argument is allowed as a file and the moment is
/// within bounds.
fn at_moment<'a>(file: &'a [u8], moment: &[u8]) -> Option<Command<'a>>
    ensures spelled { option_map plain_command result ≡ at_of (file.now ∷ moment.now ∷ []) }
    ensures meant { IfSome result IsMeantCommand }
{
    if !is_path_word(file) {
        return None;
    }
    let moment = meant_moment(moment)?;
    Some(Command::At { file, moment })
}

/// `serve ADDRESS WORKERS RULES DIR..`
fn read_serve(words: &[Bytes]) -> Option<Command<'_>>
    ensures spelled { option_map plain_command result ≡ serve_of words.now }
    ensures meant { IfSome result IsMeantCommand }
{
    match words {
        [address, workers, words @ ..] => {
            serve_at(address.as_slice(), workers.as_slice(), words)
        }
        _ => None,
    }
}

/// The command that serves an address, if the arguments are an address, a number of workers, rules
/// and folders.
fn serve_at<'a>(address: &'a [u8], workers: &[u8], words: &'a [Bytes]) -> Option<Command<'a>>
    ensures spelled { option_map plain_command result
        ≡ serve_of (address.now ∷ workers.now ∷ words.now) }
    ensures meant { IfSome result IsMeantCommand }
{
    if !is_address(address) {
        return None;
    }
    let workers = read_number(workers, 1, MOST_WORKERS)?;
    let (rules, folders) = read_rules(words)?;
    if !are_folders(folders) {
        return None;
    }
    Some(Command::Serve(ServeWords {
        address,
        workers,
        rules,
        folders,
    }))
}

/// `mirror ADDRESS WORKERS UPSTREAM`
fn read_mirror(words: &[Bytes]) -> Option<Command<'_>>
    ensures spelled { option_map plain_command result ≡ mirror_of words.now }
    ensures meant { IfSome result IsMeantCommand }
{
    match words {
        [address, workers, upstream] => {
            mirror_at(address.as_slice(), workers.as_slice(), upstream.as_slice())
        }
        _ => None,
    }
}

/// The command that serves an address of a mirror, if the arguments are two addresses and a number
/// of workers.
fn mirror_at<'a>(address: &'a [u8], workers: &[u8], upstream: &'a [u8]) -> Option<Command<'a>>
    ensures spelled { option_map plain_command result
        ≡ mirror_of (address.now ∷ workers.now ∷ upstream.now ∷ []) }
    ensures meant { IfSome result IsMeantCommand }
{
    if !is_address(address) || !is_address(upstream) {
        return None;
    }
    let workers = read_number(workers, 1, MOST_WORKERS)?;
    Some(Command::Mirror(MirrorWords {
        address,
        workers,
        upstream,
    }))
}

/// Whether an argument is allowed as a network address: 1 to 255 letters, digits and `.:-[]` that
/// do not begin with a dash.
fn is_address(word: &[u8]) -> bool
    ensures { result ≡ is_address word.now }
{
    match word {
        [] => false,
        [first, ..] => *first != b'-' && word.len() <= ADDRESS_LIMIT && are_address_bytes(word),
    }
}

/// Whether a network address may contain each byte.
fn are_address_bytes(word: &[u8]) -> bool
    ensures { result ≡ list_all is_address_byte word.now }
{
    word.iter().all(|byte| is_address_byte(*byte))
}

/// Whether a network address may contain a byte.
fn is_address_byte(byte: u8) -> bool
    ensures { result ≡ is_address_byte byte }
{
    byte.is_ascii_alphanumeric() || matches!(byte, b'.' | b':' | b'-' | b'[' | b']')
}

/// `load NUMBER`
fn read_load(words: &[Bytes]) -> Option<Command<'_>>
    ensures spelled { option_map plain_command result ≡ load_of words.now }
    ensures meant { IfSome result IsMeantCommand }
{
    match words {
        [number] => {
            let number = read_number(number.as_slice(), 1, MOST_RELEASES)?;
            Some(Command::Load(number))
        }
        _ => None,
    }
}

/// `calmirror UPSTREAM START END`
fn read_calmirror(words: &[Bytes]) -> Option<Command<'_>>
    ensures spelled { option_map plain_command result ≡ calmirror_of words.now }
    ensures meant { IfSome result IsMeantCommand }
{
    match words {
        [upstream, start, end] => {
            calendars_in(upstream.as_slice(), start.as_slice(), end.as_slice())
        }
        _ => None,
    }
}

/// The command over the calendars of a server, if the arguments are its address and a range.
fn calendars_in<'a>(upstream: &'a [u8], start: &[u8], end: &[u8]) -> Option<Command<'a>>
    ensures spelled { option_map plain_command result
        ≡ calmirror_of (upstream.now ∷ start.now ∷ end.now ∷ []) }
    ensures meant { IfSome result IsMeantCommand }
{
    if !is_address(upstream) {
        return None;
    }
    let start = meant_moment(start)?;
    let end = end_after(start, end)?;
    Some(Command::MirrorCalendars(CalendarPlan {
        upstream,
        start,
        end,
    }))
}

/// The moment that an argument encodes, if it comes after the start of a range. It may be the
/// exclusive end of the supported moments.
fn end_after(start: Moment, word: &[u8]) -> Option<Moment>
    ensures value { option_map (λ m. m.seconds) result ≡ end_after start.seconds word.now }
    ensures later { IfSome result (λ m. start.seconds <ℤ m.seconds) }
    ensures within { IfSome result (λ m. m.seconds ≤ℤ HI) }
{
    match moment_of(word) {
        Ok(moment) => if_after(start, moment),
        Err(_) => None,
    }
}

/// The moment, if it comes after the start and within the bounds.
fn if_after(start: Moment, moment: Moment) -> Option<Moment>
    ensures value { option_map (λ m. m.seconds) result ≡ if_after start.seconds moment.seconds }
    ensures later { IfSome result (λ m. start.seconds <ℤ m.seconds) }
    ensures within { IfSome result (λ m. m.seconds ≤ℤ HI) }
{
    if start.seconds < moment.seconds && moment.seconds <= HI {
        Some(moment)
    } else {
        None
    }
}
