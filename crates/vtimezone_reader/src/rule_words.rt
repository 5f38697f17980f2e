//! Reads yearly rules (RFC 5545, section 3.3.10).
ghost use Rattle.std.specs.Prelude.{◌≡◌, ◌<◌, ◌≤◌, ◌∷◌, [], List, ℕ, ℤ, pos, length, IfSome, None};
ghost use Rattle.std.specs.Prelude.{Some, if◌then◌else◌};
ghost use Rattle.std.specs.Option.{option_copied, option_map};
ghost use Rattle.jiff_core.specs.Calendar.{IsWithin};
ghost use Rattle.recurrence.specs.Valid.{IsValidForm};
ghost use Rattle.vtimezone_reader.specs.RuleWords as words;
ghost use Rattle.vtimezone.specs.Cutting.{cut_at};
ghost use Rattle.vtimezone_reader.specs.Pieces.{before, after};

use crate::content_lines::is_word;
use crate::day_words::{day_read, once, once_if, weekday_in};
use crate::forms::recur_of;
use crate::pieces::cut;
use crate::time_texts::utc_in;
use recurrence::Form;
use td_civil::{HI, LO, Moment};

/// One day, or seven consecutive days.
#[derive(Clone, Copy)]
pub struct Days {
    pub first: i16,
    pub seven: bool,
}

/// A weekday: each one, or the nth.
#[derive(Clone, Copy)]
pub struct WeekDay {
    pub nth: Option<i8>,
    /// Sunday is 0.
    pub weekday: u8,
}

/// What the words of a rule say, as far as they have been read.
#[derive(Clone, Copy)]
pub struct Words {
    pub yearly: bool,
    pub interval: bool,
    pub week_start: bool,
    pub until: Option<Moment>,
    pub month: Option<u8>,
    pub month_days: Option<Days>,
    pub year_days: Option<Days>,
    pub weekday: Option<WeekDay>,
}

/// A day of each year, up to a last moment if one is given.
#[derive(Clone, Copy)]
pub struct Recur {
    pub form: Form,
    pub until: Option<Moment>,
}

/// The rule that a text encodes.
#[tactic(auto, unfolding(crate::specs::RuleWords::recur_in))]
pub(crate) fn recur_in(text: &[u8]) -> Option<Recur>
    ensures exact { result ≡ words.recur_in text.now }
    ensures valid { IfSome result (λ r. IsValidForm r.form) }
{
    recur_of(&words_in(text)?)
}

/// What the words of a text say together.
#[tactic(auto, unfolding(crate::specs::RuleWords::words_read))]
fn words_in(text: &[u8]) -> Option<Words>
    ensures { result ≡ words.words_read words.no_words (cut_at 59 text.now) }
{
    let mut read = Words {
        yearly: false,
        interval: false,
        week_start: false,
        until: None,
        month: None,
        month_days: None,
        year_days: None,
        weekday: None,
    };
    let mut left = Some(text);
    'words: while let Some(some) = left {
        let (word, rest) = cut(some, b';');
        read = one_word(read, word)?;
        left = rest;
    }
    Some(read)
}

/// Reads one more word: a name, `=` and a value.
fn one_word(read: Words, word: &[u8]) -> Option<Words>
    ensures { result ≡ words.word_if read (before 61 word.now) (after 61 word.now) }
{
    let (name, value) = cut(word, b'=');
    word_read(read, name, value?)
}

/// What a word says, together with what was read before.
#[tactic(auto, unfolding(crate::specs::RuleWords::word_read))]
fn word_read(read: Words, name: &[u8], value: &[u8]) -> Option<Words>
    ensures { result ≡ words.word_read read name.now value.now }
{
    if is_word(name, b"FREQ") {
        let yearly = once_if(read.yearly, is_word(value, b"YEARLY"))?;
        Some(Words { yearly, ..read })
    } else if is_word(name, b"INTERVAL") {
        let interval = once_if(read.interval, value == b"1".as_slice())?;
        Some(Words { interval, ..read })
    } else if is_word(name, b"WKST") {
        let week_start = once_if(read.week_start, weekday_in(value).is_some())?;
        Some(Words { week_start, ..read })
    } else if is_word(name, b"UNTIL") {
        let until = once(read.until, moment_meant(utc_in(value)))?;
        Some(Words {
            until: Some(until),
            ..read
        })
    } else {
        day_read(read, name, value)
    }
}

/// The moment, if it is a supported one; else None.
fn moment_meant(moment: Option<Moment>) -> Option<Moment>
    ensures { result ≡ words.moment_meant moment }
{
    let moment = moment?;
    if LO <= moment.seconds && moment.seconds < HI {
        Some(moment)
    } else {
        None
    }
}
