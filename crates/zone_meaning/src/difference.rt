//! The first moment at which two zones differ.
ghost use Rattle.std.specs.Prelude.{◌≡◌, ◌↔◌, IsTrue, int_le, if◌then◌else◌};
ghost use Rattle.zone_meaning.specs.Difference.{onset_if_any, zone_difference, AreAlike};
ghost use Rattle.zone_meaning.specs.Difference.{IsFirstDifference};
ghost use Rattle.zone_meaning.specs.Observed.{IsRange};
ghost use Rattle.zone_meaning.specs.State.{zone_state};

use crate::alike::alike_until;
use crate::deciding::decided_by;
use crate::observing::Changes;
use crate::{Zone, file};
use td_civil::{HI, LO, Moment, Observance};

/// The first moment at which the states of two zones differ, from 1800 to before 9999, if one
/// exists. It allocates nothing.
///
/// The changes of both zones are merged, starting where the common transitions of the files end.
/// The walk ends at the last transition of both, or 400 years later if the footers have different
/// texts.
pub fn first_difference(one: &Zone, two: &Zone) -> Option<Moment>
    ensures first { result ≡ zone_difference one.now two.now }
    ensures least { IsFirstDifference (zone_state one.now) (zone_state two.now) LO HI result }
{
    if is_one_file(one, two) {
        return None;
    }
    difference_before(one, two, decided_by(one, two))
}

/// Whether two zones have the same file.
fn is_one_file(one: &Zone, two: &Zone) -> bool
    ensures { IsTrue result ↔ (one.now ≡ two.now) }
{
    file(one) == file(two)
}

/// The first moment before an end at which two zones differ, if one exists.
fn difference_before(one: &Zone, two: &Zone, end: Moment) -> Option<Moment>
    requires { IsRange LO end.seconds }
    ensures { IsFirstDifference (zone_state one.now) (zone_state two.now) LO end.seconds result }
{
    difference_between(one, two, start_before(one, two, end), end)
}

/// A moment before an end up to which two zones agree.
fn start_before(one: &Zone, two: &Zone, end: Moment) -> Moment
    requires { IsRange LO end.seconds }
    ensures range { IsRange result.seconds end.seconds }
    ensures alike { AreAlike (zone_state one.now) (zone_state two.now) LO result.seconds }
{
    let alike = alike_until(one, two);
    if LO < alike.seconds && alike.seconds < end.seconds {
        alike
    } else {
        Moment { seconds: LO }
    }
}

/// The first moment of a range at which two zones differ, if one exists. It is the onset of the
/// first observance that only one of them has.
fn difference_between(one: &Zone, two: &Zone, from: Moment, end: Moment) -> Option<Moment>
    requires { IsRange from.seconds end.seconds }
    ensures { IsFirstDifference (zone_state one.now) (zone_state two.now) from.seconds
        end.seconds result }
{
    let mut of_one = Changes::new(one, from, end);
    let mut of_two = Changes::new(two, from, end);
    while let Some(change) = of_one.next() {
        match of_two.next() {
            None => return Some(change.onset),
            Some(other) => {
                if !is_same(&change, &other) {
                    return Some(earlier(change.onset, other.onset));
                }
            }
        }
    }
    onset_of(of_two.next())
}

/// When an observance begins, if one is given.
fn onset_of(change: Option<Observance>) -> Option<Moment>
    ensures { result ≡ onset_if_any change }
{
    match change {
        None => None,
        Some(change) => Some(change.onset),
    }
}

/// Whether two observances are equal.
fn is_same(one: &Observance, two: &Observance) -> bool
    ensures { IsTrue result ↔ (one.now ≡ two.now) }
{
    one == two
}

/// The earlier of two moments.
fn earlier(one: Moment, two: Moment) -> Moment
    ensures { result ≡ (if int_le one.seconds two.seconds then one else two) }
{
    if one.seconds <= two.seconds { one } else { two }
}
