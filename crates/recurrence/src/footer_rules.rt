//! What a footer says of each year.
ghost use Rattle.std.specs.Prelude.{◌≡◌, ◌≤◌, Some, pos, IfOk};
ghost use Rattle.std.specs.Result.{is_err};
ghost use Rattle.posix_footer.specs.Carried as carried;
ghost use Rattle.posix_footer.specs.Lawful.{IsLawful, IsLawfulDate, IsLawfulRule};
ghost use Rattle.recurrence.specs.Occurs.{Says};
ghost use Rattle.recurrence.specs.RuleOfDate as rules;

use crate::all_year::is_all_year;
use crate::date_rules::rule_of;
use crate::steady_dates::{is_steady, moved_first, moved_last};
use crate::{Carried, RuleBeyond};
use posix_footer::{Date, DstRule, Footer};
use td_civil::Local;

/// What a footer says of each year, if yearly rules can say it. It allocates nothing.
#[tactic(auto, using(crate::proofs::Said::carry_said, crate::proofs::Said::carry_beyond))]
pub fn carry(footer: &Footer) -> Result<Carried, RuleBeyond>
    requires { IsLawful footer.now }
    ensures value { result ≡ rules.carry_of footer.now }
    ensures beyond { is_err result ≡ carried.beyond footer.now }
    ensures says { IfOk result (Says footer.now) }
{
    match &footer.dst {
        None => Ok(Carried::Constant(footer.std.copy())),
        Some(rule) => carry_rule(&footer.std, rule),
    }
}

fn carry_rule(std: &Local, rule: &DstRule) -> Result<Carried, RuleBeyond>
    requires { IsLawfulRule std.now.offset rule.now }
    ensures { result ≡ rules.carry_if_any std.now (Some rule.now) }
{
    if is_all_year(std.offset, rule) {
        Ok(Carried::Constant(rule.dst.copy()))
    } else if is_carried_rule(rule) {
        Ok(Carried::Pair {
            std: std.copy(),
            dst: rule.dst.copy(),
            start: rule_of(rule.start),
            end: rule_of(rule.end),
        })
    } else {
        Err(RuleBeyond)
    }
}

/// Whether rules can say when daylight saving time begins and ends.
#[tactic(auto, unfolding(posix_footer::specs::Carried::is_carried_rule))]
fn is_carried_rule(rule: &DstRule) -> bool
    requires start { IsLawfulDate rule.now.start }
    requires end { IsLawfulDate rule.now.end }
    ensures { result ≡ carried.is_carried_rule rule.now }
{
    is_steady(rule.start) && is_steady(rule.end) && are_apart(rule.start, rule.end)
}

#[tactic(auto, unfolding(posix_footer::specs::Carried::are_apart))]
fn are_apart(a: Date, b: Date) -> bool
    requires a { IsLawfulDate a }
    requires b { IsLawfulDate b }
    ensures { result ≡ carried.are_apart a b }
{
    comes_before(a, b) || comes_before(b, a)
}

#[tactic(auto, unfolding(posix_footer::specs::Carried::date_comes_before))]
fn comes_before(a: Date, b: Date) -> bool
    requires a { IsLawfulDate a }
    requires b { IsLawfulDate b }
    ensures { result ≡ carried.date_comes_before a b }
{
    is_before(a, b, 2001) && is_before(a, b, 2004)
}

/// Whether the days of the second date come at least three days after those of the first.
fn is_before(a: Date, b: Date, year: u16) -> bool
    requires a { IsLawfulDate a }
    requires b { IsLawfulDate b }
    requires year { (1800 ≤ year) × (year ≤ 9999) }
    ensures { result ≡ carried.is_sooner_date a b (pos year) }
{
    moved_last(a, year) + 3 <= moved_first(b, year)
}
