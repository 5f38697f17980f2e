//! A whole TZ string, read from the left (POSIX, section 8.3; RFC 9636, section 3.3.2).
ghost use Rattle.std.specs.Prelude.{◌≡◌, true, false, IfOk};
ghost use Rattle.posix_footer.specs.Grammar.{footer_in, footer_at, rule_in, rule_read_at};
ghost use Rattle.posix_footer.specs.Grammar.{dates_after};
ghost use Rattle.posix_footer.specs.Grammar.{daylight_at, standard_at, date_at, time_after};
ghost use Rattle.posix_footer.specs.Lawful.{IsLawful, IsLawfulDate, IsLawfulOffset};
ghost use Rattle.posix_footer.specs.Spelling.{SpellsFooter};
ghost use Rattle.posix_footer.specs.declared.rule_types.Footer.{Footer};
ghost use Rattle.posix_footer.specs.Takes.{TakesOrFails, SkipsOrFails};
ghost use Rattle.jiff_core.specs.Calendar.{IsWithin};

use crate::footer_fault::FooterFault;
use crate::parser::Parser;
use crate::rule_types::{Date, DstRule, Footer};
use td_civil::Local;

/// Reads a whole TZ string, or returns the text's first fault from the left. It does not allocate.
pub fn read(text: &[u8]) -> Result<Footer, FooterFault>
    // The footer, or the fault and its place.
    ensures exact { result ≡ footer_in text.now }
    // The text is a spelling of the result.
    ensures found { IfOk result (SpellsFooter text.now) }
    // Any text of a footer is read as that footer, and as no other.
    ensures only { (footer : Footer) → SpellsFooter text.now footer → result ≡ Ok footer }
    ensures lawful { IfOk result IsLawful }
{
    Parser::new(text).footer()
}

impl<'a> Parser<'a> {
    #[tactic(auto, unfolding(crate::specs::Grammar::footer_at))]
    fn footer(&mut self) -> Result<Footer, FooterFault>
        ensures exact { result ≡ footer_at self.old.size self.old.left.now }
        ensures lawful { IfOk result IsLawful }
    {
        let std = self.standard()?;
        if self.is_at_end() {
            Ok(Footer { std, dst: None })
        } else {
            self.with_rule(std)
        }
    }

    /// The rule after the standard state, and both together.
    #[tactic(auto, unfolding(crate::specs::Grammar::rule_in))]
    fn with_rule(&mut self, std: Local) -> Result<Footer, FooterFault>
        requires standard { std.dst ≡ false }
        requires offset { IsLawfulOffset std.offset }
        ensures exact { result ≡ rule_in self.old.size std self.old.left.now }
        ensures lawful { IfOk result IsLawful }
    {
        let dst = self.daylight(std.offset)?;
        self.begin_dates()?;
        let rule = self.rule(dst)?;
        Ok(Footer {
            std,
            dst: Some(rule),
        })
    }

    #[tactic(auto, unfolding(crate::specs::Grammar::standard_at))]
    fn standard(&mut self) -> Result<Local, FooterFault>
        ensures size { self.new.size ≡ self.old.size }
        ensures standard { IfOk result (λ std. std.dst ≡ false) }
        ensures offset { IfOk result (λ std. IsLawfulOffset std.offset) }
        ensures exact { TakesOrFails result self.new.left.now
            (standard_at self.old.size self.old.left.now) }
    {
        let missing = FooterFault::Name(self.place());
        let name = self.name().ok_or(missing)?;
        let missing = FooterFault::Offset(self.place());
        let offset = self.offset().ok_or(missing)?;
        Ok(Local {
            offset,
            dst: false,
            name,
        })
    }

    #[tactic(auto, unfolding(crate::specs::Grammar::daylight_at))]
    fn daylight(&mut self, std: i32) -> Result<Local, FooterFault>
        requires { IsLawfulOffset std }
        ensures size { self.new.size ≡ self.old.size }
        ensures daylight { IfOk result (λ dst. dst.dst ≡ true) }
        ensures offset { IfOk result (λ dst. IsLawfulOffset dst.offset) }
        ensures exact { TakesOrFails result self.new.left.now
            (daylight_at self.old.size std self.old.left.now) }
    {
        let missing = FooterFault::Name(self.place());
        let name = self.name().ok_or(missing)?;
        let missing = FooterFault::Offset(self.place());
        let offset = self.daylight_offset(std).ok_or(missing)?;
        Ok(Local {
            offset,
            dst: true,
            name,
        })
    }

    /// The `,` before the dates.
    #[tactic(auto, unfolding(crate::specs::Grammar::dates_after))]
    fn begin_dates(&mut self) -> Result<(), FooterFault>
        ensures size { self.new.size ≡ self.old.size }
        ensures exact { SkipsOrFails result self.new.left.now
            (dates_after self.old.size self.old.left.now) }
    {
        if self.is_at_end() {
            return Err(FooterFault::NoRule);
        }
        let rest = FooterFault::Rest(self.place());
        self.skip(b',').ok_or(rest)
    }

    /// Both dates; the text must end after them.
    #[tactic(auto, unfolding(crate::specs::Grammar::rule_read_at))]
    fn rule(&mut self, dst: Local) -> Result<DstRule, FooterFault>
        ensures daylight { IfOk result (λ rule. rule.dst ≡ dst) }
        ensures start { IfOk result (λ rule. IsLawfulDate rule.start) }
        ensures end { IfOk result (λ rule. IsLawfulDate rule.end) }
        ensures exact { result ≡ rule_read_at self.old.size dst self.old.left.now }
    {
        let start = self.date()?;
        let missing = FooterFault::Date(self.place());
        self.skip(b',').ok_or(missing)?;
        let end = self.date()?;
        if self.is_at_end() {
            Ok(DstRule { dst, start, end })
        } else {
            Err(FooterFault::Rest(self.place()))
        }
    }

    #[tactic(auto, unfolding(crate::specs::Grammar::date_at))]
    fn date(&mut self) -> Result<Date, FooterFault>
        ensures size { self.new.size ≡ self.old.size }
        ensures lawful { IfOk result IsLawfulDate }
        ensures exact { TakesOrFails result self.new.left.now
            (date_at self.old.size self.old.left.now) }
    {
        let missing = FooterFault::Date(self.place());
        let day = self.day().ok_or(missing)?;
        let time = self.time_of_day()?;
        Ok(Date { day, time })
    }

    /// The time after `/`, in seconds from midnight, or 02:00 if there is no `/`.
    #[tactic(auto, unfolding(crate::specs::Grammar::time_after))]
    fn time_of_day(&mut self) -> Result<i32, FooterFault>
        ensures size { self.new.size ≡ self.old.size }
        ensures range { IfOk result (λ time. IsWithin 604799 time) }
        ensures exact { TakesOrFails result self.new.left.now
            (time_after self.old.size self.old.left.now) }
    {
        if !self.eat(b'/') {
            return Ok(7200);
        }
        let missing = FooterFault::Time(self.place());
        self.time().ok_or(missing)
    }
}
