//! Laws of zone files, TZ strings and leap seconds.
use case_lines::Answer;
use std::alloc::Global;

/// `laws`: shows that each law can be called.
pub fn laws(alloc: Global) -> Answer {
    tzif_reader::one_zone_file();
    tzif_reader::leap_lines_fit();
    tzif_reader::slim_file_reads_back();
    posix_footer::day_is_named();
    posix_footer::day_of_week_form();
    posix_footer::far_years_are_quiet();
    posix_footer::footer_is_lawful();
    posix_footer::onsets_rise();
    posix_footer::state_stays();
    leap_table::steps_are_dated();
    leap_table::dates_are_plain();
    case_lines::bytes(alloc, b"called")
}
