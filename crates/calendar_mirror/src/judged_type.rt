use mirror::Understood;
use vtimezone_reader::CalendarFault;

/// What an answer is to its request, when a zone is requested as a calendar.
#[derive(Drop)]
pub enum Judged {
    /// What it is to any mirror. The data of a zone are the requested calendar.
    Sound(Understood),
    /// The data of a zone, which are not a calendar.
    BadCalendar(CalendarFault),
    /// The calendar of another zone.
    WrongName,
}
