ghost use Rattle.std.specs.Prelude.{◌≡◌, ◌≤◌, length};

use catalogue::Catalogue;
use publication::Desk;
use zone_meaning::Zone;

/// The place of the catalogue that the desk holds: how many releases its history has.
pub fn place_of(desk: &Desk<Catalogue<Zone>>) -> u32
    ensures is { result ≡ length desk.now.seen }
    ensures some { 1 ≤ result }
{
    desk.value().count()
}
