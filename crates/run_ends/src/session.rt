ghost use Rattle.std.specs.Prelude.{◌≡◌, ◌≤◌, length};

use catalogue::Catalogue;
use installer::Installer;
use publication::Desk;
use std::alloc::Global;
use zone_meaning::Zone;

/// What a console publishes with, and a desk of the same pair for showing what is served. The desk
/// has seen all that was published. Later publishes allocate from `alloc`.
pub struct Session {
    pub alloc: Global,
    pub installer: Installer,
    pub desk: Desk<Catalogue<Zone>>,
    pub ghost paired: { desk.pair ≡ installer.pair },
    pub ghost knows: { length installer.list ≤ length desk.seen },
}
