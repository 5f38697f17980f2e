ghost use Rattle.std.specs.Prelude.{◌≡◌, ℕ, length, map, All, IfOk, false, ◌||◌};
ghost use Rattle.connection.specs.DoorWorks.{NoneOut};
ghost use Rattle.json_forms.specs.PlainTexts.{IsPlainRole};
ghost use Rattle.logbook.specs.Pages.{Book};
ghost use Rattle.td_top.specs.Works.{AreWorks, Learnt};
ghost use Rattle.run_ends.specs.Opening.{HasSeen};

use catalogue::Catalogue;
use connection::{DoorDone, DoorWork};
use desk_pool::StopFlag;
use publication::{Desk, Ended};
use std::alloc::Global;
use td_base::{Bytes, Door, NoMemory, Role};
use zone_meaning::Zone;

/// The works of a server, one for each door, each with a separate desk and a sign of the flag.
pub fn works_for<D: Door + Drop>(
    alloc: Global,
    role: &Role,
    doors: Vec<D>,
    desks: Vec<Desk<Catalogue<Zone>>>,
) -> Result<(Vec<DoorWork<D>>, StopFlag), NoMemory>
    requires role { IsPlainRole role.now }
    requires many { length doors.items ≡ length desks.items }
    requires new { All (λ d. NoneOut (D.seen d)) doors.items }
    ensures works { IfOk result (λ r. (pair : Book) (least : ℕ)
        → All (HasSeen pair least) desks.items
        → AreWorks role.now pair least (map D.seen doors.items) r.0.items) }
    ensures flag { IfOk result (λ r. r.1.raised ≡ false) }
    ensures signs { IfOk result (λ r. All (λ w. w.stop ≡ r.1) r.0.items) }
{
    let mut flag = StopFlag::new(alloc)?;
    let mut left = desks;
    let mut works = Vec::new(alloc);
    for door in doors {
        let desk = left.pop().unwrap();
        let sign = flag.share()?;
        let own = again(alloc, role)?;
        works.push(DoorWork::new(alloc, own, door, desk, sign))?;
    }
    Ok((works, flag))
}

/// A copy of a server's role.
fn again(alloc: Global, role: &Role) -> Result<Role, NoMemory>
    ensures { IfOk result (λ own. own ≡ role.now) }
{
    match role {
        Role::Primary => Ok(Role::Primary),
        Role::Secondary(address) => {
            Ok(Role::Secondary(Bytes::from_slice(alloc, address.as_slice())?))
        }
    }
}

/// Lets the desks of workers learn all that was published. Returns their doors, and whether one of
/// them is worn.
pub fn learn_all<D: Drop + Door>(
    alloc: Global,
    ended: &mut Ended<Catalogue<Zone>>,
    dones: Vec<DoorDone<D>>,
) -> Result<(Vec<D>, bool), NoMemory>
    requires { All (λ d. d.desk.pair ≡ ended.old.pair) dones.items }
    ensures learnt { IfOk result (λ r. Learnt ended.old.list dones.items r.0.items r.1) }
{
    let mut doors = Vec::new(alloc);
    let mut worn = false;
    for done in dones {
        let DoorDone {
            door,
            mut desk,
            sign: _,
            worn: one,
        } = done;
        desk.learn(ended.receipt()?);
        doors.push(door)?;
        worn |= one;
    }
    Ok((doors, worn))
}
