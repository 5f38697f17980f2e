ghost use Rattle.std.specs.Prelude.{◌≡◌, ◌↔◌, IfOk};
ghost use Rattle.answer_cache.specs.Computing.{RoseByOne};
ghost use Rattle.answer_cache.specs.declared.key.Key.{Key as AnyKey};
ghost use Rattle.catalogue.specs.Holdings.{history_of};
ghost use Rattle.connection.specs.Keeping.{IsAnswerToKey, IsKeyNow, answer_to, head_of_key};
ghost use Rattle.http_answer.specs.Replies.{IsAnswerStatus};

use actions::answer;
use answer_cache::{Compute, Key};
use catalogue::Catalogue;
use http_answer::Answer;
use http_request::Head;
use publication::Desk;
use std::alloc::Global;
use td_base::{NoMemory, Role};
use zone_meaning::Zone;

/// Computes answers over the catalogue that a desk holds, and counts them.
#[derive(Drop)]
pub struct Asking<'a> {
    pub alloc: Global,
    pub role: &'a Role,
    pub desk: &'a Desk<Catalogue<Zone>>,
    pub calls: u64,
}

impl Compute for Asking<'_> {
    ghost answer = { λ a key. answer_to (history_of a.desk.now.seen) a.role.now key };

    ghost can = { λ a key. IsKeyNow a.desk.now a.role.now key };

    ghost calls = { λ a. a.calls };

    fn compute(&mut self, key: &Key) -> Result<Answer, NoMemory>
        requires { IsKeyNow self.old.desk.now self.old.role.now key.now }
        ensures is { IfOk result (IsAnswerToKey self.old.desk.now self.old.role.now key.now) }
        ensures answer { IfOk result (λ answer. answer
            ≡ answer_to (history_of self.old.desk.now.seen) self.old.role.now key.now) }
        ensures status { IfOk result (λ answer. IsAnswerStatus answer.status) }
        ensures counted { RoseByOne self.old.calls self.new.calls }
        ensures same_keys { (other : AnyKey) → IsKeyNow self.old.desk.now self.old.role.now other
            ↔ IsKeyNow self.new.desk.now self.new.role.now other }
        ensures same { (self.new.desk ≡ self.old.desk) × (self.new.role ≡ self.old.role) }
    {
        self.calls = self.calls.saturating_add(1);
        answer_over(self.alloc, self.role, self.desk, key)
    }
}

/// The answer to a key, over the catalogue that a desk holds.
fn answer_over(
    alloc: Global,
    role: &Role,
    desk: &Desk<Catalogue<Zone>>,
    key: &Key,
) -> Result<Answer, NoMemory>
    requires { IsKeyNow desk.now role.now key.now }
    ensures { IfOk result (IsAnswerToKey desk.now role.now key.now) }
{
    let head = head_of(alloc, key)?;
    answer(alloc, desk.value(), role, &head)
}

/// A request that requests what the key names.
fn head_of(alloc: Global, key: &Key) -> Result<Head, NoMemory>
    ensures { IfOk result (λ head. head ≡ head_of_key key.now) }
{
    let key = key.clone_in(alloc)?;
    Ok(Head {
        head_only: false,
        target: key.target,
        accept: key.accept,
        none_match: key.none_match,
        close: false,
    })
}

/// Computes the answer to a key over the catalogue that the desk holds, and counts it.
pub fn compute_answer(
    alloc: Global,
    role: &Role,
    desk: &Desk<Catalogue<Zone>>,
    computed: &mut u64,
    key: &Key,
) -> Result<Answer, NoMemory>
    requires { IsKeyNow desk.now role.now key.now }
    ensures is { IfOk result (IsAnswerToKey desk.now role.now key.now) }
    ensures counted { RoseByOne computed.old computed.new }
{
    let mut asking = Asking {
        alloc,
        role,
        desk,
        calls: *computed,
    };
    let answer = asking.compute(key);
    *computed = asking.calls;
    answer
}
