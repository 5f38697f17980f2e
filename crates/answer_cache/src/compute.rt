ghost use Rattle.std.specs.Prelude.{◌≡◌, ◌↔◌, ℕ, IfOk};
ghost use Rattle.http_answer.specs.declared.answer.Answer.{Answer as TheAnswer};
ghost use Rattle.answer_cache.specs.declared.key.Key.{Key as TheKey};
ghost use Rattle.http_answer.specs.Replies.{IsAnswerStatus};
ghost use Rattle.answer_cache.specs.Computing.{RoseByOne};

use crate::Key;
use http_answer::Answer;
use td_base::NoMemory;

/// Computes answers, and counts how often it did.
pub trait Compute {
    /// The answer to a key, given what the value holds. It does not depend on the count.
    ghost answer: { Self → TheKey → TheAnswer };

    /// The keys that it can answer.
    ghost can: { Self → TheKey → Type 0 };

    /// How often `compute` was called, up to 18446744073709551615.
    ghost calls: { Self → ℕ };

    /// Computes the answer to the key.
    fn compute(&mut self, key: &Key) -> Result<Answer, NoMemory>
        requires { can self.old key.now }
        ensures answer { IfOk result (λ a. a ≡ answer self.old key.now) }
        ensures status { IfOk result (λ a. IsAnswerStatus a.status) }
        ensures counted { RoseByOne (calls self.old) (calls self.new) }
        ensures same_answers { answer self.new ≡ answer self.old }
        ensures same_keys { (other : TheKey) → can self.old other ↔ can self.new other };
}
