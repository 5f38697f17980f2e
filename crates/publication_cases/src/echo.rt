//! An answer source that counts how often it computes.
ghost use Rattle.answer_cache.specs.Keeping.{AreRight};
ghost use Rattle.publication_cases.specs.Echoes.{echoed};

use answer_cache::{AnswerCache, Compute, Key};
use http_answer::Answer;
use std::alloc::Global;
use td_base::NoMemory;

/// Answers each key with its target, and counts its calls.
#[derive(Drop)]
pub struct Echo {
    pub alloc: Global,
    pub calls: u64,
}

impl Compute for Echo {
    ghost use Rattle.std.specs.Prelude.{⊤};

    ghost answer = { λ _ key. echoed key };

    ghost can = { λ _ _. ⊤ };

    ghost calls = { λ e. e.calls };

    fn compute(&mut self, key: &Key) -> Result<Answer, NoMemory> {
        self.calls = self.calls.saturating_add(1);
        Ok(Answer {
            status: 200,
            kind: None,
            tag: None,
            moved: false,
            body: key.target.clone_in(self.alloc)?,
        })
    }
}

/// A cache of its answers.
#[derive(Drop)]
pub struct EchoCache {
    pub cache: AnswerCache,
    pub echo: Echo,
    ghost right: { AreRight echoed cache },
}
