ghost use Rattle.std.specs.Prelude.{◌≡◌, ◌-◌, ◌≤◌, true, false};
ghost use Rattle.td_base.specs.Views.{Rose};
ghost use Rattle.td_base.specs.Memory.{counted, is_chosen, is_refused_begin};
ghost use Rattle.td_base.specs.Views.{one_more};
ghost use Rattle.td_base.specs.Works.{CountsBegin};

use crate::{Begin, Faulty, Spawner};

impl<S: Spawner> Spawner for Faulty<S> {
    ghost faults = { λ s. s.calls.faults };

    ghost active = { λ s. S.active s.inner };

    fn begin(&mut self) -> Begin
        ensures later { self.old.calls.faults ≤ self.new.calls.faults }
        ensures refused { result ≡ Begin.Refused
            → Rose self.old.calls.faults self.new.calls.faults }
        ensures calls { self.new.calls ≡ counted self.old.calls (is_refused_begin result) }
        ensures chosen { is_chosen self.old.calls ≡ true
            → (result ≡ Begin.Refused) × (self.new.inner ≡ self.old.inner) }
        ensures other { is_chosen self.old.calls ≡ false → result ≡ Begin.Refused
            → Rose (S.faults self.old.inner) (S.faults self.new.inner) }
        ensures counts { CountsBegin result self.old.calls.faults self.new.calls.faults
            (S.active self.old.inner) (S.active self.new.inner) }
    {
        if self.calls.begin() {
            self.calls.count_fault();
            return Begin::Refused;
        }
        let begin = self.inner.begin();
        if begin == Begin::Refused {
            self.calls.count_fault();
        }
        begin
    }

    fn refuse(&mut self)
        ensures later { self.old.calls.faults ≤ self.new.calls.faults }
        ensures rose { Rose self.old.calls.faults self.new.calls.faults }
        ensures once { self.new.calls.faults ≡ one_more self.old.calls.faults }
        ensures ends { S.active self.new.inner ≡ S.active self.old.inner - 1 }
    {
        self.inner.refuse();
        self.calls.count_fault();
    }

    fn count_join(&mut self)
        ensures steady { self.new.calls ≡ self.old.calls }
        ensures ends { S.active self.new.inner ≡ S.active self.old.inner - 1 }
    {
        self.inner.count_join();
    }
}
