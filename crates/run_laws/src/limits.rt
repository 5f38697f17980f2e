//! The limits of serving, each with its number.
ghost use Rattle.std.specs.Prelude.{◌≡◌};
ghost use Rattle.connection.specs.declared.door_work.TheConstants as worker;
ghost use Rattle.connection.specs.declared.hearing.TheConstants as reading;
ghost use Rattle.connection.specs.declared.kept_answers.TheConstants as kept;
ghost use Rattle.answer_cache.specs.declared.cache.TheConstants as cache;
ghost use Rattle.stretches.specs.declared.failing.TheConstants as failing;
ghost use Rattle.stretches.specs.declared.life.TheConstants as life;
ghost use Rattle.stretches.specs.declared.turn.TheConstants as turn;

/// The limits of serving that `docs/FORMATS.md` and `docs/SECURITY.md` state, in bytes, counts and
/// milliseconds. Fails if one of them gets another number.
pub fn serving_limits_are_these()
    ensures failures_of_a_worker { worker.MOST_FAILURES ≡ 16 }
    ensures bytes_of_a_read { reading.PIECE ≡ 4096 }
    ensures kept_large_body { kept.MOST_LARGE_BODY ≡ 8388608 }
    ensures kept_answers { cache.MOST_ANSWERS ≡ 64 }
    ensures kept_body { cache.MOST_BODY ≡ 65536 }
    ensures idle { life.IDLE_MILLIS ≡ 60000 }
    ensures head { life.HEAD_MILLIS ≡ 30000 }
    ensures progress { life.PROGRESS_MILLIS ≡ 10000 }
    ensures linger { life.LINGER_MILLIS ≡ 2000 }
    ensures stalled { life.STALLED_MILLIS ≡ 2000 }
    ensures failure_window { failing.FAILURE_WINDOW_MILLIS ≡ 10000 }
    ensures failures_of_a_window { failing.MOST_WINDOW_FAILURES ≡ 16 }
    ensures short_turn { turn.SHORT_TURN_MICROS ≡ 2000 }
    ensures long_turn { turn.LONG_TURN_MICROS ≡ 10000 }
    ensures first_turn { turn.FIRST_TURN_MICROS ≡ 50 }
    ensures round { turn.ROUND_MICROS ≡ 10000 }
{}
