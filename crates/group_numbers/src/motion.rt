// How an answer on the group of a symbol or a record is handed on.
ghost use Rattle.std.specs.Prelude.{◌≡◌};
ghost use Rattle.motion_tables.specs.Answers.{motion_answer};
ghost use Rattle.group_numbers.specs.MotionBounds.{Tellable};
ghost use Rattle.answer_numbers.specs.Packing.{packed};

use answer_numbers::refused;
use motion_tables::Refusal;

pub(crate) fn answered(answer: Result<u64, Refusal>) -> u64
    requires { Tellable answer }
    ensures { result ≡ packed (motion_answer answer) }
{
    match answer {
        Ok(value) => value,
        Err(refusal) => refused(refusal.number, refusal.place),
    }
}
