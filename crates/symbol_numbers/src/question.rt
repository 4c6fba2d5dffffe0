// What can be asked of a symbol's text, and what the list of its group answers. One function of each family asks, so that the packing of a refusal and of
// an operation stands once there.
ghost use Rattle.std.specs.Prelude.{◌≡◌, ◌≤◌};
ghost use Rattle.answer_numbers.specs.Packing.{packed};
ghost use Rattle.symbol_numbers.specs.Questions.{list_answer};

use answer_numbers::{operation_number, refused};
use operation::Operation;

#[derive(Clone, Copy)]
pub enum Question {
    Order,
    Letter,
    Operation(u64),
}

pub(crate) fn answered(
    question: Question,
    count: usize,
    letter: u8,
    operations: [Operation; 48],
) -> u64
    requires { count ≤ 48 }
    ensures { result ≡ packed (list_answer question count letter operations) }
{
    match question {
        Question::Order => count as u64,
        Question::Letter => letter as u64,
        Question::Operation(index) => {
            let i = index as usize;
            if count <= i {
                return refused(28, 0);
            }
            operation_number(operations[i])
        }
    }
}
