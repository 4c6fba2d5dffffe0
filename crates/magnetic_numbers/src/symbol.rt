// What is asked of a magnetic symbol's text. An operation's number has the flag before the rotation's code. One function answers each question, so that
// the packing of a refusal stands once.
ghost use Rattle.std.specs.Prelude.{◌≡◌, ◌≤◌};
ghost use Rattle.centering.specs.Letters.{byte_of};
ghost use Rattle.space_group.specs.NumberGrowth.{flagged_said};
ghost use Rattle.magnetic_group.specs.Symbols.{magnetic_outcome};
ghost use Rattle.magnetic_group.specs.Answers.{order_by, order_answer, letter_by, letter_answer, beside_flag, operation_by, operation_answer};
ghost use Rattle.answer_numbers.specs.Packing.{packed, mapped};
ghost use Rattle.magnetic_numbers.specs.FlaggedNumbers.{flagged_number};
ghost use Rattle.magnetic_numbers.specs.MagneticQuestions.{answer_to, numbers_answer};

use answer_numbers::{operation_number, refused};
use centering::Centering;
use magnetic_group::{Answer, list};
use packed_operation::{flag, said};
use symbol_numbers::question::Question;
use symbol_numbers::symbol::refused_symbol;

// 3⁹ · 1728: a flag before the nine digits of a code and the twelfths.
const FLAG: u64 = 34012224;

pub fn order(text: &[u8]) -> u64
    ensures { result ≡ packed (order_answer (order_by (magnetic_outcome text.now))) }
{
    asked(text, Question::Order)
}

pub fn letter(text: &[u8]) -> u64
    ensures { result ≡ packed (mapped byte_of (letter_answer (letter_by (magnetic_outcome text.now)))) }
{
    asked(text, Question::Letter)
}

pub fn operation(text: &[u8], index: u64) -> u64
    ensures { result ≡ packed (mapped flagged_number (operation_answer (operation_by (magnetic_outcome text.now) index))) }
{
    asked(text, Question::Operation(index))
}

fn asked(text: &[u8], question: Question) -> u64
    ensures { result ≡ packed (answer_to question (magnetic_outcome text.now)) }
{
    let mut numbers = [0u64; 96];
    let g = list(text, &mut numbers);
    let answer = g.answer;
    match answer {
        Answer::Refused(refusal) => refused_symbol(refusal),
        Answer::Group => {
            let c = g.centering;
            answered(question, g.count, c, &numbers)
        }
    }
}

// What a list of numbers answers.
fn answered(question: Question, count: usize, c: Centering, numbers: &[u64; 96]) -> u64
    requires { count ≤ 96 }
    ensures { result ≡ packed (numbers_answer question count c numbers.now) }
{
    match question {
        Question::Order => count as u64,
        Question::Letter => c.byte() as u64,
        Question::Operation(index) => {
            let i = index as usize;
            if count <= i {
                return refused(28, 0);
            }
            flagged_number(numbers[i])
        }
    }
}

fn flagged_number(n: u64) -> u64
    ensures { result ≡ flagged_number (beside_flag (flagged_said n)) }
{
    let number = operation_number(said(n));
    if flag(n) == 1 {
        return FLAG + number;
    }
    number
}
