// What is asked of a symbol's text.
ghost use Rattle.std.specs.Prelude.{◌≡◌};
ghost use Rattle.centering.specs.Letters.{byte_of};
ghost use Rattle.symbol_group.specs.Answers.{symbol_answer, order_of, order_answer, operation_at, operation_answer};
ghost use Rattle.symbol_group.specs.Refusals.{number_of, place_of};
ghost use Rattle.record_writing.specs.SymbolRecords.{symbol_record_answer, symbol_record_of, symbol_buffer_of};
ghost use Rattle.symbol_numbers.specs.Answers.{letter_answer};
ghost use Rattle.symbol_numbers.specs.Questions.{symbol_to};
ghost use Rattle.answer_numbers.specs.Packing.{packed, mapped, operation_number, told_number, told_answer};

use super::question::{Question, answered};
use answer_numbers::refused;
use record_writing::Unwritten;
use symbol_group::refusal::Refusal;
use symbol_group::{Answer, SymbolGroup};

pub fn order(text: &[u8]) -> u64
    ensures { result ≡ packed (order_answer (order_of text.now)) }
{
    asked(text, Question::Order)
}

pub fn letter(text: &[u8]) -> u64
    ensures { result ≡ packed (mapped byte_of (letter_answer (symbol_answer text.now))) }
{
    asked(text, Question::Letter)
}

pub fn operation(text: &[u8], index: u64) -> u64
    ensures { result ≡ packed (mapped operation_number (operation_answer (operation_at text.now index))) }
{
    asked(text, Question::Operation(index))
}

fn asked(text: &[u8], question: Question) -> u64
    ensures { result ≡ packed (symbol_to question text.now) }
{
    let group = SymbolGroup::new(text);
    let answer = group.answer;
    match answer {
        Answer::Refused(refusal) => refused_symbol(refusal),
        Answer::Group => {
            let c = group.centering;
            let letter = c.byte();
            let operations = group.operations;
            answered(question, group.count, letter, operations)
        }
    }
}

pub fn write_record(text: &[u8], out: &mut [u8], start: u64) -> u64
    ensures { (result ≡ packed (symbol_record_answer (symbol_record_of text.now out.old start)))
        × (out.new ≡ symbol_buffer_of text.now out.old start) }
{
    written(record_writing::symbol::write_record(text, out, start as usize))
}

// What was written of a plain or a magnetic symbol, or why not.
pub fn written(answer: Result<usize, Unwritten<symbol_group::refusal::Refusal>>) -> u64
    ensures { result ≡ told_answer (symbol_record_answer answer) }
{
    match answer {
        Ok(n) => n as u64,
        Err(Unwritten::NoRoom) => refused(20, 0),
        Err(Unwritten::Refused(refusal)) => refused_symbol(refusal),
    }
}

pub fn refused_symbol(refusal: Refusal) -> u64
    ensures { result ≡ told_number (number_of refusal) (place_of refusal) }
{
    refused(refusal.number(), refusal.place())
}
