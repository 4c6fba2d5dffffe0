// What is asked of a layer symbol's text.
ghost use Rattle.std.specs.Prelude.{◌≡◌};
ghost use Rattle.layer_group.specs.Answers.{order_of, order_answer, letter_of, letter_answer, operation_at, operation_answer};
ghost use Rattle.layer_group.specs.Refusals.{number_of, place_of};
ghost use Rattle.record_writing.specs.LayerRecords.{layer_record_answer, layer_record_of, layer_buffer_of};
ghost use Rattle.symbol_numbers.specs.Questions.{layer_to};
ghost use Rattle.answer_numbers.specs.Packing.{packed, mapped, operation_number, told_number};

use super::question::{Question, answered};
use answer_numbers::refused;
use layer_group::refusal::Refusal;
use layer_group::{Answer, LayerGroup};
use record_writing::Unwritten;

pub fn order(text: &[u8]) -> u64
    ensures { result ≡ packed (order_answer (order_of text.now)) }
{
    asked(text, Question::Order)
}

pub fn letter(text: &[u8]) -> u64
    ensures { result ≡ packed (letter_answer (letter_of text.now)) }
{
    asked(text, Question::Letter)
}

pub fn operation(text: &[u8], index: u64) -> u64
    ensures { result ≡ packed (mapped operation_number (operation_answer (operation_at text.now index))) }
{
    asked(text, Question::Operation(index))
}

// The small letter: 32 lies between a capital and its small letter.
fn asked(text: &[u8], question: Question) -> u64
    ensures { result ≡ packed (layer_to question text.now) }
{
    let group = LayerGroup::new(text);
    let answer = group.answer;
    match answer {
        Answer::Refused(refusal) => refused_layer(refusal),
        Answer::Group => {
            let c = group.centering;
            let letter = c.byte() + 32;
            let operations = group.operations;
            answered(question, group.count, letter, operations)
        }
    }
}

pub fn write_record(text: &[u8], out: &mut [u8], start: u64) -> u64
    ensures { (result ≡ packed (layer_record_answer (layer_record_of text.now out.old start)))
        × (out.new ≡ layer_buffer_of text.now out.old start) }
{
    match record_writing::layer::write_record(text, out, start as usize) {
        Ok(n) => n as u64,
        Err(Unwritten::NoRoom) => refused(20, 0),
        Err(Unwritten::Refused(refusal)) => refused_layer(refusal),
    }
}

fn refused_layer(refusal: Refusal) -> u64
    ensures { result ≡ told_number (number_of refusal) (place_of refusal) }
{
    refused(refusal.number(), refusal.place())
}
