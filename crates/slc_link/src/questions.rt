// The questions in words.
ghost use Rattle.link_texts.specs.WrittenRecords.{Says};
ghost use Rattle.question_text.specs.Questions.{question_of};

use link_texts::SlcWritten;

#[unsafe(no_mangle)]
pub extern "C" fn slc_question(number: u8, out: &mut [u8]) -> SlcWritten
    ensures { Says (question_of number) out.old result out.new }
{
    link_texts::status_record(question_text::question(number, out))
}
