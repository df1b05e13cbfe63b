// The texts of the questions, by their numbers.
#![tactic(auto)]

ghost use Rattle.std.specs.Prelude.{◌≡◌, option_map};
ghost use Rattle.reply_status_text.specs.Texts.{Tells};
ghost use Rattle.question_text.specs.Questions.{question_of};

use base::Refusal;

// The question of a number; most numbers have none.
#[tactic(auto, unfolding(crate::specs::Questions::question_of))]
fn question_of(number: u8) -> Option<&'static str>
    ensures { option_map (λ s. s.now) result ≡ question_of number }
{
    match number {
        1 => Some("Is the tag at most 255 bytes and well-formed UTF-8?"),
        2 => Some("Does the tag spell an address?"),
        3 => Some("Is the tag free of a bit together with a count above 1?"),
        4 => Some("Does the value suit the address?"),
        5 => Some("Is the size 0 to 255, or are there 2 to 257 raw bytes?"),
        6 => Some("Is the output long enough?"),
        7 => Some("Is the directory at most 65,535 bytes?"),
        8 => Some("Is the row size not 0?"),
        9 => Some("Do two bytes follow every known type code in the rows?"),
        10 => Some("Does the output hold all files of the directory?"),
        11 => Some("Is the type code one of the twelve?"),
        12 => Some("Is the file number at most 255 and new?"),
        13 => Some("Is the processor type at most 11 bytes, each below 128?"),
        14 => Some("Are the files at most 65,535 bytes, and do table and memory hold them?"),
        15 => Some("Has the datalog at most 64 entries of at most 255 bytes?"),
        16 => Some("Is the processor sound?"),
        17 => Some("Has the reply memory 514 bytes?"),
        18 => Some(
            "Is the command not empty, its first byte not 0, and its length at least that byte plus 4?",
        ),
        19 => Some("Does the file exist with this type, and does the element lie in it?"),
        20 => Some("Does the kind of value suit the type?"),
        21 => Some("Is the field name known?"),
        22 => Some("Is the number in range?"),
        23 => Some("Is the text for ST at most 82 bytes?"),
        24 => Some("Has the text memory 82 bytes?"),
        25 => Some("Has the reply 63 bytes?"),
        26 => Some("Is the offset at most 65,535?"),
        39 => Some("Is a timer's or counter's separator in a new entry a full stop or a slash?"),
        _ => None,
    }
}

// Says the question of a number. A number that no question has is answered with nothing.
pub fn question(number: u8, out: &mut [u8]) -> Result<Option<usize>, Refusal>
    ensures { Tells (question_of number) out.old result out.new }
{
    match question_of(number) {
        Some(text) => reply_status_text::say(text.as_bytes(), out),
        None => Ok(None),
    }
}
