// Reads and writes of an address text: their definitions (specs/), questions 3 and 5 of a read, and where a request points.
#![tactic(auto)]

ghost use Rattle.std.specs.Prelude.{◌≡◌};
ghost use Rattle.address_spec.specs.Elements.{elements_of};
ghost use Rattle.request_spec.specs.SizeAnswers.{size_of};
ghost use Rattle.request_spec.specs.Request.{bit_and_count, place as request_place, read_size};

use address_spec::Address;
use request_frame::Target;

// What to write. Raw bytes and text stand beside it.
#[derive(Clone, Copy, Debug, PartialEq, Eq)]
pub enum WriteValue {
    Raw,
    Bool(bool),
    Text,
}

#[tactic(auto, unfolding(crate::specs::Request::bit_and_count))]
pub fn bit_and_count(x: Address) -> bool
    ensures { result ≡ bit_and_count x }
{
    x.bit && 1 < x.element_count
}

// Element size times count, where that is at most 255.
#[tactic(auto, unfolding(crate::specs::Request::read_size))]
pub fn read_size(x: Address) -> Option<u8>
    ensures { result ≡ size_of (read_size (elements_of x)) }
{
    let size = (x.file_type.element_size() as u64).checked_mul(x.element_count)?;
    u8::try_from(size).ok()
}

pub fn place(x: Address, last: u16) -> Target
    ensures { result ≡ request_place (elements_of x) last }
{
    Target {
        file: x.file_number,
        code: x.file_type.code(),
        element: x.element_number,
        sub: last,
    }
}
