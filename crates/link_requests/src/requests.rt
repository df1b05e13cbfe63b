// Addresses and requests.
ghost use Rattle.std.specs.Prelude.{◌≡◌};
ghost use Rattle.link_requests.specs.RequestRecords.{no_address, full_address, address_record, request_record};

use address::Address;
use base::Refusal;

// What may be missing is 0, beside a 0.
#[repr(C)]
#[derive(Clone, Copy)]
pub struct SlcAddress {
    pub refused: u8,
    pub code: u8,
    pub file_number: u16,
    pub element_number: u16,
    pub has_position: u8,
    pub position: u16,
    pub has_sub_element: u8,
    pub sub_element: u16,
    pub bit: u8,
    pub element_count: u64,
    pub kept: usize,
}

// An address, and the length of the message.
#[repr(C)]
#[derive(Clone, Copy)]
pub struct SlcRequest {
    pub address: SlcAddress,
    pub length: usize,
}

#[tactic(auto, unfolding(crate::specs::RequestRecords::no_address))]
fn no_address(e: Refusal) -> SlcAddress
    ensures { result ≡ no_address e }
{
    SlcAddress {
        refused: e.number(),
        code: 0,
        file_number: 0,
        element_number: 0,
        has_position: 0,
        position: 0,
        has_sub_element: 0,
        sub_element: 0,
        bit: 0,
        element_count: 0,
        kept: 0,
    }
}

#[tactic(auto, unfolding(crate::specs::RequestRecords::full_address))]
fn full_address(x: Address) -> SlcAddress
    ensures { result ≡ full_address x }
{
    SlcAddress {
        refused: 0,
        code: x.file_type.code(),
        file_number: x.file_number,
        element_number: x.element_number,
        has_position: u8::from(x.pos_number.is_some()),
        position: x.pos_number.unwrap_or(0),
        has_sub_element: u8::from(x.sub_element.is_some()),
        sub_element: x.sub_element.unwrap_or(0),
        bit: u8::from(x.bit),
        element_count: x.element_count,
        kept: x.kept,
    }
}

pub fn address_record(r: Result<Address, Refusal>) -> SlcAddress
    ensures { result ≡ address_record r }
{
    match r {
        Ok(x) => full_address(x),
        Err(e) => no_address(e),
    }
}

// Out of line the record would be stored for this and read back.
#[inline]
pub fn request_record(r: Result<(Address, usize), Refusal>) -> SlcRequest
    ensures { result ≡ request_record r }
{
    match r {
        Ok((x, length)) => SlcRequest {
            address: full_address(x),
            length,
        },
        Err(e) => SlcRequest {
            address: no_address(e),
            length: 0,
        },
    }
}
