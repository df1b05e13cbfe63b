// Where a processor keeps its file directory, by the family that its type text names.
#![tactic(auto)]

ghost use Rattle.std.specs.Prelude.{◌≡◌};
ghost use Rattle.directory_sys0.specs.Families.{layout, families, family_in, sys0};

// The directory's layout.
#[repr(C)]
#[derive(Clone, Copy)]
pub struct Sys0Info {
    // place of the first row
    pub file_position: usize,
    pub row_size: usize,
    // type code that reads the directory
    pub file_type: u8,
    // element that holds the directory's size, and how many bytes are asked of it
    pub size_element: u8,
    pub size_len: u8,
    // what the processor adds to the size
    pub size_const: u16,
}

fn info(
    file_position: usize,
    row_size: usize,
    file_type: u8,
    size_element: u8,
    size_len: u8,
    size_const: u16,
) -> Sys0Info
    ensures { result ≡ layout file_position row_size file_type size_element size_len size_const }
{
    Sys0Info {
        file_position,
        row_size,
        file_type,
        size_element,
        size_len,
        size_const,
    }
}

// The layout of the family with this name.
fn family_info(family: &[u8]) -> Sys0Info
    ensures { result ≡ family_in families family.now }
{
    if base::spells(family, b"1761", false) {
        return info(93, 8, 0x00, 0x23, 0x04, 0);
    }
    if base::spells(family, b"1762", false) {
        return info(233, 10, 0x02, 0x28, 0x08, 19968);
    }
    if base::spells(family, b"1763", false) {
        return info(233, 10, 0x02, 0x28, 0x08, 19968);
    }
    if base::spells(family, b"1764", false) {
        return info(233, 10, 0x02, 0x28, 0x08, 19968);
    }
    if base::spells(family, b"1766", false) {
        return info(233, 10, 0x03, 0x2B, 0x08, 19968);
    }
    info(79, 10, 0x01, 0x23, 0x04, 0)
}

// The layout for a processor type, by its first four bytes.
#[tactic(auto, unfolding(crate::specs::Families::sys0))]
pub fn sys0_info(plc_type: &[u8]) -> Sys0Info
    ensures { result ≡ sys0 plc_type.now }
{
    family_info(&plc_type[..plc_type.len().min(4)])
}
