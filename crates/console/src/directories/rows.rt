// `dir FIRSTROW ROWSIZE DATA`: `ok n CODE:number:elements:length ..`, said row by row
use crate::answers::Text;
use crate::lines::Call;
use crate::output::Output;

// No directory has more files than bytes, so that these have room for all.
pub fn say_dir<R: Print>(out: &mut Output<'_, R>, call: Call<'_>) {
    if call.bytes(2).len() <= 512 {
        few(out, call);
    } else {
        many(out, call);
    }
}

// Each in a function of its own, so that the stack holds one of the two.
fn few<R: Print>(out: &mut Output<'_, R>, call: Call<'_>) {
    let mut files = [[0u32; 4]; 512];
    parsed(out, call, &mut files);
}

fn many<R: Print>(out: &mut Output<'_, R>, call: Call<'_>) {
    let mut files = [[0u32; 4]; 65535];
    parsed(out, call, &mut files);
}

// The output has `room` files.
fn parsed<R: Print>(out: &mut Output<'_, R>, call: Call<'_>, files: &mut [[u32; 4]]) {
    let room = call.room.min(files.len());
    let first = call.number(0) as usize;
    let size = call.number(1) as usize;
    let rows = &mut files[..room];
    match directory::parse_file_directory(first, size, call.bytes(2), rows) {
        Err(refusal) => out.refused(refusal),
        Ok(n) => listed(out, &rows[..n.min(rows.len())]),
    }
}

fn listed<R: Print>(out: &mut Output<'_, R>, files: &[[u32; 4]]) {
    out.plain(b"ok ");
    out.number(files.len() as u64);
    for f in files {
        file(out, f);
    }
    out.plain(b"\n");
}

fn file<R: Print>(out: &mut Output<'_, R>, f: &[u32; 4]) {
    let mut memory = [0u8; 64];
    let mut text = Text::new(&mut memory);
    row(f, &mut text);
    let n = text.len().min(64);
    out.plain(&memory[..n]);
}

fn row(f: &[u32; 4], text: &mut Text<'_>) {
    text.code(b' ', (f[0] % 256) as u8);
    text.number(b':', u64::from(f[1]));
    text.number(b':', u64::from(f[2]));
    text.number(b':', u64::from(f[3]));
}
