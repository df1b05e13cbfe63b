// The frame of a command and of its reply.
#![tactic(auto)]

ghost use Rattle.std.specs.Prelude.{◌≡◌, [], ◌+◌, ◌≤◌, ◌<◌, length, get_or, take};
ghost use Rattle.base.specs.Put.{Puts, Wrote};
ghost use Rattle.element_text.specs.Text.{fitted};
ghost use Rattle.processor_spec.specs.Ask.{diagnostic as ask_diagnostic};
ghost use Rattle.processor_spec.specs.Frame.{well_formed, framed as frame_framed};
ghost use Rattle.processor_frame.specs.Reply.{reply_to};

// The first byte, which counts the requester id including itself.
pub fn id_len(command: &[u8]) -> usize
    ensures { (result ≡ get_or command.now 0 0) × (result < 256) }
{
    if command.is_empty() {
        return 0;
    }
    usize::from(command[0])
}

// Is the input not empty, its first byte not 0, and its length at least that byte plus 4 (question 18)?
pub fn well_formed(command: &[u8]) -> bool
    ensures { result ≡ well_formed command.now }
{
    let n = id_len(command);
    n != 0 && n + 4 <= command.len()
}

// The requester id from the start of the reply memory. The usual id has 7 bytes: they are stored one by one, which a loop of unknown length isn't.
fn put_id(command: &[u8], n: usize, reply: &mut [u8]) -> usize
    requires n_in_bounds { n ≤ length command.now }
    requires n_in_bounds_2 { n ≤ length reply.old }
    ensures { Wrote reply.old 0 (take n command.now) result reply.new }
{
    if n != 7 {
        return base::put_all(reply, 0, &command[..n]);
    }
    reply[0] = command[0];
    reply[1] = command[1];
    reply[2] = command[2];
    reply[3] = command[3];
    reply[4] = command[4];
    reply[5] = command[5];
    reply[6] = command[6];
    7
}

// The frame of a reply: the requester id, the command byte (CMD) with 0x40 set, the status, the command's two transaction bytes (TNS).
fn frame(command: &[u8], n: usize, status: u8, reply: &mut [u8]) -> usize
    requires n_value { n ≡ get_or command.now 0 0 }
    requires n_in_bounds { n + 4 ≤ length command.now }
    requires n_in_bounds_2 { n + 4 ≤ length reply.old }
    ensures { Wrote reply.old 0 (frame_framed command.now status []) result reply.new }
{
    put_id(command, n, reply);
    reply[n] = command[n] | 0x40;
    reply[n + 1] = status;
    reply[n + 2] = command[n + 2];
    reply[n + 3] = command[n + 3];
    n + 4
}

// A reply with its status and its data, from the start of the reply memory; nothing where there is no room for it. The answer is its length.
pub fn reply_to(command: &[u8], status: u8, bytes: &[u8], reply: &mut [u8]) -> usize
    ensures puts { Puts reply.old 0 (reply_to command.now status bytes.now) result reply.new }
    ensures bytes_len_bound { length (reply_to command.now status bytes.now) ≤ 259 + length bytes.now }
{
    if !well_formed(command) {
        return 0;
    }
    let n = id_len(command);
    if reply.len() < n + 4 {
        return 0;
    }
    if reply.len() - (n + 4) < bytes.len() {
        return 0;
    }
    let a = frame(command, n, status, reply);
    base::put_all(reply, a, bytes)
}

// The fixed bytes in front of the type text in the diagnostic status.
const FRONT: [u8; 5] = [0x00, 0xEE, 0x31, 0x5B, 0x30];

// The type text, padded with spaces to 11.
fn spaced(type_text: [u8; 11], type_len: usize) -> [u8; 11]
    ensures { result ≡ fitted 11 0x20 (take type_len type_text) }
{
    let mut out = [b' '; 11];
    let n = type_len.min(11);
    base::put_all(&mut out, 0, &type_text[..n]);
    out
}

// The data of the diagnostic status: the fixed bytes, the type text, eight zeros.
pub fn diagnostic(type_text: [u8; 11], type_len: usize) -> [u8; 24]
    ensures { result ≡ ask_diagnostic (take type_len type_text) }
{
    let text = spaced(type_text, type_len);
    let mut out = [0u8; 24];
    let at = base::put_all(&mut out, 0, &FRONT);
    base::put_all(&mut out, at, &text);
    out
}
